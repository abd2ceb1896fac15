//! Laws of listings. The function does nothing: its contract is proved for every program and text.

ghost use Rattle.dcc_list.specs.Laws.{ListingStandsForImage};

/// The listing of a program's image is a listing of the image's bytes.
pub fn listing_stands_for_image()
    ensures { ListingStandsForImage }
{}
