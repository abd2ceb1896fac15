//! Laws on layouts. The functions do nothing: their contracts are proved for each processor and every image.

ghost use Rattle.dcc_layout.specs.Laws.{AtMostOneLayoutHolds, HasLayoutOrConstruct};

/// At most one layout for each processor holds of an image.
pub fn at_most_one_layout_holds()
    ensures { AtMostOneLayoutHolds }
{}

/// On each processor an image has either a layout or construct 1 at its entry.
pub fn an_image_has_a_layout_or_a_construct()
    ensures { HasLayoutOrConstruct }
{}
