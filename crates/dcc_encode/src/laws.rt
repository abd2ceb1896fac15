//! Laws of encodings. The functions do nothing: their contracts are proved for every processor and operation.

ghost use Rattle.dcc_encode.specs.Laws.{EncodingsAreDrafts, StandardEncodingIsUnique};

/// Each encoding of an operation is among its drafts.
pub fn encodings_are_drafts()
    ensures { EncodingsAreDrafts }
{}

/// An operation has one standard encoding at most at an offset.
pub fn standard_encoding_is_unique()
    ensures { StandardEncodingIsUnique }
{}
