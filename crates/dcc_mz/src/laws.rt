//! Laws on images and faults, for every list of bytes.

ghost use Rattle.dcc_mz.specs.Laws.{HasOneAnswer};

/// A file has either one image or one first fault.
pub fn a_file_has_one_answer()
    ensures { HasOneAnswer }
{}
