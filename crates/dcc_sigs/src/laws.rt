//! Laws of files of signatures.

ghost use Rattle.dcc_sigs.specs.Laws.{SigsHaveNoFault, FaultIsUnique};

/// No line offends in a file whose signatures are read.
pub fn sigs_have_no_fault()
    ensures { SigsHaveNoFault }
{}

/// One line at most offends first, and in one way.
pub fn fault_is_unique()
    ensures { FaultIsUnique }
{}
