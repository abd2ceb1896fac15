//! Laws of trials. The functions do nothing: their contracts are proved for every seed, size and number of steps.

ghost use Rattle.dcc_trial.specs.Laws.{MadeFilesHaveNoFault, CleanRunsAgree};

/// A file that is made passes all checks of the format.
pub fn made_files_have_no_fault()
    ensures { MadeFilesHaveNoFault }
{}

/// Where the machine's steps are clean, one of the two outputs is a prefix of the other.
pub fn clean_runs_agree()
    ensures { CleanRunsAgree }
{}
