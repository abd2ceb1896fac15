//! Laws of comparisons. The functions do nothing: their contracts are proved for every image, text, input and settings.

ghost use Rattle.dcc_map.specs.Laws.{ListsAreOfRuns, EqualReportsAgree, AgreeingRunsNeverDiffer};

/// The events that are listed with their places are those of the runs.
pub fn lists_are_of_runs()
    ensures { ListsAreOfRuns }
{}

/// Where no events differ, those of one run begin with those of the other.
pub fn equal_reports_agree()
    ensures { EqualReportsAgree }
{}

/// Where the text keeps up with the machine, no events differ.
pub fn agreeing_runs_never_differ()
    ensures { AgreeingRunsNeverDiffer }
{}
