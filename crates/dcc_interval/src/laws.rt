//! Laws of intervals. The functions do nothing: their contracts are proved for all graphs.

ghost use Rattle.dcc_interval.specs.Laws.{IntervalsPartGraphs, IntervalsAreGreatest, DerivedSequencesAgree};
ghost use Rattle.dcc_interval.specs.Laws.{GraphsHaveDerivedSequences, DerivedSequencesReduce};

/// Each node that is reached is in just one of the intervals that part a graph.
pub fn intervals_part_graphs()
    ensures { IntervalsPartGraphs }
{}

/// The interval of a header is the greatest subgraph that is entered at the header alone and in which each closed path
/// holds it.
pub fn intervals_are_greatest()
    ensures { IntervalsAreGreatest }
{}

/// The derived sequences of a graph have the same loop headers, and as many intervals at each level.
pub fn derived_sequences_agree()
    ensures { DerivedSequencesAgree }
{}

/// Each graph has a derived sequence.
pub fn graphs_have_derived_sequences()
    ensures { GraphsHaveDerivedSequences }
{}

/// The loop headers of each derived sequence of a graph are those of the graph's reduction, and it ends in one node
/// where the reduction does.
pub fn derived_sequences_reduce()
    ensures { DerivedSequencesReduce }
{}
