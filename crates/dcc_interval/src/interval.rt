//! Intervals and sequences of them.

/// An interval of a graph.
#[derive(Drop)]
pub struct Interval {
    /// The node that it is entered at.
    pub header: u32,
    /// The header and its other nodes, each once, in an order that is open.
    pub members: Vec<u32>,
}

/// The derived sequence of a graph.
#[derive(Drop)]
pub struct Sequence {
    /// The intervals of the graph, and those of each collapsed graph, whose nodes are places in the level before. The
    /// interval that the graph is entered at stands first in each level.
    pub levels: Vec<Vec<Interval>>,
}
