//! What the analyses of data flow find in a program.

use crate::syntax::Loc;

/// The halves and flags that pass between a procedure and its callers, each list in the order of `AL`, `AH`,
/// `CL`, `CH`, `DL`, `DH`, `BL`, `BH`, the halves of SI and of DI, and the flags CF, ZF, SF and OF.
#[derive(Drop)]
pub struct Sum {
    /// The halves and flags that are wanted at the graph's entry; none for the first graph.
    pub params: Vec<Loc>,
    /// The halves and flags that the procedure changes and that are wanted after some call of it.
    pub results: Vec<Loc>,
    /// The halves and flags that the procedure does not change.
    pub preserved: Vec<Loc>,
}

/// What passes, by the place of a graph in the program.
#[derive(Drop)]
pub struct Sums {
    pub of: Vec<Sum>,
}

/// The locations that are live at the end of each block of a graph, by the block's place.
#[derive(Drop)]
pub struct Live {
    pub at_end: Vec<Vec<Loc>>,
}
