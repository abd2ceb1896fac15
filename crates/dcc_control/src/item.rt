//! Plans of the control of a text. Blocks are named by their places in the graph, statements by their places in the
//! block.

/// An item of a plan.
#[derive(Drop)]
#[cycle(plan)]
pub enum Item {
    /// The statement of a block at that place.
    Do(u32, u32),
    /// The label of a block.
    Mark(u32),
    /// A jump to a block's label.
    Jump(u32),
    /// The test at the end of a block, with what stands on either side.
    If(u32, Vec<Item>, Vec<Item>),
    /// The choice at the end of a block, with its arms.
    Switch(u32, Vec<Arm>),
    /// The return at the end of a block.
    Return(u32),
    /// A loop without a test, each turn of which begins a block.
    For(u32, Vec<Item>),
    /// A loop that tests first, at the end of the block, and goes on where the test comes to that truth value.
    While(bool, u32, Vec<Item>),
    /// A loop that tests last, at the end of the first block; each turn begins the second one.
    DoWhile(bool, u32, u32, Vec<Item>),
    /// `break`.
    Break,
    /// `continue`.
    Continue,
    /// An empty statement.
    Empty,
}

/// An arm of a choice.
#[derive(Drop)]
#[cycle(plan)]
pub struct Arm {
    /// The numbers for which the choice goes to the arm.
    pub cases: Vec<u16>,
    /// The items that stand in the arm.
    pub body: Vec<Item>,
}
