//! What the analyses of a program find: stack heights, frames and the program as a whole.

use crate::procedure::{Layout, Proc};
use indexmap::IndexMap;

/// Stack heights, by the place of a procedure in the program's list.
#[derive(Drop)]
pub struct Heights {
    /// For each offset of a procedure the number of bytes by which SP lies below its value at the
    /// procedure's entry.
    pub at: Vec<IndexMap<u16, u16>>,
    /// How many bytes of arguments each procedure's RET removes.
    pub ret: Vec<u16>,
}

/// One or two bytes of a frame that belong together: no instruction uses more at once that overlap them.
#[derive(Clone, Copy, PartialEq, Eq, Debug)]
pub struct Cell {
    /// The signed offset of the first byte from BP, which is the frame's base less 4.
    pub first: i32,
    /// The number of bytes, 1 or 2.
    pub size: u8,
}

/// The bytes of a frame whose address may be computed.
#[derive(Clone, Copy, PartialEq, Eq, Debug)]
pub struct Exposed {
    /// The number of bytes directly below BP.
    pub local: u16,
    /// The least exposed offset of 4 or more from BP, up to the end of the arguments.
    pub arg: Option<u16>,
}

/// The frame of a procedure.
#[derive(Drop)]
pub struct Frame {
    /// Whether the procedure begins with PUSH BP and MOV BP,SP, or with ENTER.
    pub framed: bool,
    /// The number of argument words on the stack.
    pub args: u16,
    /// In ascending order of `first`.
    pub cells: Vec<Cell>,
    /// The bytes whose address may be computed.
    pub exposed: Exposed,
}

/// The frames, by the place of a procedure in the program's list.
#[derive(Drop)]
pub struct Cells {
    /// The frame of each procedure.
    pub frames: Vec<Frame>,
}

/// What the analyses find in an image.
#[derive(Drop)]
pub struct Program {
    /// What the prelude sets up.
    pub layout: Layout,
    /// The entry procedure first, then the others by their entries.
    pub procs: Vec<Proc>,
    /// The stack heights of each procedure.
    pub heights: Heights,
    /// The frames.
    pub cells: Cells,
}
