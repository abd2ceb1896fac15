//! Procedures, and what the prelude of a program sets up.

ghost use Rattle.std.specs.Prelude.{◌≡◌};
ghost use Rattle.dcc_machine.specs.declared.image.Image.{Image};
ghost use Rattle.dcc_prog.specs.Trail.{instruction_in, IsNode};
ghost use Rattle.dcc_prog.specs.FrameForm.{is_framed};
ghost use Rattle.dcc_prog.specs.Found.{IsFound};

use dcc_machine::{Cpu, Instr};
use dcc_num::Flags;
use indexmap::IndexMap;
use smallvec::SmallVec;

/// An instruction of a procedure, with the offsets of its successors.
#[derive(Drop)]
pub struct Node {
    /// The instruction.
    pub instr: Instr,
    /// The target and then the next instruction, where an instruction has both, also where these are one offset; of a
    /// jump through a table the targets in their order, with repeats.
    pub succ: SmallVec<u16, 2>,
    /// The number of the DOS call, which AH holds, of INT 21h; of other instructions none.
    pub number: Option<u8>,
}

/// A procedure: its instructions by their offsets in the code segment, in ascending order.
#[derive(Drop)]
pub struct Proc {
    /// The offset of the procedure's first instruction.
    pub entry: u16,
    /// The procedure's instructions by their offsets in the code segment, in ascending order.
    pub nodes: IndexMap<u16, Node>,
}

impl Proc {
    /// The instruction at an offset; none where it is no offset of the procedure.
    pub fn instruction_at(&self, at: u16) -> Option<Instr>
        ensures { (image : Image) (layout : Layout) → IsFound image layout self.now
            → IsNode image layout self.now.entry at → result ≡ instruction_in image layout at }
    {
        let node = self.nodes.get(&at)?;
        Some(node.instr)
    }

    /// Whether the procedure is framed: its first instructions are `push bp` and `mov bp,sp`, or its first one is
    /// ENTER.
    pub fn is_framed(&self) -> bool
        ensures { (image : Image) (layout : Layout) → IsFound image layout self.now → result
            ≡ is_framed image layout self.now.entry }
    {
        let Some(first) = self.instruction_at(self.entry) else {
            return false;
        };
        if !first.op.is_push_bp() {
            return first.op.is_enter();
        }
        match self.instruction_at(first.next_of(self.entry)) {
            Some(second) => second.op.is_mov_bp_sp(),
            None => false,
        }
    }
}

/// What the prelude of a program sets up.
#[derive(Drop)]
pub struct Layout {
    /// The processor that runs the program.
    pub cpu: Cpu,
    /// The data segment.
    pub ds: u16,
    /// How far the stack segment begins above the data segment, in bytes.
    pub delta: u16,
    /// The lowest offset of the stack in the data segment.
    pub lo: u16,
    /// The offset in the data segment just above the stack.
    pub hi: u16,
    /// The offset in the code segment just after the prelude.
    pub start_ip: u16,
    /// The offset in the code segment just after the code.
    pub code_end: u32,
    /// The word registers after the prelude, by number.
    pub regs: [u16; 8],
    /// The flags after the prelude.
    pub flags: Flags,
}
