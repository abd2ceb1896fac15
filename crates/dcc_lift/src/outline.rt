//! The blocks of a procedure.

ghost use Rattle.std.specs.Prelude.{◌≡◌, ◌≤◌, ◌++◌, OnOk, IfOk, length, map};
ghost use Rattle.std.specs.List.Sorted.{IsStrictlyIncreasing};
ghost use Rattle.dcc_ir.specs.Views.{exit_of, block_of};
ghost use Rattle.dcc_lift.specs.Blocks as spec;
ghost use Rattle.dcc_lift.specs.Blocks.{IsBlockAt, AreBlocksAt};
ghost use Rattle.dcc_lift.specs.Known.{KnowsSource, KnowsLeaders, source_of};
ghost use Rattle.dcc_ops.specs.Writing.{written};

use crate::flow::Instructions;
use crate::procedure::Procedure;
use dcc_ir::{Block, End};
use dcc_machine::Cpu;
use dcc_ops::Writer;
use indexmap::IndexMap;
use std::alloc::{AllocError, Global};

/// What the blocks of a procedure are made of.
#[derive(Clone, Copy)]
pub struct BlockSource<'p, 'a> {
    /// The processor that runs the program.
    pub cpu: Cpu,
    /// All procedures.
    pub procedures: &'p [Procedure<'a>],
    /// The procedure whose blocks these are.
    pub procedure: &'p Procedure<'a>,
    /// The heights of the stack at the procedure's instructions, by their offsets.
    pub heights: &'p IndexMap<u16, u16>,
    /// How many blocks of the graph come before those of the procedure's instructions.
    pub before: u32,
}

/// The instructions of a procedure, and the offsets at which its blocks begin: the procedure's first, then the others
/// in ascending order.
#[derive(Drop)]
pub struct Outline<'p, 'a> {
    pub scene: BlockSource<'p, 'a>,
    pub instructions: Instructions<'a>,
    pub leaders: Vec<u16>,
}

// The place of a number among increasing ones; where it is not among them, how many there are.
fn place_of(numbers: &[u16], n: u16) -> usize
    requires { IsStrictlyIncreasing numbers.now }
    ensures place { result ≡ spec.place_in numbers.now n }
    ensures most { result ≤ length numbers.now }
    ensures few { length numbers.now ≤ 65536 }
{
    match numbers.binary_search(&n) {
        Ok(place) => place,
        Err(_) => numbers.len(),
    }
}

impl<'p, 'a> Outline<'p, 'a> {
    /// The outline of a procedure.
    pub fn new(alloc: Global, scene: BlockSource<'p, 'a>) -> Result<Outline<'p, 'a>, AllocError>
        requires { KnowsSource scene }
        ensures scene { IfOk result (λ outline. outline.scene ≡ scene.entry) }
        ensures leaders { IfOk result KnowsLeaders }
    {
        let proc = scene.procedure.proc;
        let instructions = Instructions::new(alloc, &proc.nodes, proc.entry)?;
        let leaders = instructions.leaders(alloc)?;
        Ok(Outline {
            scene,
            instructions,
            leaders,
        })
    }

    /// The place of the block that begins at an offset.
    pub fn place(&self, at: u16) -> u32
        requires { KnowsLeaders self.now }
        ensures { result ≡ spec.block_place (source_of self.now) at }
    {
        if at == self.instructions.start {
            return self.scene.before;
        }
        self.scene.before + 1 + place_of(&self.leaders[1..], at) as u32
    }

    // How the block ends that has its last instruction at an offset.
    fn end(&self, alloc: Global, at: u16) -> Result<End, AllocError>
        requires { KnowsLeaders self.now }
        ensures { IfOk result (λ end. exit_of end ≡ spec.exit_at (source_of self.now) at) }
    {
        let Some(node) = self.instructions.at(at) else {
            return Ok(End::Stop);
        };
        let mut places = Vec::new(alloc);
        for next in node.succ.as_slice() {
            places.push(self.place(*next))?;
        }
        self.scene.procedure.end(alloc, node.instr.op, places)
    }

    // Writes the statements of the instruction at an offset.
    fn write(&self, writer: &mut Writer, at: u16) -> Result<(), AllocError>
        requires { KnowsLeaders self.now }
        ensures { OnOk result (written writer.new
            ≡ written writer.old ++ spec.stmts_at (source_of self.now) at) }
    {
        let Some(node) = self.instructions.at(at) else {
            return Ok(());
        };
        let scene = self.scene;
        match scene.heights.get(&at) {
            Some(height) => {
                scene
                    .procedure
                    .write(writer, scene.cpu, scene.procedures, *height, node)
            }
            None => Ok(()),
        }
    }

    // The block that begins at an offset.
    fn block(&self, alloc: Global, at: u16) -> Result<Block, AllocError>
        requires { KnowsLeaders self.now }
        ensures { IfOk result (λ block. IsBlockAt (source_of self.now) at (block_of block)) }
    {
        let mut writer = Writer::new(alloc);
        self.write(&mut writer, at)?;
        let mut last = at;
        while let Some(next) = self.instructions.onward(last) {
            self.write(&mut writer, next)?;
            last = next;
        }
        let end = self.end(alloc, last)?;
        Ok(Block {
            at,
            stmts: writer.stmts,
            end,
        })
    }

    /// The blocks of the instructions, that at the entry first, then the others in ascending order of offsets.
    pub fn blocks(&self, alloc: Global) -> Result<Vec<Block>, AllocError>
        requires { KnowsLeaders self.now }
        ensures { IfOk result (λ blocks.
            AreBlocksAt (source_of self.now) self.now.leaders.items (map block_of blocks.items)) }
    {
        let mut blocks = Vec::new(alloc);
        for at in &self.leaders {
            blocks.push(self.block(alloc, *at)?)?;
        }
        Ok(blocks)
    }
}
