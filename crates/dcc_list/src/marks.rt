//! Which offsets of the code instructions begin at, and which ones jumps go to.

ghost use Rattle.std.specs.Prelude.{◌≡◌, ◌||◌, ℕ, List, false, length, replicate, IfOk, slice_index_or};
ghost use Rattle.std.specs.List.{list_any};
ghost use Rattle.dcc_machine.specs.declared.instr.Instr.{Instr as TheInstr};
ghost use Rattle.dcc_machine.specs.Code.{code_of};
ghost use Rattle.dcc_machine.specs.MzImage.{IsLoaded};
ghost use Rattle.dcc_prog.specs.Layout.{IsRun, offset_after};
ghost use Rattle.dcc_list.specs.Listed.{is_among, has_node, jumps_to, jump_targets, offsets_from};
ghost use Rattle.dcc_list.specs.MarkViews.{IsSized, AreMarks};

use dcc_decode::decode;
use dcc_machine::{Image, Op};
use dcc_prog::{Node, Proc, Program};
use std::alloc::{AllocError, Global};

// The number of offsets in a segment.
const OFFSETS: usize = 65536;

/// For each offset of the code segment, what begins there.
#[derive(Drop)]
pub struct Marks {
    /// Whether an instruction of the prelude or of a procedure does.
    pub listed: Vec<bool>,
    /// Whether some instruction jumps there.
    pub targets: Vec<bool>,
}

// Marks offsets.
fn mark_all(marks: &mut [bool], offsets: &[u16])
    requires { length marks.old ≡ 65536 }
    ensures { (at : ℕ) → slice_index_or marks.new at false
        ≡ slice_index_or marks.old at false || is_among at offsets.now }
{
    for offset in offsets {
        marks[usize::from(*offset)] = true;
    }
}

// Marks the offsets of a procedure's instructions.
fn mark_nodes(marks: &mut [bool], proc: &Proc)
    requires { length marks.old ≡ 65536 }
    ensures { (at : ℕ) → slice_index_or marks.new at false
        ≡ slice_index_or marks.old at false || has_node at proc.now }
{
    for (at, _node) in proc.nodes.iter() {
        marks[usize::from(*at)] = true;
    }
}

// Marks the offsets to which an instruction jumps.
fn mark_jump(marks: &mut [bool], node: &Node)
    requires { length marks.old ≡ 65536 }
    ensures { (at : ℕ) → slice_index_or marks.new at false
        ≡ slice_index_or marks.old at false || is_among at (jump_targets node.now.instr.op node.now.succ.items) }
{
    match node.instr.op {
        Op::Jump(target) | Op::Branch(_, target) => mark_all(marks, &[target]),
        Op::Loop(target) | Op::LoopE(target) | Op::LoopNe(target) | Op::Jcxz(target) => {
            mark_all(marks, &[target]);
        }
        Op::Table(_, _) => mark_all(marks, node.succ.as_slice()),
        _ => {}
    }
}

// Marks the offsets to which a procedure's instructions jump.
fn mark_jumps(marks: &mut [bool], proc: &Proc)
    requires { length marks.old ≡ 65536 }
    ensures { (at : ℕ) → slice_index_or marks.new at false
        ≡ slice_index_or marks.old at false || jumps_to at proc.now }
{
    for (_at, node) in proc.nodes.iter() {
        mark_jump(marks, node);
    }
}

// Marks the offsets of the prelude's instructions, from the entry up to where the entry procedure begins.
fn mark_prelude(marks: &mut [bool], image: &Image, program: &Program)
    requires loaded { IsLoaded image.now }
    requires length { length marks.old ≡ 65536 }
    ensures { (prelude : List TheInstr)
        → IsRun program.now.layout.cpu (code_of image.now) image.now.ip prelude
        → offset_after image.now.ip prelude ≡ program.now.layout.start_ip
        → (at : ℕ) → slice_index_or marks.new at false
        ≡ slice_index_or marks.old at false || is_among at (offsets_from image.now.ip prelude) }
{
    let code = image.code();
    let start = usize::from(program.layout.start_ip);
    let mut at = usize::from(image.ip);
    while at < start {
        let Some(instr) = decode(code, at as u16, program.layout.cpu) else {
            return;
        };
        marks[at] = true;
        at += usize::from(instr.len);
    }
}

// Marks the offsets of the instructions of procedures.
fn mark_procs(marks: &mut [bool], procs: &[Proc])
    requires { length marks.old ≡ 65536 }
    ensures { (at : ℕ) → slice_index_or marks.new at false
        ≡ slice_index_or marks.old at false || list_any (has_node at) procs.now }
{
    for proc in procs {
        mark_nodes(marks, proc);
    }
}

// Marks the offsets to which the instructions of procedures jump.
fn mark_targets(marks: &mut [bool], procs: &[Proc])
    requires { length marks.old ≡ 65536 }
    ensures { (at : ℕ) → slice_index_or marks.new at false
        ≡ slice_index_or marks.old at false || list_any (jumps_to at) procs.now }
{
    for proc in procs {
        mark_jumps(marks, proc);
    }
}

impl Marks {
    // No offset is marked.
    fn none(alloc: Global) -> Result<Vec<bool>, AllocError>
        ensures { IfOk result (λ marks. marks.items ≡ replicate 65536 false) }
    {
        let marks = vec![in alloc; false; OFFSETS]?;
        Ok(marks)
    }

    /// The marks of a program.
    pub fn of(alloc: Global, image: &Image, program: &Program) -> Result<Marks, AllocError>
        requires { IsLoaded image.now }
        ensures sized { IfOk result IsSized }
        ensures marks { (prelude : List TheInstr)
            → IsRun program.now.layout.cpu (code_of image.now) image.now.ip prelude
            → offset_after image.now.ip prelude ≡ program.now.layout.start_ip
            → IfOk result (AreMarks image.now program.now prelude) }
    {
        let mut listed = Marks::none(alloc)?;
        let mut targets = Marks::none(alloc)?;
        mark_prelude(listed.as_mut_slice(), image, program);
        mark_procs(listed.as_mut_slice(), &program.procs);
        mark_targets(targets.as_mut_slice(), &program.procs);
        Ok(Marks { listed, targets })
    }
}
