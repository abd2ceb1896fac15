//! The lifted program.

ghost use Rattle.std.specs.Prelude.{◌≡◌, ◌++◌, OnOk, IfOk, map, flat_map};
ghost use Rattle.dcc_machine.specs.MzImage.{IsLoaded};
ghost use Rattle.dcc_prog.specs.Layout.{HasLayout};
ghost use Rattle.dcc_prog.specs.Found.{AreFound};
ghost use Rattle.dcc_prog.specs.Analysed.{AreHeights, AreFrames};
ghost use Rattle.dcc_ir.specs.Views.{block_of, graph_of, program_of};
ghost use Rattle.dcc_lift.specs.Translation as spec;
ghost use Rattle.dcc_lift.specs.Translation.{IsGraphOf};
ghost use Rattle.dcc_lift.specs.Known as known;
ghost use Rattle.dcc_lift.specs.Known.{scene_given, source_of, KnowsSource, KnowsLeaders, AreBlocksOf};
ghost use Rattle.dcc_lift.specs.Lifted.{IsLiftOf};
ghost use Rattle.dcc_ops.specs.Writing.{written};

use crate::edges::OFFSETS;
use crate::outline::{BlockSource, Outline};
use crate::passed::PASSED_REGISTERS;
use crate::procedure::procedures_of;
use dcc_ir::{Block, End, Graph, IrProgram, Loc, Param};
use dcc_machine::{Image, LOAD_SEGMENT};
use dcc_num::{FlagName, Flags, Half, Reg};
use dcc_ops::{Writer, bit, byte, temporary_bits};
use dcc_prog::{Layout, Program};
use std::alloc::{AllocError, Global};

// A word register begins with what the prelude leaves in it.
fn start_register(writer: &mut Writer, regs: &[u16; 8], r: Reg) -> Result<(), AllocError>
    ensures { OnOk result (written writer.new ≡ written writer.old ++ spec.register_starting regs.now r) }
{
    let word = regs[r as usize];
    let low = byte(Half::Low.of(word));
    let high = byte(Half::High.of(word));
    writer.set(Loc::Half(r, Half::Low), low)?;
    writer.set(Loc::Half(r, Half::High), high)
}

// The word registers whose halves are locations begin with what the prelude leaves.
fn start_registers(writer: &mut Writer, regs: &[u16; 8]) -> Result<(), AllocError>
    ensures { OnOk result (written writer.new
        ≡ written writer.old ++ flat_map (spec.register_starting regs.now) spec.general_registers) }
{
    for r in PASSED_REGISTERS {
        start_register(writer, regs, r)?;
    }
    Ok(())
}

// The flags begin with what the prelude leaves.
fn start_flags(writer: &mut Writer, flags: Flags) -> Result<(), AllocError>
    ensures { OnOk result (written writer.new ≡ written writer.old ++ spec.flags_starting flags) }
{
    writer.set(Loc::Flag(FlagName::Cf), bit(flags.cf))?;
    writer.set(Loc::Flag(FlagName::Zf), bit(flags.zf))?;
    writer.set(Loc::Flag(FlagName::Sf), bit(flags.sf))?;
    writer.set(Loc::Flag(FlagName::Of), bit(flags.of))
}

// The block of the prelude, which goes to the block of the procedure's entry.
fn prelude_block(
    alloc: Global,
    image: &Image,
    layout: &Layout,
    outline: &Outline<'_, '_>,
) -> Result<Block, AllocError>
    requires leaders { KnowsLeaders outline.now }
    ensures { IfOk result (λ block. block_of block ≡ spec.prelude_block image.now layout.now (source_of outline.now)) }
{
    let mut writer = Writer::new(alloc);
    start_registers(&mut writer, &layout.regs)?;
    start_flags(&mut writer, layout.flags)?;
    Ok(Block {
        at: image.ip,
        stmts: writer.stmts,
        end: End::Goto(outline.place(layout.start_ip)),
    })
}

// The blocks of a graph: those of the instructions, after the prelude's where there is one before them.
fn graph_blocks(
    alloc: Global,
    image: &Image,
    layout: &Layout,
    outline: &Outline<'_, '_>,
) -> Result<Vec<Block>, AllocError>
    requires { KnowsLeaders outline.now }
    ensures { IfOk result (λ blocks.
        AreBlocksOf image.now layout.now (source_of outline.now) (map block_of blocks.items)) }
{
    let mut own = outline.blocks(alloc)?;
    if outline.scene.before == 0 {
        return Ok(own);
    }
    let mut blocks = Vec::new(alloc);
    blocks.push(prelude_block(alloc, image, layout, outline)?)?;
    blocks.append(&mut own)?;
    Ok(blocks)
}

// What a graph takes: nothing where the prelude's block comes first.
fn graph_params(alloc: Global, scene: BlockSource<'_, '_>) -> Result<Vec<Param>, AllocError>
    requires { KnowsSource scene }
    ensures { IfOk result (λ params. params.items ≡ known.graph_params (scene_given scene.entry)) }
{
    if scene.before == 0 {
        scene.procedure.params(alloc)
    } else {
        Ok(Vec::new(alloc))
    }
}

// The graph of a procedure. The graph of the entry procedure begins with the prelude, and takes nothing.
fn graph(
    alloc: Global,
    image: &Image,
    layout: &Layout,
    scene: BlockSource<'_, '_>,
) -> Result<Graph, AllocError>
    requires { KnowsSource scene }
    ensures { IfOk result (λ graph. IsGraphOf image.now layout.now (scene_given scene.entry) (graph_of graph)) }
{
    let outline = Outline::new(alloc, scene)?;
    Ok(Graph {
        entry: scene.procedure.proc.entry,
        params: graph_params(alloc, scene)?,
        local: scene.procedure.frame.exposed.local,
        pushed: scene.procedure.pushed,
        blocks: graph_blocks(alloc, image, layout, &outline)?,
        bits: temporary_bits(alloc)?,
    })
}

// How many blocks come before those of the instructions in the graph of a number: the prelude's in the first.
fn before_of(number: usize) -> u32
    ensures { result ≡ known.before_of number }
{
    if number == 0 { 1 } else { 0 }
}

// The bytes of the image in the data segment.
#[tactic(auto, unfolding(crate::specs::Translation::data_image))]
fn data_image(alloc: Global, image: &Image, layout: &Layout) -> Result<Vec<u8>, AllocError>
    ensures { IfOk result (λ bytes. bytes.items ≡ spec.data_image image.now layout.now) }
{
    let start = usize::from(layout.ds.saturating_sub(LOAD_SEGMENT)) * 16;
    image
        .bytes
        .iter()
        .skip(start)
        .take(OFFSETS)
        .copied()
        .collect(alloc)
}

/// The program of the inner language that stands for all procedures: a graph for each, over the halves of registers,
/// the flags, the cells of its frame and temporaries, and the image's data segment. Its run visits its blocks as the
/// machine comes to their places, with the same events at the console and the same end, as long as the machine's run
/// is clean.
///
/// The program is what the analyses give for the image. Want of memory alone is an error, and leaves nothing.
pub fn lift(alloc: Global, image: &Image, program: &Program) -> Result<IrProgram, AllocError>
    requires loaded { IsLoaded image.now }
    requires layout { HasLayout image.now program.now.layout }
    requires found { AreFound image.now program.now.layout program.now.procs.items }
    requires heights { AreHeights image.now program.now.layout program.now.procs.items program.now.heights }
    requires cells { AreFrames image.now program.now.layout program.now.procs.items program.now.cells }
    ensures lifted { IfOk result (λ lifted. IsLiftOf image.now program.now (program_of lifted)) }
{
    let procedures = procedures_of(alloc, &program.layout, &program.procs, &program.cells)?;
    let mut graphs = Vec::new(alloc);
    for number in 0..procedures.len().min(program.heights.at.len()) {
        let scene = BlockSource {
            cpu: program.layout.cpu,
            procedures: procedures.as_slice(),
            procedure: &procedures[number],
            heights: &program.heights.at[number],
            before: before_of(number),
        };
        graphs.push(graph(alloc, image, &program.layout, scene)?)?;
    }
    Ok(IrProgram {
        graphs,
        image: data_image(alloc, image, &program.layout)?,
        lo: program.layout.lo,
        hi: program.layout.hi,
    })
}
