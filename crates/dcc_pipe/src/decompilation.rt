//! From an image to its text.

ghost use Rattle.std.specs.Prelude.{◌≡◌, ℕ, IfOk, IfErr, length};
ghost use Rattle.dcc_machine.specs.MzImage.{IsLoaded};
ghost use Rattle.dcc_prog.specs.Analysed.{IsProgramOf};
ghost use Rattle.dcc_machine_demand.specs.Asked.{IsOfSummaries};
ghost use Rattle.dcc_machine_demand.specs.Bodies.{bodies_of};
ghost use Rattle.dcc_machine_demand.specs.Refused.{IsAcceptedProgram};
ghost use Rattle.dcc_simulation.specs.Nodes.{procedures_in};
ghost use Rattle.dcc_kinds.specs.Laws.{IsConstructOf};
ghost use Rattle.dcc_c.specs.Views.{tree_of};
ghost use Rattle.dcc_c.specs.Written.{written_form};
ghost use Rattle.dcc_shape.specs.Shape.{HaveShape};
ghost use Rattle.dcc_pipe.specs.Agreement.{IsTextOf};
ghost use Rattle.dcc_pipe.specs.Shaped.{asked_of, HasShape, IsMadeOf, HasNoTextFor, LacksFirst};
ghost use Rattle.dcc_globals.specs.Globals.{globals_of};
ghost use Rattle.dcc_pipe.specs.GlobalData.{data_of, HasGlobals};
ghost use Rattle.dcc_pipe.specs.Faults.{refusal_for};
ghost use Rattle.dcc_pipe.specs.TypedFrames.{AreTypedFrames, HasTypedFrames};

use crate::analysis::analyse;
use crate::finishing::finished;
use crate::no_text::NoText;
use crate::preparation::prepared;
use crate::tidying::tidied;
use crate::unit::unit_of;
use dcc_c::Unit;
use dcc_globals::{
    first_memories_are_equal, globals_are_allowed, globals_are_writable, globals_have_names,
};
use dcc_instruction_demand::lifted_relations_are_the_machines;
use dcc_kinds::{faults_are_constructs, summed_programs_have_none};
use dcc_lift::lift;
use dcc_machine::{Cpu, Image};
use dcc_prog::{ConstructKind, Program, Refusal};
use dcc_rules::RuleList;
use dcc_shape::has_shape;
use dcc_summaries::SumsFault;
use std::alloc::Global;

// The text of a program that is analysed, by these rules, or what is at fault between its procedures.
fn text_of(
    alloc: Global,
    image: &Image,
    program: &Program,
    rules: &RuleList,
) -> Result<Unit, SumsFault>
    requires loaded { IsLoaded image.now }
    requires program { IsProgramOf program.now.layout.cpu image.now program.now }
    ensures text { IfOk result
        (λ unit. IsTextOf program.now.layout.cpu image.now (written_form (tree_of unit)) (tree_of unit)) }
    ensures as_many { IfOk result (λ unit. length program.now.procs.items ≡ length (tree_of unit).functions) }
    ensures typed { IfOk result (λ unit. HaveShape (asked_of program.now) (tree_of unit).functions
        → AreTypedFrames (procedures_in program.now) (tree_of unit).functions) }
    ensures made { IfOk result (λ unit. IsMadeOf image.now program.now (tree_of unit)) }
    ensures globals { IfOk result (λ unit. (tree_of unit).globals ≡ globals_of (data_of image.now program.now)) }
    ensures none { IfOk result
        (λ unit. (kind : ConstructKind) (at : ℕ) → ¬ IsOfSummaries (bodies_of program.now) kind at) }
    ensures fault { IfErr result (IsConstructOf (bodies_of program.now)) }
{
    let lifted = lift(alloc, image, program)?;
    // What is at fault in the lifted program is a construct of the image, by the three laws that are called here.
    lifted_relations_are_the_machines();
    faults_are_constructs();
    summed_programs_have_none();
    let prepared = prepared(alloc, lifted)?;
    let tidied = tidied(alloc, prepared, rules)?;
    let plain = unit_of(alloc, &tidied, program.procs.as_slice())?;
    // The text may declare its global variables, by the four laws that are called here.
    globals_are_allowed();
    globals_have_names();
    globals_are_writable();
    first_memories_are_equal();
    Ok(finished(alloc, &plain)?)
}

// The refusal of a program for what is at fault between its procedures.
fn refusal_of(fault: SumsFault) -> Refusal
    ensures { result ≡ refusal_for fault }
{
    match fault {
        SumsFault::ArgumentReused { at } => Refusal::Construct {
            kind: ConstructKind::ArgumentReused,
            at,
        },
        SumsFault::SeveralResults { at } => Refusal::Construct {
            kind: ConstructKind::SeveralResults,
            at,
        },
        SumsFault::Memory => Refusal::Memory,
    }
}

// The text, where each of its functions has the shape that its procedure asks for; else the entry of the first procedure
// whose function lacks it.
fn shaped(alloc: Global, program: &Program, unit: Unit) -> Result<Unit, NoText>
    requires functions { length program.now.procs.items ≡ length (tree_of unit).functions }
    requires frames { length program.now.procs.items ≡ length program.now.cells.frames.items }
    ensures has { IfOk result (λ after. after ≡ unit × HaveShape (asked_of program.now) (tree_of after).functions) }
    ensures lacks { IfErr result (LacksFirst program.now (tree_of unit)) }
{
    match has_shape(
        alloc,
        program.procs.as_slice(),
        program.cells.frames.as_slice(),
        unit.funcs.as_slice(),
    )? {
        None => Ok(unit),
        Some(first) => Err(NoText::NotYet {
            at: program.procs[first].entry,
        }),
    }
}

/// The text of a loaded program for a processor: global variables for its data, and a function for each procedure, with variables for its values, an array for the local bytes of the frame that are in memory, and loops,
/// tests, choices and jumps, with the lines where statements stand in the written form. Expressions are made simpler by
/// the rules of a list; what is promised holds for every list. The written form stands for the unit's tree, whose run on
/// every input and from every fill agrees with that of the program on the processor, as long as that is clean. The
/// `auto` parameters and variables of a function are just the arguments and the local bytes that its procedure's frame
/// exposes; where it exposes no local byte, there may be one if the procedure moves SP by ADD, SUB, INC or DEC. That byte
/// stands for no cell, and nothing of it is used but the address, of which the flags of such a move tell: neither the
/// address nor what is reckoned from it comes beneath a `*`, into memory or to another function, but for single bits.
///
/// The global variables are those for the data that the program accesses at fixed offsets: a scalar for each byte or word
/// that is always accessed as a whole, and arrays for all other data and for what is left of the image. Each holds at
/// first what the image has there.
///
/// Each function has the shape that its procedure asks for. Its blocks, labels, jumps and empty statements are no more
/// than the procedure's instructions, edges and loops give. Where the procedure has fewer than 190 branches and loops,
/// or nothing in the text has 199 blocks around it: each address with a label that jumps go to is one to which at least
/// two edges lead; each loop of the procedure, by its intervals, is one loop of the text, with its label before it; and
/// where the procedure's derived sequence ends in one node, each jump goes on, or to a loop around it.
///
/// A program that has a text has no construct, and passes no limit. One that is refused is told why, in this order:
/// what `analyse` refuses; and where it refuses nothing, a construct of what procedures take and give back: a CALL that
/// may change an argument which is wanted after it, or a procedure that gives several values back. Where nothing
/// refuses the program, the text that is made of it may still lack its shape: then the entry of the first procedure is
/// told whose function does. Want of memory may refuse any program.
pub fn decompile(alloc: Global, image: &Image, cpu: Cpu, rules: &RuleList) -> Result<Unit, NoText>
    requires { IsLoaded image.now }
    ensures text { IfOk result (λ unit. IsTextOf cpu image.now (written_form (tree_of unit)) (tree_of unit)) }
    ensures typed { IfOk result (λ unit. HasTypedFrames cpu image.now (tree_of unit)) }
    ensures shaped { IfOk result (λ unit. HasShape cpu image.now (tree_of unit)) }
    ensures globals { IfOk result (λ unit. HasGlobals cpu image.now (tree_of unit)) }
    ensures accepted { IfOk result (λ unit. IsAcceptedProgram cpu image.now) }
    ensures refused { IfErr result (HasNoTextFor cpu image.now) }
{
    let program = analyse(alloc, image, cpu)?;
    match text_of(alloc, image, &program, rules) {
        Ok(unit) => shaped(alloc, &program, unit),
        Err(fault) => Err(NoText::Refused(refusal_of(fault))),
    }
}
