//! The top call.

ghost use Rattle.std.specs.Prelude.{◌≡◌, Some};
ghost use Rattle.dcc_commands.specs.Words.{Execute, ExecuteText, ExecuteWatched};
ghost use Rattle.dcc_top.specs.Jobs.{IsExecution, job_in};
ghost use Rattle.dcc_top.specs.Call.{shelf_change, source_change, sink_change};
ghost use Rattle.dcc_top.specs.Causes.{Replies};
ghost use Rattle.dcc_top.specs.Promises.{KeepsPromises};

use crate::assemble_job::assemble_reply;
use crate::deliver::{WRITE_FAULT, answer};
use crate::execute::execute;
use crate::fetch::{fetch_image, fetch_unit};
use crate::make_job::make_reply;
use crate::reply::Reply;
use crate::text_job::execute_unit;
use crate::trial_job::write_trial;
use crate::watch_job::watch_image;
use dcc_commands::{Execution, Job, TextExecution, job_of};
use dcc_io::{Failed, Shelf, Sink, Source};
use dcc_rules::RuleList;
use std::alloc::Global;

// The answer of `run`. The error is a failed write of what the program puts out.
fn run_reply<H: Shelf, I: Source, O: Sink>(
    alloc: Global,
    run: Execution<'_>,
    shelf: &mut H,
    input: &mut I,
    out: &mut O,
) -> Result<Reply, Failed>
    ensures { Replies (Some (Execute run.entry.file.now run.entry.steps run.entry.cpu))
        (shelf_change H.files H.asked H.absences H.faults shelf.old shelf.new)
        (source_change I.left I.faults input.old input.new)
        (sink_change O.taken O.faults out.old out.new) result }
{
    match fetch_image(alloc, run.file, shelf) {
        Ok(image) => execute(alloc, &image, run.cpu, run.steps, input, out),
        Err(reply) => Ok(reply),
    }
}

// The answer of `watch`. The error is a failed write of what the program puts out.
fn watch_reply<H: Shelf, I: Source, O: Sink>(
    alloc: Global,
    run: Execution<'_>,
    shelf: &mut H,
    input: &mut I,
    out: &mut O,
) -> Result<Reply, Failed>
    ensures { Replies (Some (ExecuteWatched run.entry.file.now run.entry.steps run.entry.cpu))
        (shelf_change H.files H.asked H.absences H.faults shelf.old shelf.new)
        (source_change I.left I.faults input.old input.new)
        (sink_change O.taken O.faults out.old out.new) result }
{
    match fetch_image(alloc, run.file, shelf) {
        Ok(image) => watch_image(alloc, &image, run.cpu, run.steps, input, out),
        Err(reply) => Ok(reply),
    }
}

// The answer of `runc`. The error is a failed write of what the text puts out.
fn runc_reply<H: Shelf, I: Source, O: Sink>(
    alloc: Global,
    run: TextExecution<'_>,
    shelf: &mut H,
    input: &mut I,
    out: &mut O,
) -> Result<Reply, Failed>
    ensures { Replies (Some (ExecuteText run.entry.file.now run.entry.steps run.entry.fill))
        (shelf_change H.files H.asked H.absences H.faults shelf.old shelf.new)
        (source_change I.left I.faults input.old input.new)
        (sink_change O.taken O.faults out.old out.new) result }
{
    match fetch_unit(alloc, run.file, shelf) {
        Ok(unit) => execute_unit(alloc, &unit, run.steps, run.fill, input, out),
        Err(reply) => Ok(reply),
    }
}

// The answer for the words, texts made by these rules. The error is a failed write of what is made, or of what is put
// out by what is run.
fn reply_for<H: Shelf, I: Source, O: Sink>(
    alloc: Global,
    words: &Vec<String>,
    rules: &RuleList,
    shelf: &mut H,
    input: &mut I,
    out: &mut O,
) -> Result<Reply, Failed>
    ensures replies { Replies (job_in words.now.items)
        (shelf_change H.files H.asked H.absences H.faults shelf.old shelf.new)
        (source_change I.left I.faults input.old input.new)
        (sink_change O.taken O.faults out.old out.new) result }
    ensures input { ¬ IsExecution (job_in words.now.items) → input.new ≡ input.old }
{
    match job_of(words) {
        None => Ok(Reply::Usage),
        Some(Job::Make { product, file, cpu }) => make_reply(
            alloc, product, file, cpu, rules, shelf, out,
        ),
        Some(Job::Execute(run)) => run_reply(alloc, run, shelf, input, out),
        Some(Job::ExecuteWatched(run)) => watch_reply(alloc, run, shelf, input, out),
        Some(Job::ExecuteText(run)) => runc_reply(alloc, run, shelf, input, out),
        Some(Job::Assemble(file)) => assemble_reply(alloc, file, shelf, out),
        Some(Job::Try(attempt)) => write_trial(alloc, attempt, rules, out),
    }
}

/// Does what the words after the program's name say, and answers the exit status.
///
/// `c FILE` writes the text of the executable FILE to `out`, made by the rules, `procs FILE` the list of its procedures,
/// and `list FILE` the listing of its image in assembler's words. `run FILE` runs it, on the input and to the output,
/// for at most the steps of `--steps N`; `watch FILE` runs it so up to the first step that isn't clean. These five take
/// the program as one of the processor of `--cpu CPU`. `runc FILE` runs the text FILE, for at most the steps of
/// `--steps N` and with the fill of `--fill N`. `asm FILE` writes the bytes for which the listing FILE stands.
/// `trial SEED SIZE STEPS` makes a program at random, runs it and its text, and writes six lines on both. No other words
/// are a command.
///
/// Statuses: 0 where what is made, listed, assembled or told is written or the run has ended by its exit; 2 usage, 3 no
/// file, 4 the file could not be read, 5 the input could not, 6 a write failed, 7 memory ran out, 8 the file is no
/// executable, 9 a construct stands in the program for which nothing is written, 10 a count of the program is too
/// great, 11 the file is no text, 12 the text would lack the shape that its procedures ask for, 20 the run goes on
/// after the steps that were asked for, 21 it ended by a divide fault, 22 it came to what is no instruction, 23 the
/// next step isn't clean, 24 the text has no step there, 25 the file is no listing or a limit is passed. A status other
/// than 0 and 6 has its line on `err`, and the exit of a run too.
pub fn dcc<H: Shelf, I: Source, O: Sink, E: Sink>(
    alloc: Global,
    words: &Vec<String>,
    rules: &RuleList,
    shelf: &mut H,
    input: &mut I,
    out: &mut O,
    err: &mut E,
) -> u8
    ensures promises { KeepsPromises (record {
      job = job_in words.now.items;
      shelf = shelf_change H.files H.asked H.absences H.faults shelf.old shelf.new;
      input = source_change I.left I.faults input.old input.new;
      output = sink_change O.taken O.faults out.old out.new;
      errors = sink_change E.taken E.faults err.old err.new;
      status = result;
    }) }
    ensures input { ¬ IsExecution (job_in words.now.items) → input.new ≡ input.old }
{
    match reply_for(alloc, words, rules, shelf, input, out) {
        Ok(reply) => answer(alloc, &reply, err),
        Err(Failed) => WRITE_FAULT,
    }
}
