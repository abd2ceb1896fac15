//! The jobs of `c`, `procs` and `list`: what is made of an executable.

ghost use Rattle.std.specs.Prelude.{◌≤◌, ℕ, List, Option, Some, IfOk, OnErr};
ghost use Rattle.dcc_commands.specs.declared.job.Product.TheVariants.{Text, Procedures, Listing};
ghost use Rattle.dcc_commands.specs.Words.{Make};
ghost use Rattle.dcc_io.specs.Count.{Rose};
ghost use Rattle.dcc_machine.specs.MzImage.{IsLoaded};
ghost use Rattle.dcc_pipe.specs.Decompiled.{IsTextOfImage};
ghost use Rattle.dcc_top.specs.Answer.{AllowsImage, IsListingOf, IsMadeOf};
ghost use Rattle.dcc_top.specs.Call.{shelf_change, sink_change, unread};
ghost use Rattle.dcc_top.specs.Causes.{Replies};
ghost use Rattle.dcc_top.specs.Delivery.{Answers, CutsShort};
ghost use Rattle.dcc_top.specs.Procedures.{AreProcedureLinesOf};

use crate::fetch::fetch_image;
use crate::procedures::procedure_lines;
use crate::reply::Reply;
use dcc_commands::Product;
use dcc_io::{Failed, Shelf, Sink, put_all};
use dcc_list::listing;
use dcc_machine::{Cpu, Image};
use dcc_pipe::{analyse, decompile};
use dcc_print::{PrintFault, print};
use dcc_rules::RuleList;
use std::alloc::Global;

// Writes the text of the image for the processor, made by these rules, or answers why there is none. The error is a
// failed write.
fn write_text<O: Sink>(
    alloc: Global,
    image: &Image,
    cpu: Cpu,
    rules: &RuleList,
    out: &mut O,
) -> Result<Reply, Failed>
    requires { IsLoaded image.now }
    ensures answers { IfOk result (Answers (AllowsImage Text cpu image.now) (O.taken out.old) (O.taken out.new)) }
    ensures cut_short { OnErr result (CutsShort (IsTextOfImage cpu image.now) (O.taken out.old) (O.taken out.new)) }
    ensures output_faults { O.faults out.old ≤ O.faults out.new }
    ensures write_failed { OnErr result (Rose (O.faults out.old) (O.faults out.new)) }
{
    let unit = match decompile(alloc, image, cpu, rules) {
        Ok(unit) => unit,
        Err(reason) => return Ok(Reply::from(reason)),
    };
    match print(alloc, out, &unit) {
        Ok(()) => Ok(Reply::Done),
        Err(PrintFault::Failed) => Err(Failed),
        Err(PrintFault::Memory) => Ok(Reply::Memory),
    }
}

// Writes the procedures of the image for the processor, or answers why they are not listed. The error is a failed
// write.
fn write_procedures<O: Sink>(
    alloc: Global,
    image: &Image,
    cpu: Cpu,
    out: &mut O,
) -> Result<Reply, Failed>
    requires { IsLoaded image.now }
    ensures answers { IfOk result
        (Answers (AllowsImage Procedures cpu image.now) (O.taken out.old) (O.taken out.new)) }
    ensures cut_short { OnErr result
        (CutsShort (AreProcedureLinesOf cpu image.now) (O.taken out.old) (O.taken out.new)) }
    ensures output_faults { O.faults out.old ≤ O.faults out.new }
    ensures write_failed { OnErr result (Rose (O.faults out.old) (O.faults out.new)) }
{
    let program = match analyse(alloc, image, cpu) {
        Ok(program) => program,
        Err(refusal) => return Ok(Reply::from(refusal)),
    };
    let Ok(lines) = procedure_lines(alloc, &program) else {
        return Ok(Reply::Memory);
    };
    match put_all(out, lines.as_bytes()) {
        Ok(()) => Ok(Reply::Done),
        Err(failed) => Err(failed),
    }
}

// Writes the listing of the image in assembler's words for the processor, or answers why there is none. The error is a
// failed write.
fn write_listing<O: Sink>(
    alloc: Global,
    image: &Image,
    cpu: Cpu,
    out: &mut O,
) -> Result<Reply, Failed>
    requires { IsLoaded image.now }
    ensures answers { IfOk result (Answers (AllowsImage Listing cpu image.now) (O.taken out.old) (O.taken out.new)) }
    ensures cut_short { OnErr result (CutsShort (IsListingOf cpu image.now) (O.taken out.old) (O.taken out.new)) }
    ensures output_faults { O.faults out.old ≤ O.faults out.new }
    ensures write_failed { OnErr result (Rose (O.faults out.old) (O.faults out.new)) }
{
    let program = match analyse(alloc, image, cpu) {
        Ok(program) => program,
        Err(refusal) => return Ok(Reply::from(refusal)),
    };
    let Ok(text) = listing(alloc, image, &program) else {
        return Ok(Reply::Memory);
    };
    match put_all(out, &text) {
        Ok(()) => Ok(Reply::Done),
        Err(failed) => Err(failed),
    }
}

// Writes what is asked for of the image for the processor, a text by these rules, or answers why there is none. The
// error is a failed write.
fn write_product<O: Sink>(
    alloc: Global,
    product: Product,
    image: &Image,
    cpu: Cpu,
    rules: &RuleList,
    out: &mut O,
) -> Result<Reply, Failed>
    requires { IsLoaded image.now }
    ensures answers { IfOk result (Answers (AllowsImage product cpu image.now) (O.taken out.old) (O.taken out.new)) }
    ensures cut_short { OnErr result (CutsShort (IsMadeOf product cpu image.now) (O.taken out.old) (O.taken out.new)) }
    ensures output_faults { O.faults out.old ≤ O.faults out.new }
    ensures write_failed { OnErr result (Rose (O.faults out.old) (O.faults out.new)) }
{
    match product {
        Product::Text => write_text(alloc, image, cpu, rules, out),
        Product::Procedures => write_procedures(alloc, image, cpu, out),
        Product::Listing => write_listing(alloc, image, cpu, out),
    }
}

/// Writes what is asked for of the executable of this name for the processor, a text by these rules, or answers why
/// there is none; whatever the input is, none of it is read. The error is a failed write.
pub(crate) fn make_reply<H: Shelf, O: Sink>(
    alloc: Global,
    product: Product,
    name: &str,
    cpu: Cpu,
    rules: &RuleList,
    shelf: &mut H,
    out: &mut O,
) -> Result<Reply, Failed>
    ensures { (left : Option (List ℕ)) (faults : ℕ) → Replies (Some (Make product name.now cpu))
        (shelf_change H.files H.asked H.absences H.faults shelf.old shelf.new)
        (unread left faults)
        (sink_change O.taken O.faults out.old out.new) result }
{
    match fetch_image(alloc, name, shelf) {
        Ok(image) => write_product(alloc, product, &image, cpu, rules, out),
        Err(reply) => Ok(reply),
    }
}
