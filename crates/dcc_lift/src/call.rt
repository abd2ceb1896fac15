//! Calls.

ghost use Rattle.std.specs.Prelude.{◌≡◌, ◌≤◌, ◌<◌, ◌++◌, map, Some, option_map, IfOk, OnOk};
ghost use Rattle.std.specs.List.{range_with_len};
ghost use Rattle.dcc_prog.specs.Height.{greatest_height};
ghost use Rattle.dcc_ir.specs.Views.{expr_of};
ghost use Rattle.dcc_ops.specs.Writing.{written};
ghost use Rattle.dcc_simulation.specs.Statements as spec;
ghost use Rattle.dcc_simulation.specs.Procedures.{procedure_at};
ghost use Rattle.dcc_lift.specs.KnownProcedures.{procedure_of, shared_procedure_of, KnowsProcedure, KnowsShared};
ghost use Rattle.dcc_lift.specs.KnownProcedures.{KnowsProcedures};

use crate::passed::{passed, passed_values};
use crate::procedure::Procedure;
use dcc_ir::{Expr, Loc, Stmt};
use dcc_num::Width;
use dcc_ops::{Writer, returned_place};
use std::alloc::{AllocError, Global};

/// The procedure with that entry.
pub fn callee_of<'p, 'a>(procedures: &'p [Procedure<'a>], entry: u16) -> Option<&'p Procedure<'a>>
    requires { KnowsProcedures procedures.now }
    ensures callee { option_map shared_procedure_of result ≡ procedure_at (map procedure_of procedures.now) entry }
    ensures known { KnowsShared result }
{
    for procedure in procedures {
        if procedure.proc.entry == entry {
            return Some(procedure);
        }
    }
    None
}

// Where the caller has an argument word of its callee, at a height.
fn argument_offset(height: u16, number: u16) -> i32
    ensures { result ≡ spec.argument_offset height number }
{
    2 + 2 * i32::from(number) - i32::from(height)
}

impl Procedure<'_> {
    // The places of a call's results.
    fn results(&self, alloc: Global) -> Result<Vec<Loc>, AllocError>
        requires { KnowsProcedure self.now }
        ensures { IfOk result (λ results. results.items ≡ spec.results_of (procedure_of self.now)) }
    {
        let mut results = passed(alloc)?;
        for index in 0..2 * self.given_back.len() as u8 {
            results.push(returned_place(index))?;
        }
        Ok(results)
    }

    // The first `count` argument words of a call at a height.
    fn words(&self, writer: &Writer, height: u16, count: u16) -> Result<Vec<Expr>, AllocError>
        requires { KnowsProcedure self.now }
        ensures { IfOk result (λ words. map expr_of words.items
            ≡ map (spec.argument_value (procedure_of self.now) height) (range_with_len 0 count)) }
    {
        let mut words = Vec::new(writer.alloc);
        for number in 0..count {
            let first = argument_offset(height, number);
            let word = self.frame_place(Width::Word, first);
            words.push(writer.value(word)?)?;
        }
        Ok(words)
    }

    // What a call passes at a height.
    fn arguments(
        &self,
        writer: &Writer,
        height: u16,
        callee: &Procedure<'_>,
    ) -> Result<Vec<Expr>, AllocError>
        requires { KnowsProcedure self.now }
        ensures { IfOk result (λ arguments. map expr_of arguments.items
            ≡ spec.arguments_of (procedure_of self.now) height (procedure_of callee.now)) }
    {
        let mut arguments = self.words(writer, height, callee.frame.args)?;
        let mut others = passed_values(writer.alloc)?;
        arguments.append(&mut others)?;
        Ok(arguments)
    }

    // The bytes of an argument word take what the callee gave back for it, as the one of that index.
    fn take_back(
        &self,
        writer: &mut Writer,
        height: u16,
        index: u8,
        number: u16,
    ) -> Result<(), AllocError>
        requires procedure { KnowsProcedure self.now }
        requires index { index < 32 }
        ensures { OnOk result (written writer.new ≡ written writer.old
            ++ spec.taking_back (procedure_of self.now) height index number) }
    {
        let first = argument_offset(height, number);
        let low = self.frame_place(Width::Byte, first);
        writer.store(low, returned_place(2 * index))?;
        let high = self.frame_place(Width::Byte, first + 1);
        writer.store(high, returned_place(2 * index + 1))
    }

    /// Writes a CALL, at a height.
    pub fn write_call(
        &self,
        writer: &mut Writer,
        height: u16,
        callee: &Procedure<'_>,
    ) -> Result<(), AllocError>
        requires caller { KnowsProcedure self.now }
        requires callee { KnowsProcedure callee.now }
        requires height { height ≤ greatest_height }
        ensures { OnOk result (written writer.new ≡ written writer.old
            ++ spec.calling (procedure_of self.now) height (Some (procedure_of callee.now))) }
    {
        let results = callee.results(writer.alloc)?;
        let arguments = self.arguments(writer, height, callee)?;
        writer.stmts.push(Stmt::Call {
            results,
            entry: callee.proc.entry,
            arguments,
            depth: height + 2,
        })?;
        for index in 0..callee.given_back.len() {
            self.take_back(writer, height, index as u8, callee.given_back[index])?;
        }
        Ok(())
    }
}
