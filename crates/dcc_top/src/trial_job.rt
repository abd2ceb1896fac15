//! The job of `trial`: the trial of a program made at random.

ghost use Rattle.std.specs.Prelude.{◌≤◌, IfOk, OnErr};
ghost use Rattle.dcc_commands.specs.Words.{IsSize};
ghost use Rattle.dcc_io.specs.Count.{Rose};
ghost use Rattle.dcc_top.specs.Answer.{AllowsTrial, TellsTrial};
ghost use Rattle.dcc_top.specs.Delivery.{Answers, CutsShort};

use crate::reply::Reply;
use dcc_commands::Attempt;
use dcc_io::{Failed, Sink, put_all};
use dcc_rules::RuleList;
use dcc_trial::{lines, trial};
use std::alloc::Global;

/// Writes the six lines of the trial, its text made by these rules, or answers why there is none. The error is a failed write.
pub(crate) fn write_trial<O: Sink>(
    alloc: Global,
    attempt: Attempt,
    rules: &RuleList,
    out: &mut O,
) -> Result<Reply, Failed>
    requires { IsSize attempt.size }
    ensures answers { IfOk result (Answers
        (AllowsTrial attempt.seed attempt.size attempt.steps)
        (O.taken out.old) (O.taken out.new)) }
    ensures cut_short { OnErr result (CutsShort
        (TellsTrial attempt.seed attempt.size attempt.steps)
        (O.taken out.old) (O.taken out.new)) }
    ensures output_faults { O.faults out.old ≤ O.faults out.new }
    ensures write_failed { OnErr result (Rose (O.faults out.old) (O.faults out.new)) }
{
    let Attempt { seed, size, steps } = attempt;
    let found = match trial(alloc, seed, size, steps, rules) {
        Ok(found) => found,
        Err(reason) => return Ok(Reply::from(reason)),
    };
    let Ok(text) = lines(alloc, &found) else {
        return Ok(Reply::Memory);
    };
    match put_all(out, text.as_bytes()) {
        Ok(()) => Ok(Reply::Done),
        Err(failed) => Err(failed),
    }
}
