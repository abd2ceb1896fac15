//! The lines of a trial.

ghost use Rattle.std.specs.Prelude.{Some, IfOk, string_bytes};
ghost use Rattle.std.specs.Bool.{Decides};
ghost use Rattle.dcc_run.specs.Prefix.{IsPrefix};
ghost use Rattle.dcc_trial.specs.Lines.{ending_words, side_words, TellsPrefix, AreLinesOf};

use crate::found::{Ending, Side, Trial};
use std::alloc::{AllocError, Global};
use std::fmt;

impl fmt::Display for Ending {
    ghost output = { λ ending. Some (ending_words ending) };

    fn fmt<W: fmt::Write>(&self, f: &mut fmt::Formatter<W>) -> fmt::Result {
        match *self {
            Ending::Running => write!(f, "running"),
            Ending::Exit(code) => write!(f, "exit {code}"),
            Ending::Divide => write!(f, "divide"),
        }
    }
}

impl fmt::Display for Side {
    ghost output = { λ side. Some (side_words side) };

    fn fmt<W: fmt::Write>(&self, f: &mut fmt::Formatter<W>) -> fmt::Result {
        let bytes = self.output.len();
        let ending = self.ending;
        write!(f, "{bytes} {ending}")
    }
}

// Whether the bytes begin with others.
fn begins_with(bytes: &[u8], front: &[u8]) -> bool
    ensures { Decides result (IsPrefix front.now bytes.now) }
{
    bytes.starts_with(front)
}

// Whether one of two outputs is a prefix of the other, in a word.
fn prefix_word(output: &[u8], other: &[u8]) -> &'static str
    ensures { TellsPrefix output.now other.now result.now }
{
    if begins_with(other, output) {
        return "yes";
    }
    if begins_with(output, other) {
        return "yes";
    }
    "no"
}

/// The six lines that tell what a trial has found.
pub fn lines(alloc: Global, trial: &Trial) -> Result<String, AllocError>
    ensures { IfOk result (λ lines. AreLinesOf trial.now (string_bytes lines)) }
{
    let Trial {
        file,
        procedures,
        text,
        machine,
        text_run,
    } = trial;
    let word = prefix_word(&machine.output, &text_run.output);
    let head = format!(in alloc; "file {file}\nprocedures {procedures}\ntext {text}\n")?;
    format!(in alloc; "{head}machine {machine}\nc {text_run}\nprefix {word}\n")
}
