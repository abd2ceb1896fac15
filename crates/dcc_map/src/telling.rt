//! The lines of a report.

ghost use Rattle.std.specs.Prelude.{◌≡◌, ◌++◌, IfOk, OnOk};
ghost use Rattle.std.specs.List.{flat_map};
ghost use Rattle.dcc_map.specs.Lines.{end_words, pair_line, report_lines};

use crate::report::{End, Pair, Report};
use dcc_spelled::push_word;
use std::alloc::{AllocError, Global};

// Adds a text to lines.
fn push_text(lines: &mut Vec<u8>, text: &str) -> Result<(), AllocError>
    ensures { OnOk result (lines.new.items ≡ lines.old.items ++ text.now) }
{
    lines.extend_from_slice(text.as_bytes())
}

// Adds how a run has ended.
fn push_end(alloc: Global, lines: &mut Vec<u8>, end: End) -> Result<(), AllocError>
    ensures { OnOk result (lines.new.items ≡ lines.old.items ++ end_words end) }
{
    match end {
        End::Running => push_text(lines, "running"),
        End::Exit(code) => push_text(lines, &format!(in alloc; "exit {code}")?),
        End::Divide => push_text(lines, "divide"),
        End::Outside(at) => {
            push_text(lines, "outside ")?;
            push_word(lines, at)
        }
        End::Stuck(line) => push_text(lines, &format!(in alloc; "stuck {line}")?),
    }
}

// Adds the line of a pair.
fn push_pair(alloc: Global, lines: &mut Vec<u8>, pair: &Pair) -> Result<(), AllocError>
    ensures { OnOk result (lines.new.items ≡ lines.old.items ++ pair_line pair.now) }
{
    let Pair { line, at, count } = pair;
    push_text(lines, &format!(in alloc; "{line} ")?)?;
    push_word(lines, *at)?;
    push_text(lines, &format!(in alloc; " {count}\n")?)
}

// Adds the lines of pairs.
fn push_pairs(alloc: Global, lines: &mut Vec<u8>, pairs: &[Pair]) -> Result<(), AllocError>
    ensures { OnOk result (lines.new.items ≡ lines.old.items ++ flat_map pair_line pairs.now) }
{
    for pair in pairs {
        push_pair(alloc, lines, pair)?;
    }
    Ok(())
}

/// The lines of a report: how many bytes were written, each line with each offset and how often, and both ends.
pub fn lines(alloc: Global, report: &Report) -> Result<Vec<u8>, AllocError>
    ensures { IfOk result (λ lines. lines.items ≡ report_lines report.now) }
{
    let bytes = report.bytes;
    let mut lines = Vec::new(alloc);
    push_text(&mut lines, &format!(in alloc; "bytes {bytes}\n")?)?;
    push_pairs(alloc, &mut lines, &report.pairs)?;
    push_text(&mut lines, "machine ")?;
    push_end(alloc, &mut lines, report.machine)?;
    push_text(&mut lines, "\nc ")?;
    push_end(alloc, &mut lines, report.text)?;
    push_text(&mut lines, "\n")?;
    Ok(lines)
}
