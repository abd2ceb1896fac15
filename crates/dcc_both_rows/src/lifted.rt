//! The texts of lifted programs: where their blocks begin, and the lines of their statements.

use dcc_c::{CStmt, Line, Unit};
use dcc_io::MemSink;
use dcc_machine::Cpu;
use dcc_mz::load;
use dcc_pipe::decompile;
use dcc_print::print;
use dcc_rules::RuleList;
use dcc_samples::files::{TWO_ENTRIES, program};
use std::alloc::{AllocError, Global};
use std::test::Fail;

// Adds 1 to 255, and ends with 1 where that carries, else with 0.
const CARRIES: &[u8] = b"\xB0\xFF\x04\x01\x72\x05\xB8\x00\x4C\xCD\x21\xB8\x01\x4C\xCD\x21";

/// The unit of the program of some code, by no rules.
pub(crate) fn decompiled(alloc: Global, code: &[u8]) -> Result<Unit, Fail> {
    let image = load(alloc, &program(alloc, code)?)?;
    let rules = RuleList::new(alloc);
    Ok(decompile(alloc, &image, Cpu::I8086, &rules)?)
}

// Appends the labels among some lines.
fn push_labels<'a>(labels: &mut Vec<(u32, &'a str)>, lines: &'a [Line]) -> Result<(), AllocError> {
    for line in lines {
        if let CStmt::Label(name) = &line.stmt {
            labels.push((line.line, name.as_str()))?;
        }
    }
    Ok(())
}

// The labels among some lines and on the first sides of the tests among them, each with its line.
fn labels(alloc: Global, lines: &[Line]) -> Result<Vec<(u32, &str)>, AllocError> {
    let mut labels = Vec::new(alloc);
    for line in lines {
        match &line.stmt {
            CStmt::Label(name) => labels.push((line.line, name.as_str()))?,
            CStmt::If(_, body, _) => push_labels(&mut labels, body)?,
            _ => {}
        }
    }
    Ok(labels)
}

#[test]
fn labels_stand_where_jumps_lead(rt: HostRuntime) -> Result<(), Fail> {
    let alloc = rt.alloc();
    let unit = decompiled(alloc, TWO_ENTRIES)?;
    assert_eq!(&rt; unit.funcs.len(), 1);
    let labels = labels(alloc, &unit.funcs[0].body)?;
    // The loop is entered past the addition before it, and from there.
    assert_eq!(&rt; labels.len(), 1);
    assert_eq!(&rt; labels[0].1, "L_000e");
    Ok(())
}

#[test]
fn lines_are_those_of_the_printed_text(rt: HostRuntime) -> Result<(), Fail> {
    let alloc = rt.alloc();
    let unit = decompiled(alloc, TWO_ENTRIES)?;
    let mut sink = MemSink::new(alloc, Vec::new(alloc), 1_000_000);
    assert_eq!(&rt; print(alloc, &mut sink, &unit), Ok(()));
    let text = String::from_utf8_lossy(alloc, sink.taken())?;
    assert_eq!(&rt; unit.funcs.len(), 1);
    let start = &unit.funcs[0];
    for (line, label) in labels(alloc, &start.body)? {
        let written = format!(in alloc; "{label}:")?;
        assert!(&rt; line > 0);
        assert_eq!(&rt;
            text.split('\n').nth(line as usize - 1),
            Some(written.as_str())
        );
    }
    // The brace that ends the function stands in its last line, the last of the text.
    assert!(&rt; start.last > 0);
    assert_eq!(&rt; text.split('\n').nth(start.last as usize - 1), Some("}"));
    assert_eq!(&rt; text.split('\n').nth(start.last as usize), Some(""));
    Ok(())
}

#[test]
fn values_that_are_read_once_have_no_variables(rt: HostRuntime) -> Result<(), Fail> {
    let alloc = rt.alloc();
    let unit = decompiled(alloc, CARRIES)?;
    assert_eq!(&rt; unit.globals.len(), 0);
    assert_eq!(&rt; unit.funcs.len(), 1);
    // Values stand where they are read, those of AL and of the carry too.
    assert!(&rt; unit.funcs[0].locals.is_empty());
    Ok(())
}
