//! Texts and their runs.

use dcc_samples::files::{Answer, Faults, NO_FAULTS, answered, answered_on};
use std::alloc::{AllocError, Global};
use std::process::Abort;
use std::test::Fail;

// The text with these lines in its function.
fn text(alloc: Global, lines: &[&str]) -> Result<String, AllocError> {
    let head = "#pragma dcc text 1\n#pragma dcc stack 0 256\nvoid start(void)\n{\n";
    let mut text = String::from_str(alloc, head)?;
    for line in lines {
        write!(text, "    {line}\n")?;
    }
    text.push_str("}\n")?;
    Ok(text)
}

// The call must answer this status, this output and this line.
fn check(rt: &impl Abort, given: &Answer, status: u8, output: &[u8], line: &str) {
    assert_eq!(rt; given.err.as_slice(), line.as_bytes());
    assert_eq!(rt; given.out.as_slice(), output, "{line}");
    assert_eq!(rt; given.status, status, "{line}");
}

// The lines of a function, the output, the status and the line on the error stream.
type TextRow = (&'static [&'static str], &'static [u8], u8, &'static str);

static TEXTS: [TextRow; 9] = [
    (&["dos_putc(65);", "dos_exit(3);"], b"A", 0, "exit 3\n"),
    (&[], b"", 24, "stuck at line 5\n"),
    (&["dos_putc(65);", "return;"], b"A", 24, "stuck at line 6\n"),
    (&["dos_exit(1 / (1 - 1));"], b"", 21, "divide\n"),
    // A variable before it has a value holds the fill, 7.
    (&["unsigned int a;", "dos_exit(a);"], b"", 0, "exit 7\n"),
    (
        &["dos_putc(x);", "dos_exit(3);"],
        b"",
        11,
        "dcc: text name at line 5\n",
    ),
    (
        &["dos_putc(65;", "dos_exit(3);"],
        b"",
        11,
        "dcc: text grammar at line 5\n",
    ),
    (
        &["dos_putc(65);", "dos_exit(@);"],
        b"",
        11,
        "dcc: text token at line 6\n",
    ),
    (
        &["dos_putc();", "dos_exit(3);"],
        b"",
        11,
        "dcc: text type at line 5\n",
    ),
];

fn texts() -> &'static [TextRow] {
    &TEXTS
}

#[test]
fn texts_run_or_are_refused(rt: HostRuntime) -> Result<(), Fail> {
    let alloc = rt.alloc();
    for (lines, output, status, line) in texts() {
        let text = text(alloc, lines)?;
        let words = ["runc", "ROW1.EXE", "--fill=7"];
        let given = answered(alloc, &words, text.as_bytes(), NO_FAULTS)?;
        check(&rt, &given, *status, output, line);
    }
    Ok(())
}

#[test]
fn another_version_is_refused(rt: HostRuntime) -> Result<(), Fail> {
    let alloc = rt.alloc();
    let text = b"#pragma dcc text 3\n#pragma dcc stack 0 256\nvoid start(void)\n{\n}\n";
    let given = answered(alloc, &["runc", "ROW1.EXE"], text, NO_FAULTS)?;
    check(&rt, &given, 11, b"", "dcc: text version at line 1\n");
    Ok(())
}

// A part so many times, what stands inside, and another part as often.
fn nested(
    alloc: Global,
    count: usize,
    opening: &str,
    inside: &str,
    closing: &str,
) -> Result<String, AllocError> {
    let mut text = String::new(alloc);
    for _ in 0..count {
        text.push_str(opening)?;
    }
    text.push_str(inside)?;
    for _ in 0..count {
        text.push_str(closing)?;
    }
    Ok(text)
}

#[test]
fn a_deep_expression_is_refused(rt: HostRuntime) -> Result<(), Fail> {
    let alloc = rt.alloc();
    // 65 inside so many pairs of parentheses, those of the call among them.
    for (pairs, output, status, line) in [
        (200, b"A".as_slice(), 0, "exit 3\n"),
        (201, b"".as_slice(), 11, "dcc: text depth at line 5\n"),
        (202, b"".as_slice(), 11, "dcc: text depth at line 5\n"),
    ] {
        let argument = nested(alloc, pairs, "(", "65", ")")?;
        let call = format!(in alloc; "dos_putc{argument};")?;
        let text = text(alloc, &[call.as_str(), "dos_exit(3);"])?;
        let given = answered(alloc, &["runc", "ROW1.EXE"], text.as_bytes(), NO_FAULTS)?;
        check(&rt, &given, status, output, line);
    }
    Ok(())
}

#[test]
fn a_statement_in_too_many_blocks_is_refused(rt: HostRuntime) -> Result<(), Fail> {
    let alloc = rt.alloc();
    // The call inside so many blocks, each opened in a line of its own.
    for (blocks, output, status, line) in [
        (200, b"A".as_slice(), 0, "exit 3\n"),
        (201, b"".as_slice(), 11, "dcc: text depth at line 206\n"),
    ] {
        let call = nested(alloc, blocks, "if (1) {\n", "dos_putc(65);\n", "}\n")?;
        let text = text(alloc, &[call.as_str(), "dos_exit(3);"])?;
        let given = answered(alloc, &["runc", "ROW1.EXE"], text.as_bytes(), NO_FAULTS)?;
        check(&rt, &given, status, output, line);
    }
    Ok(())
}

#[test]
fn a_run_of_a_text_stops_after_its_steps(rt: HostRuntime) -> Result<(), Fail> {
    let alloc = rt.alloc();
    let text = text(alloc, &["for (;;) {", "}"])?;
    let words = ["runc", "ROW1.EXE", "--steps", "1000"];
    let given = answered(alloc, &words, text.as_bytes(), NO_FAULTS)?;
    check(&rt, &given, 20, b"", "running after 1000 steps\n");
    Ok(())
}

#[test]
fn a_fault_of_the_streams_ends_a_text(rt: HostRuntime) -> Result<(), Fail> {
    let alloc = rt.alloc();
    let words = ["runc", "ROW1.EXE"];
    let text = text(alloc, &["dos_getche();", "dos_getche();", "dos_exit(0);"])?;
    let text = text.as_bytes();
    let second_read = Faults {
        read: 2,
        ..NO_FAULTS
    };
    let given = answered_on(alloc, &words, text, b"ab", second_read)?;
    check(&rt, &given, 5, b"a", "dcc: input fault\n");
    let second_write = Faults {
        out: 2,
        ..NO_FAULTS
    };
    let given = answered_on(alloc, &words, text, b"ab", second_write)?;
    check(&rt, &given, 6, b"a", "");
    let given = answered_on(alloc, &words, text, b"ab", NO_FAULTS)?;
    check(&rt, &given, 0, b"ab", "exit 0\n");
    Ok(())
}
