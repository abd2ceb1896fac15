//! Texts at the limits of depth: 200 open parentheses, expressions 200 deep, 200 blocks around a statement. The answers
//! come from a reference reader apart from this parser.

use super::{AFTER, BEFORE, DEPTH, FITS, offence};
use std::alloc::{AllocError, Global};
use std::test::Fail;

// A statement with a part that is repeated: what stands before, the part and what closes it, what stands inside, what
// stands after, how often the part may be repeated, and the line of what is too deep.
type Nest = (
    &'static str,
    [&'static str; 2],
    &'static str,
    &'static str,
    u8,
    u32,
);

static NESTS: [Nest; 15] = [
    ("x = ", ["(", ")"], "1", ";", 200, 11),
    ("dos_putc(", ["(", ")"], "65", ");", 199, 11),
    ("if (", ["(", ")"], "1", ") { }", 199, 11),
    ("x = ", ["- ", ""], "1", ";", 199, 11),
    ("x =\n", ["1 + ", ""], "\n1", ";", 199, 12),
    ("x =\n", ["1 ? 2 : ", ""], "\n1", ";", 199, 12),
    ("x = ", ["(int)", ""], "1", ";", 199, 11),
    ("", ["if (x) { ", "}"], "\nx = 1;\n", "", 200, 12),
    ("", ["if (1) {\n", "}\n"], "x = 1;\n", "", 200, 212),
    ("", ["for (;;) { ", "}"], "\nbreak;\n", "", 200, 12),
    ("", ["while (x) { ", "}"], "\nL: ;\n", "", 200, 12),
    (
        "",
        ["if (x) { ", "}"],
        "\n#pragma dcc depth 4\n",
        "",
        200,
        12,
    ),
    ("", ["if (x) { } else { ", "}"], "\nx = 1;\n", "", 200, 12),
    (
        "",
        ["switch (x) { case 1: ", "break; }"],
        "\nx = 1;\n",
        "",
        200,
        12,
    ),
    (
        "",
        ["switch (x) { default: ", "break; }"],
        "\nx = 1;\n",
        "",
        200,
        12,
    ),
];

// Appends the part so many times.
fn push_times(text: &mut String, part: &str, count: usize) -> Result<(), AllocError> {
    for _ in 0..count {
        text.push_str(part)?;
    }
    Ok(())
}

// The statement with the part repeated so many times.
fn nested(alloc: Global, nest: &Nest, count: usize) -> Result<String, AllocError> {
    let (before, [opening, closing], inside, after, _, _) = nest;
    let mut text = String::from_str(alloc, before)?;
    push_times(&mut text, opening, count)?;
    text.push_str(inside)?;
    push_times(&mut text, closing, count)?;
    text.push_str(after)?;
    Ok(text)
}

#[test]
fn parts_may_be_nested_up_to_their_limits(rt: HostRuntime) -> Result<(), Fail> {
    let alloc = rt.alloc();
    for nest in &NESTS {
        let (_, _, _, _, most, line) = *nest;
        let most = usize::from(most);
        for (count, answer) in [(most, (0, FITS)), (most + 1, (line, DEPTH))] {
            let text = nested(alloc, nest, count)?;
            let told = offence(&rt, alloc, BEFORE, text.as_str(), AFTER)?;
            assert_eq!(rt; told, answer);
        }
    }
    Ok(())
}
