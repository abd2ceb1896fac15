//! Texts without the casts that nothing needs.

use dcc_casts::without_casts;
use dcc_io::MemSink;
use dcc_parse::parse;
use dcc_print::print;
use std::alloc::Global;
use std::process::Abort;
use std::test::Fail;

const BEFORE: &str = "#pragma dcc text 1
#pragma dcc stack 8192 12288
#pragma dcc at 256
unsigned char g;
void start(void)
{
int i; unsigned int u; unsigned char c; long y; unsigned char *p;
";

const AFTER: &str = "
}
unsigned char f(unsigned char a, int b, int *q)
{
";

const END: &str = "
}
";

// A statement of `start`, and the same one without needless casts.
static STATEMENTS: [(&str, &str); 21] = [
    ("c = (unsigned char)(u >> 8);", "c = u >> 8;"),
    ("g = (unsigned char)(int)(i + (int)c);", "g = i + c;"),
    (
        "u = ((unsigned int)g << 8) | (unsigned int)c;",
        "u = (g << 8) | c;",
    ),
    ("u = (unsigned int)(i / 2);", "u = i / 2;"),
    ("u = (unsigned int)(u / 2);", "u = u / 2;"),
    ("u = (unsigned int)i / 2;", "u = (unsigned int)i / 2;"),
    ("u = (unsigned char)i;", "u = (unsigned char)i;"),
    (
        "u = (unsigned int)(unsigned char)i;",
        "u = (unsigned char)i;",
    ),
    ("y = (long)(int)u;", "y = (int)u;"),
    ("y = -(long)u;", "y = -(long)u;"),
    ("c = -(unsigned char)i;", "c = -i;"),
    ("c = !(unsigned char)i;", "c = !(unsigned char)i;"),
    (
        "c = (unsigned char)i > 3 ? (unsigned char)u : (unsigned char)i;",
        "c = (unsigned char)i > 3 ? u : i;",
    ),
    (
        "if ((unsigned char)(unsigned int)i) { c = (unsigned char)i; }",
        "if ((unsigned char)i) { c = i; }",
    ),
    (
        "while (i) { do { c = (unsigned char)i; } while ((int)(u - 1)); }",
        "while (i) { do { c = i; } while ((int)(u - 1)); }",
    ),
    (
        "for (;;) { switch ((unsigned int)i) { case 1: c = (unsigned char)i; break; default: c = (unsigned char)u; break; } }",
        "for (;;) { switch (i) { case 1: c = i; break; default: c = u; break; } }",
    ),
    (
        "switch ((unsigned int)c) { case 1: break; }",
        "switch (c) { case 1: break; }",
    ),
    (
        "switch ((unsigned int)y) { case 1: break; }",
        "switch ((unsigned int)y) { case 1: break; }",
    ),
    (
        "*(unsigned char *)(u + (unsigned int)4) = (unsigned char)i;",
        "*(unsigned char *)(u + 4) = i;",
    ),
    (
        "p = (unsigned char *)(unsigned int)i;",
        "p = (unsigned char *)i;",
    ),
    (
        "c = f((unsigned char)u, (int)c, (int *)(unsigned int)i);",
        "c = f(u, c, (int *)i);",
    ),
];

// A result of `f`, and the same one without needless casts.
static RESULTS: [(&str, &str); 2] = [
    ("return (unsigned char)(b - (int)a);", "return b - a;"),
    (
        "return *(unsigned char *)(int *)q;",
        "return *(unsigned char *)(int *)q;",
    ),
];

// The written form of the text with this statement of `start` and this `return` of `f`, as it is or without casts.
fn written(alloc: Global, statement: &str, returned: &str, without: bool) -> Result<MemSink, Fail> {
    let mut text = BEFORE.as_bytes().to_vec(alloc)?;
    for part in [statement, AFTER, returned, END] {
        text.extend_from_slice(part.as_bytes())?;
    }
    let mut unit = parse(alloc, &text)?;
    if without {
        unit = without_casts(alloc, &unit)?;
    }
    let mut sink = MemSink::new(alloc, Vec::new(alloc), 1);
    print(alloc, &mut sink, &unit)?;
    Ok(sink)
}

#[test]
fn casts_go_where_low_bits_count(rt: HostRuntime) -> Result<(), Fail> {
    let alloc = rt.alloc();
    for (given, wanted) in &STATEMENTS {
        let after = written(alloc, given, "", true)?;
        let wanted = written(alloc, wanted, "", false)?;
        assert_eq!(rt;
            after.taken().as_slice(),
            wanted.taken().as_slice(),
            "{given}"
        );
    }
    for (given, wanted) in &RESULTS {
        let after = written(alloc, "", given, true)?;
        let wanted = written(alloc, "", wanted, false)?;
        assert_eq!(rt;
            after.taken().as_slice(),
            wanted.taken().as_slice(),
            "{given}"
        );
    }
    Ok(())
}
