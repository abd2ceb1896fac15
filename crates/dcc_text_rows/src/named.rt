//! Texts whose accesses to memory are written by the names of their global variables.

use dcc_io::MemSink;
use dcc_named::named;
use dcc_parse::parse;
use dcc_print::print;
use std::alloc::Global;
use std::process::Abort;
use std::test::Fail;

// Scalars at 16, 18 and 20, arrays of 6 bytes at 32 and of 4 bytes at 38, and one at 1, which no sum names.
const BEFORE: &str = "#pragma dcc text 1
#pragma dcc stack 8192 12288
#pragma dcc at 1
unsigned char d_0001[4];
#pragma dcc at 16
unsigned char g_0010; unsigned char g_0011;
unsigned int g_0012; int g_0014;
#pragma dcc at 32
unsigned char d_0020[6]; unsigned char d_0026[4];
#pragma dcc at 40000
unsigned char d_9c40[25000];
void start(void)
{
unsigned int u; unsigned char c; unsigned char *p;
";

const AFTER: &str = "
}
unsigned int f(unsigned int a)
{
";

const END: &str = "
}
";

// A statement of `start`, and the same one with its accesses by names.
static STATEMENTS: [(&str, &str); 33] = [
    ("c = *(unsigned char *)16;", "c = g_0010;"),
    ("u = *(unsigned int *)18;", "u = g_0012;"),
    ("*(unsigned int *)18U = u;", "g_0012 = u;"),
    (
        "*(unsigned char *)17 = *(unsigned char *)16 + 1;",
        "g_0011 = g_0010 + 1;",
    ),
    // Another size, another type, and a gap.
    ("u = *(unsigned int *)16;", "u = *(unsigned int *)16;"),
    ("c = *(unsigned char *)18;", "c = *(unsigned char *)18;"),
    ("u = *(unsigned int *)20;", "u = *(unsigned int *)20;"),
    ("c = *(unsigned char *)22;", "c = *(unsigned char *)22;"),
    // Bytes of arrays.
    ("c = *(unsigned char *)32;", "c = *(d_0020 + 0);"),
    ("c = *(unsigned char *)37;", "c = *(d_0020 + 5);"),
    ("c = *(unsigned char *)38;", "c = *(d_0026 + 0);"),
    ("c = *(unsigned char *)42;", "c = *(unsigned char *)42;"),
    ("u = *(unsigned int *)32;", "u = *(unsigned int *)d_0020;"),
    (
        "*(unsigned int *)36 = u;",
        "*(unsigned int *)(d_0020 + 4) = u;",
    ),
    ("u = *(unsigned int *)37;", "u = *(unsigned int *)37;"),
    ("u = *(int *)38;", "u = *(int *)d_0026;"),
    ("c = *(unsigned char *)64999U;", "c = *(d_9c40 + 24999);"),
    (
        "c = *(unsigned char *)65000U;",
        "c = *(unsigned char *)65000U;",
    ),
    (
        "c = *(unsigned char *)(long)32;",
        "c = *(unsigned char *)(long)32;",
    ),
    // Arrays that begin at a number in an address.
    ("c = *(unsigned char *)(u + 32);", "c = *(d_0020 + u);"),
    (
        "u = *(unsigned int *)(u + 38);",
        "u = *(unsigned int *)(d_0026 + u);",
    ),
    ("*(unsigned char *)(u + 40000U) = c;", "*(d_9c40 + u) = c;"),
    ("*(unsigned char *)(u - 25536) = c;", "*(d_9c40 + u) = c;"),
    (
        "c = *(unsigned char *)(u + 33);",
        "c = *(unsigned char *)(u + 33);",
    ),
    (
        "c = *(unsigned char *)(u + 16);",
        "c = *(unsigned char *)(u + 16);",
    ),
    (
        "c = *(unsigned char *)(u + 1);",
        "c = *(unsigned char *)(u + 1);",
    ),
    (
        "c = *(unsigned char *)(p + 32);",
        "c = *(unsigned char *)(p + 32);",
    ),
    (
        "c = *(unsigned char *)(*(unsigned int *)18 * 2 + 32);",
        "c = *(d_0020 + g_0012 * 2);",
    ),
    // Whole statements.
    (
        "if (*(unsigned char *)16) { while (*(unsigned char *)17) { dos_putc(*(unsigned char *)16); } }",
        "if (g_0010) { while (g_0011) { dos_putc(g_0010); } }",
    ),
    (
        "for (;;) { switch (*(unsigned int *)18) { case 1: *(unsigned char *)16 = dos_getch(); break; } }",
        "for (;;) { switch (g_0012) { case 1: g_0010 = dos_getch(); break; } }",
    ),
    (
        "*(unsigned int *)18 = f(*(unsigned int *)18);",
        "g_0012 = f(g_0012);",
    ),
    // Texts that are written out.
    ("dos_puts(32);", "dos_puts((unsigned int)d_0020);"),
    ("dos_puts(33); dos_putc(32);", "dos_puts(33); dos_putc(32);"),
];

// The written form of the text with this statement of `start` and this one of `f`, as it is or by names.
fn written(alloc: Global, statement: &str, of: &str, by_names: bool) -> Result<MemSink, Fail> {
    let mut text = BEFORE.as_bytes().to_vec(alloc)?;
    for part in [statement, AFTER, of, END] {
        text.extend_from_slice(part.as_bytes())?;
    }
    let mut unit = parse(alloc, &text)?;
    if by_names {
        unit = named(alloc, &unit)?;
    }
    let mut sink = MemSink::new(alloc, Vec::new(alloc), 1);
    print(alloc, &mut sink, &unit)?;
    Ok(sink)
}

#[test]
fn accesses_have_names(rt: HostRuntime) -> Result<(), Fail> {
    let alloc = rt.alloc();
    for (given, wanted) in &STATEMENTS {
        let after = written(alloc, given, "return 0U;", true)?;
        let wanted = written(alloc, wanted, "return 0U;", false)?;
        assert_eq!(rt;
            after.taken().as_slice(),
            wanted.taken().as_slice(),
            "{given}"
        );
    }
    let after = written(
        alloc,
        ";",
        "return *(unsigned int *)18 + *(unsigned char *)(a + 32);",
        true,
    )?;
    let wanted = written(alloc, ";", "return g_0012 + *(d_0020 + a);", false)?;
    assert_eq!(rt; after.taken().as_slice(), wanted.taken().as_slice());
    Ok(())
}
