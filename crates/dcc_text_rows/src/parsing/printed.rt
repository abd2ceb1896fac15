//! Texts that are read and printed. What is printed comes from a reference writer apart from this project.

use dcc_c::Unit;
use dcc_io::MemSink;
use dcc_parse::parse;
use dcc_print::print;
use std::alloc::Global;
use std::process::Abort;
use std::test::Fail;

// A text with lines as a person might write them.
const GIVEN: &str = "#pragma dcc text 1


#pragma dcc stack 0 256
#pragma dcc at 256
unsigned char a[4] = {1, 2}; int g;
void start(void) { int x; int *p;
  p = &g;
#pragma dcc depth 6
  x = f(3, p);
  switch (x) { case 1: case 0x2: break; default: x = x ? 1 : 2; break; }
again:
  do { x = x - 1; if (x == 2) { continue; } } while (x > 0);
  dos_putc((unsigned char)65); goto again; }
int f(register int i, int *s)
{ int n[2]; auto int m; m = *s; *(n + 1) = (i + 1) * m;
  if (*(n + 1) > 0x10) { return (*(n + 1)); } else { g = g + 1; }
return -i; }
";

// What is printed of it.
const WRITTEN: &str = "#pragma dcc text 1
#pragma dcc stack 0 256
#pragma dcc at 256
unsigned char a[4] = {1, 2};
int g;
void start(void)
{
    int x;
    int *p;
    p = &g;
#pragma dcc depth 6
    x = f(3, p);
    switch (x) {
        case 1:
        case 2:
        break;
        default:
        x = x ? 1 : 2;
        break;
    }
again:
    do {
        x = x - 1;
        if (x == 2) {
            continue;
        }
    } while (x > 0);
    dos_putc((unsigned char)65);
    goto again;
}
int f(register int i, int *s)
{
    auto int n[2];
    auto int m;
    m = *s;
    *(n + 1) = (i + 1) * m;
    if (*(n + 1) > 16) {
        return *(n + 1);
    } else {
        g = g + 1;
    }
    return -i;
}
";

// Global variables, of which one stands where the one before ends, parameters and local variables.
const DECLARATIONS: &str = "#pragma dcc text 1
#pragma dcc stack 256 512
#pragma dcc at 16
unsigned char g_0010[4] = {1, 2};
unsigned int g_0014 = 5;
#pragma dcc at 32
signed char *g_0020;
void start(void)
{
}
unsigned long *f_0012(register int p1, auto long p2)
{
    auto unsigned char v1[3];
    int v2;
}
";

// Depths: before the labels of their calls, and in force after their blocks.
const DEPTHS: &str = "#pragma dcc text 1
#pragma dcc stack 0 256
void start(void)
{
    int v1;
    f();
#pragma dcc depth 4
L_0001:
L_0002:
    v1 = h(v1, 2);
    f();
L_0003:
    v1 = 1;
#pragma dcc depth 2
    f();
    if (v1) {
#pragma dcc depth 4
        f();
    } else {
#pragma dcc depth 6
        f();
    }
    f();
    switch (v1) {
        case 1:
#pragma dcc depth 8
        f();
        break;
        default:
        f();
        break;
    }
#pragma dcc depth 2
    f();
}
void f(void)
{
}
int h(int p1, int p2)
{
}
";

// Lines are indented by 16 blocks at most.
const NESTED: &str = "#pragma dcc text 1
#pragma dcc stack 0 256
void start(void)
{
    for (;;) {
        for (;;) {
            for (;;) {
                for (;;) {
                    for (;;) {
                        for (;;) {
                            for (;;) {
                                for (;;) {
                                    for (;;) {
                                        for (;;) {
                                            for (;;) {
                                                for (;;) {
                                                    for (;;) {
                                                        for (;;) {
                                                            for (;;) {
                                                                for (;;) {
                                                                for (;;) {
                                                                for (;;) {
                                                                break;
                                                                }
                                                                }
                                                                }
                                                            }
                                                        }
                                                    }
                                                }
                                            }
                                        }
                                    }
                                }
                            }
                        }
                    }
                }
            }
        }
    }
}
";

// The first suffix that gives a number its type; operators, and operands that are expressions.
const EXPRESSIONS: &str = "#pragma dcc text 1
#pragma dcc stack 0 256
void start(void)
{
    int v1;
    unsigned char *v5;
    auto unsigned char v6;
    long v4;
    v4 = 32767;
    v4 = 65535U;
    v4 = 32767L;
    v4 = 32768;
    v4 = 65535UL;
    v4 = 65536U;
    v4 = 2147483648;
    v1 = v1 || 1;
    v1 = v1 && 1;
    v1 = v1 | 1;
    v1 = v1 ^ 1;
    v1 = v1 & 1;
    v1 = v1 == 1;
    v1 = v1 != 1;
    v1 = v1 < 1;
    v1 = v1 <= 1;
    v1 = v1 > 1;
    v1 = v1 >= 1;
    v1 = v1 << 1;
    v1 = v1 >> 1;
    v1 = v1 + 1;
    v1 = v1 - 1;
    v1 = v1 * 1;
    v1 = v1 / 1;
    v1 = v1 % 1;
    v1 = -(-v1);
    v1 = -(v1 + 1);
    v1 = ~-v1;
    v1 = !v1;
    v5 = &v6;
    *v5 = (unsigned char)(v1 + 1);
    v5 = (unsigned char *)v1;
    v1 = (v1 ? 1 : 2) ? (v1 + 1) : v1;
    v1 = (v1 + 1) * (v1 ? 1 : 2);
}
";

// Statements with blocks; the default arm stands last.
const STATEMENTS: &str = "#pragma dcc text 1
#pragma dcc stack 0 256
void start(void)
{
    int v1;
    if (v1) {
        v1 = 1;
    }
    if (v1) {
        ;
    } else {
        v1 = 2;
    }
    while (v1) {
        break;
    }
    do {
        continue;
    } while (v1);
    for (;;) {
        goto L_0001;
    }
L_0001:
    v1 = f();
    return;
}
int f(void)
{
    int v1;
    switch (v1) {
        case 1:
        case 65535:
        v1 = 3;
        break;
        case 2:
        break;
        default:
        return 0;
        break;
    }
    return v1 + 1;
}
";

// The lines of the last statement and the last brace of a unit.
fn last_lines(unit: &Unit) -> Option<(u32, u32)> {
    let function = unit.funcs.last()?;
    let line = function.body.last()?;
    Some((line.line, function.last))
}

// The unit of the first text is printed as the second, also where each write takes few bytes.
fn is_printed_as(rt: &impl Abort, alloc: Global, text: &str, want: &str) -> Result<Unit, Fail> {
    let unit = parse(alloc, &text.as_bytes().to_vec(alloc)?)?;
    for most in [1_000_000, 8] {
        let mut sink = MemSink::new(alloc, Vec::new(alloc), most);
        print(alloc, &mut sink, &unit)?;
        assert_eq!(rt; sink.taken().as_slice(), want.as_bytes());
    }
    Ok(unit)
}

#[test]
fn what_is_printed_is_read_again(rt: HostRuntime) -> Result<(), Fail> {
    for (text, lines) in [(GIVEN, (18, 18)), (WRITTEN, (42, 43))] {
        let unit = is_printed_as(&rt, rt.alloc(), text, WRITTEN)?;
        assert_eq!(rt; last_lines(&unit), Some(lines));
    }
    Ok(())
}

#[test]
fn a_written_form_is_printed_as_it_stands(rt: HostRuntime) -> Result<(), Fail> {
    for text in [DECLARATIONS, DEPTHS, NESTED, EXPRESSIONS, STATEMENTS] {
        is_printed_as(&rt, rt.alloc(), text, text)?;
    }
    Ok(())
}
