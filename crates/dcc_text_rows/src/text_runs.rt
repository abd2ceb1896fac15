//! Small texts that are run, with what a reference apart from this interpreter gives.

use dcc_c::Unit;
use dcc_crun::{CRun, CStepped};
use dcc_io::{MemSink, MemSource};
use dcc_parse::parse;
use std::alloc::Global;
use std::test::Fail;

/// The lines before the statements of `start`, which begin in line 6.
pub(crate) const BEFORE: &str = "#pragma dcc text 1
#pragma dcc stack 8192 12288
void start(void)
{
int i;
";

// What stands after them: a function that gives the product of its arguments, or calls itself with a smaller one.
const AFTER: &str = "
}
int f(signed char a, auto int b)
{
auto int r;
if (b > 3) {
#pragma dcc depth 6
r = f(a, b - 1);
return r;
}
return a * b;
}
";

const COUNT: &str = "i = 65; while (i < 68) { dos_putc(i); i = i + 1; } dos_exit(3);";

const JUMPS: &str = "i = 0;
for (;;) { i = i + 1; if (i == 2) { continue; } if (i == 5) { break; } dos_putc(i + 48); }
goto inside;
for (;;) { dos_putc(88); inside: dos_putc(89); goto out; }
out: dos_exit(7);";

const FIRST_ARM: &str = "switch (2) { case 1: case 2: dos_putc(65); break;
case 65535: if (1) { break; } dos_putc(66); break; default: dos_putc(67); break; } dos_exit(0);";

const ARM_LEFT: &str = "switch (-1) { case 1: case 2: dos_putc(65); break;
case 65535: if (1) { break; } dos_putc(66); break; default: dos_putc(67); break; } dos_exit(0);";

const LAST_ARM: &str = "switch (3) { case 1: case 2: dos_putc(65); break;
case 65535: if (1) { break; } dos_putc(66); break; default: dos_putc(67); break; } dos_exit(0);";

const NO_ARM: &str = "switch (3) { case 1: case 2: dos_putc(65); break;
case 65535: if (1) { break; } dos_putc(66); break; } dos_exit(0);";

const CALLS: &str = "#pragma dcc depth 6
i = f(277, 5);
#pragma dcc depth 2
dos_putc(i);
return;";

const KEYS: &str = "i = dos_getche(); dos_getch(); i = dos_getche(); i = 1 / (i - 26);";

// Statements of `start`, the input, what is written, and how the run ends.
static RUNS: [(&str, &[u8], &[u8], CStepped); 8] = [
    (COUNT, b"", b"ABC", CStepped::Exit(3)),
    (JUMPS, b"", b"134Y", CStepped::Exit(7)),
    (FIRST_ARM, b"", b"A", CStepped::Exit(0)),
    (ARM_LEFT, b"", b"", CStepped::Exit(0)),
    (LAST_ARM, b"", b"C", CStepped::Exit(0)),
    (NO_ARM, b"", b"", CStepped::Exit(0)),
    (CALLS, b"", b"?", CStepped::Stuck(10)),
    (KEYS, b"xy", b"x", CStepped::Divide),
];

// The unit of a text with these statements.
fn unit(alloc: Global, statements: &str) -> Result<Unit, Fail> {
    let mut text = BEFORE.as_bytes().to_vec(alloc)?;
    text.extend_from_slice(statements.as_bytes())?;
    text.extend_from_slice(AFTER.as_bytes())?;
    Ok(parse(alloc, &text)?)
}

#[test]
fn texts_run_to_their_ends(rt: HostRuntime) -> Result<(), Fail> {
    let alloc = rt.alloc();
    for (statements, input, out, answer) in &RUNS {
        let mut run = CRun::new(alloc, &unit(alloc, statements)?, 0x1234)?;
        let mut source = MemSource::new(input.to_vec(alloc)?, Vec::new(alloc), 1);
        let mut sink = MemSink::new(alloc, Vec::new(alloc), 1);
        assert_eq!(rt;
            run.run(alloc, &mut source, &mut sink, 100),
            *answer,
            "{statements}"
        );
        assert_eq!(rt; sink.taken().as_slice(), *out, "{statements}");
    }
    Ok(())
}

#[test]
fn faults_leave_the_run_as_it_was(rt: HostRuntime) -> Result<(), Fail> {
    let alloc = rt.alloc();
    let unit = unit(alloc, "i = dos_getche(); dos_putc(i); dos_exit(1);")?;
    let mut run = CRun::new(alloc, &unit, 0)?;
    let mut source = MemSource::new(b"ab".to_vec(alloc)?, vec![in alloc; 1]?, 1);
    let mut sink = MemSink::new(alloc, vec![in alloc; 1, 3]?, 1);
    // The read fails; then the key is taken, and its echo fails: the next step takes the next key.
    for answer in [
        CStepped::InFault,
        CStepped::OutFault,
        CStepped::Running,
        CStepped::OutFault,
    ] {
        assert_eq!(rt; run.step(alloc, &mut source, &mut sink), answer);
    }
    let end = run.run(alloc, &mut source, &mut sink, 9);
    assert_eq!(rt; end, CStepped::Exit(1));
    assert_eq!(rt; run.step(alloc, &mut source, &mut sink), CStepped::Exit(1));
    assert_eq!(rt; sink.taken().as_slice(), b"bb".as_slice());
    Ok(())
}
