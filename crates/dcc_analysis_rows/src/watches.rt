//! Steps and runs of the watch. The values come from a reference watch apart from this one.

use crate::procedures::image_of;
use dcc_io::{MemSink, MemSource};
use dcc_machine::Cpu;
use dcc_pipe::analyse;
use dcc_step::Stepped;
use dcc_watch::{FoulKind, Watch, Watched};
use std::test::Fail;

// The processor, the code, the output, and how the run comes out.
type WatchRow = (Cpu, &'static [u8], &'static [u8], Watched);

static WATCHED: [WatchRow; 3] = [
    // A byte of a frame is stored and printed.
    (
        Cpu::I186,
        b"\xE8\x05\x00\xB8\x00\x4C\xCD\x21\xC8\x02\x00\x00\xC6\x46\xFE\x2A\x8A\x56\xFE\xB4\x02\xCD\x21\xC9\xC3",
        b"*",
        Watched::Clean(Stepped::Exit(0)),
    ),
    // A byte of a frame is read before it is stored.
    (
        Cpu::I8086,
        b"\x55\x8B\xEC\x83\xEC\x02\x8A\x56\xFE\xB4\x02\xCD\x21\xB8\x00\x4C\xCD\x21",
        b"",
        Watched::Foul {
            at: 0x000B,
            address: 0x00FC,
            kind: FoulKind::Unwritten,
        },
    ),
    // A procedure calls itself without end.
    (
        Cpu::I8086,
        b"\xE8\x05\x00\xB8\x00\x4C\xCD\x21\x50\xE8\xFC\xFF\x59\xC3",
        b"",
        Watched::Foul {
            at: 0x000E,
            address: 0xFFFE,
            kind: FoulKind::Low,
        },
    ),
];

fn watched_runs() -> &'static [WatchRow] {
    &WATCHED
}

#[test]
fn runs_stop_before_a_foul_step_and_answer_it_again(rt: HostRuntime) -> Result<(), Fail> {
    let alloc = rt.alloc();
    for (cpu, code, output, answer) in watched_runs() {
        let image = image_of(&rt, alloc, code)?;
        let program = analyse(alloc, &image, *cpu)?;
        let mut watch = Watch::new(alloc, &image, &program)?;
        let mut input = MemSource::new(Vec::new(alloc), Vec::new(alloc), 1);
        let mut out = MemSink::new(alloc, Vec::new(alloc), 1);
        let first = watch.step(&mut input, &mut out);
        assert_eq!(rt; first, Watched::Clean(Stepped::Running));
        let ended = watch.run(&mut input, &mut out, 1_000);
        assert_eq!(rt; ended, *answer);
        let again = watch.step(&mut input, &mut out);
        assert_eq!(rt; again, *answer);
        assert_eq!(rt; out.taken().as_slice(), *output);
    }
    Ok(())
}
