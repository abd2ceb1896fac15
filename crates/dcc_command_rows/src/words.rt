//! Words and their jobs. The values come from a reference reader apart from this one.

use dcc_commands::{Attempt, Execution, Job, Product, TextExecution, job_of};
use dcc_machine::Cpu;
use std::alloc::{AllocError, Global};
use std::test::Fail;

/// The words of a line, which stand between its spaces.
fn words_of(alloc: Global, line: &str) -> Result<Vec<String>, AllocError> {
    let mut words = Vec::new(alloc);
    for word in line.split(' ') {
        words.push(String::from_str(alloc, word)?)?;
    }
    Ok(words)
}

fn make(product: Product, file: &str, cpu: Cpu) -> Option<Job<'_>> {
    Some(Job::Make { product, file, cpu })
}

fn c(file: &str, cpu: Cpu) -> Option<Job<'_>> {
    make(Product::Text, file, cpu)
}

fn procs(file: &str, cpu: Cpu) -> Option<Job<'_>> {
    make(Product::Procedures, file, cpu)
}

fn list(file: &str, cpu: Cpu) -> Option<Job<'_>> {
    make(Product::Listing, file, cpu)
}

fn trial(seed: u64, size: u16, steps: u64) -> Option<Job<'static>> {
    Some(Job::Try(Attempt { seed, size, steps }))
}

fn run_on(file: &str, steps: u64, cpu: Cpu) -> Option<Job<'_>> {
    Some(Job::Execute(Execution { file, steps, cpu }))
}

fn run(file: &str, steps: u64) -> Option<Job<'_>> {
    run_on(file, steps, Cpu::I8086)
}

fn watch_on(file: &str, steps: u64, cpu: Cpu) -> Option<Job<'_>> {
    Some(Job::ExecuteWatched(Execution { file, steps, cpu }))
}

fn runc(file: &str, steps: u64, fill: u16) -> Option<Job<'_>> {
    Some(Job::ExecuteText(TextExecution { file, steps, fill }))
}

fn asm(file: &str) -> Option<Job<'_>> {
    Some(Job::Assemble(file))
}

#[test]
fn commands_have_a_job(rt: HostRuntime) -> Result<(), Fail> {
    let rows = [
        ("c a", c("a", Cpu::I8086)),
        ("c ", c("", Cpu::I8086)),
        ("c -", c("-", Cpu::I8086)),
        ("c -- -F", c("-F", Cpu::I8086)),
        ("c -- --", c("--", Cpu::I8086)),
        ("c a --cpu 8086", c("a", Cpu::I8086)),
        ("c --cpu 186 a", c("a", Cpu::I186)),
        ("c --cpu=186 -- --cpu", c("--cpu", Cpu::I186)),
        ("procs F", procs("F", Cpu::I8086)),
        ("procs --cpu=186 -- -F", procs("-F", Cpu::I186)),
        ("list F", list("F", Cpu::I8086)),
        ("list --cpu 186 F", list("F", Cpu::I186)),
        ("trial 0 1 0", trial(0, 1, 0)),
        ("trial 7 400 100000", trial(7, 400, 100_000)),
        ("trial -- 7 1000 1000000000", trial(7, 1_000, 1_000_000_000)),
        ("trial 7 -- 0001 0000000000", trial(7, 1, 0)),
        (
            "trial 18446744073709551615 1 1",
            trial(18_446_744_073_709_551_615, 1, 1),
        ),
        ("trial 00000000000000000007 1 1 --", trial(7, 1, 1)),
        ("run F", run("F", 1_000_000)),
        ("run -", run("-", 1_000_000)),
        ("run a --", run("a", 1_000_000)),
        ("run -- --steps", run("--steps", 1_000_000)),
        ("run --steps 7 F", run("F", 7)),
        ("run F --steps 7", run("F", 7)),
        ("run --steps=7 -- F", run("F", 7)),
        ("run F --steps 0", run("F", 0)),
        ("run F --steps 0000000007", run("F", 7)),
        ("run F --steps 1000000000", run("F", 1_000_000_000)),
        ("run F --cpu 186", run_on("F", 1_000_000, Cpu::I186)),
        ("run --cpu=8086 F --steps 7", run("F", 7)),
        ("run --steps=7 --cpu 186 F", run_on("F", 7, Cpu::I186)),
        ("watch F", watch_on("F", 1_000_000, Cpu::I8086)),
        (
            "watch --steps=7 --cpu 186 -- -F",
            watch_on("-F", 7, Cpu::I186),
        ),
        ("runc F", runc("F", 1_000_000, 0)),
        ("runc -- --fill", runc("--fill", 1_000_000, 0)),
        ("runc F --fill 65535", runc("F", 1_000_000, 65_535)),
        ("runc --fill=00007 F", runc("F", 1_000_000, 7)),
        ("runc F --fill 0 --steps 7", runc("F", 7, 0)),
        ("runc --steps=0 F --fill=1", runc("F", 0, 1)),
        ("asm F", asm("F")),
        ("asm -", asm("-")),
        ("asm -- --cpu", asm("--cpu")),
    ];
    for (line, job) in rows {
        let words = words_of(rt.alloc(), line)?;
        assert_eq!(rt; job_of(&words), job, "{line}");
    }
    Ok(())
}

// Words that are no command.
static OTHER_WORDS: [&str; 86] = [
    "",
    "help",
    "--help",
    "C a",
    "c",
    "c a b",
    "c -F",
    "c F --steps 1",
    "c --steps=1 F",
    "procs",
    "procs a b",
    "procs F --steps 1",
    "procs F --cpu 8088",
    "run",
    "run  ",
    "run -x",
    "run a b",
    "run a -- b",
    "run -- a b",
    "run --step 1 F",
    "run F --steps",
    "run F --steps=",
    "run F --steps --",
    "run F --steps -- 7",
    "run F --steps +7",
    "run --steps=1=2 F",
    "run F --steps 1000000001",
    "run F --steps 00000000007",
    "run a --steps 1 --steps 2",
    "run a --steps 1 --steps=1",
    "run F --fill 1",
    "c F --fill 1",
    "watch",
    "watch a b",
    "watch F --fill 1",
    "watch F --steps 1000000001",
    "watch F --cpu 286",
    "runc",
    "runc a b",
    "runc F --fill",
    "runc F --fill -1",
    "runc F --fill 65536",
    "runc F --fill 000007",
    "runc F --fill 1 --fill 1",
    "runc F --fills 1",
    "c F --cpu",
    "c F --cpu 286",
    "c F --cpu=",
    "c F --cpu 0186",
    "c F --cpu 80186",
    "c --cpu 186 --cpu=186 F",
    "run F --cpu 286",
    "run F --cpu 8086 --cpu 8086",
    "run --cpu 186",
    "runc F --cpu 186",
    "runc --cpu=8086 F",
    "list",
    "list a b",
    "list a b c",
    "list F --steps 1",
    "list F --fill 1",
    "list F --cpu 80186",
    "list -F",
    "asm",
    "asm a b",
    "asm a b c",
    "asm -F",
    "asm F --steps 1",
    "asm F --fill=1",
    "asm F --cpu 186",
    "trial",
    "trial 7",
    "trial 7 1",
    "trial 7 1 1 1",
    "trial -- 7 1 1 1",
    "trial 7 0 1",
    "trial 7 0000 1",
    "trial 7 1001 1",
    "trial 7 00001 1",
    "trial 7 1 1000000001",
    "trial 7 1 00000000001",
    "trial 18446744073709551616 1 1",
    "trial 000000000000000000007 1 1",
    "trial x 1 1",
    "trial 7 1 1 --steps 1",
    "trial 7 1 1 --cpu 8086",
];

#[test]
fn other_words_are_no_command(rt: HostRuntime) -> Result<(), Fail> {
    assert_eq!(rt; job_of(&[]), None);
    for line in &OTHER_WORDS {
        let words = words_of(rt.alloc(), line)?;
        assert_eq!(rt; job_of(&words), None, "{line}");
    }
    Ok(())
}
