//! What the program answers: a status, and a line on the error stream.

ghost use Rattle.std.specs.Prelude.{◌≡◌, Some, IfOk, IsOk, string_bytes};
ghost use Rattle.dcc_top.specs.Answer.{status_of, line_of, limit_word, foul_word, listing_word, shelf_reply};
ghost use Rattle.dcc_top.specs.Answer.{fault_reply};
ghost use Rattle.dcc_top.specs.Answer.{parse_reply, listing_reply, refusal_reply, reason_reply, no_trial_reply};

use dcc_asm::{ListFault, ListKind};
use dcc_io::ShelfFault;
use dcc_mz::MzFault;
use dcc_parse::{ParseFault, ParseKind};
use dcc_pipe::NoText;
use dcc_prog::{ConstructKind, FoulKind, LimitName, Refusal};
use dcc_trial::NoTrial;
use std::alloc::{AllocError, Global};
use std::fmt;

/// An answer of the program.
#[derive(Clone, Copy, PartialEq, Eq, Debug)]
pub enum Reply {
    /// What is made of the executable is written, or the bytes of the listing, or the lines of the trial.
    Done,
    /// The run ended with this exit code.
    Exited(u8),
    /// The words are no command.
    Usage,
    /// There is no file of that name.
    NoFile,
    /// The file could not be read.
    FileFault,
    /// A read of the input failed.
    InputFault,
    /// Memory ran out.
    Memory,
    /// The file has no load image.
    Format(MzFault),
    /// A construct of this kind, for which nothing is written, stands at the offset in the code segment.
    Construct {
        kind: ConstructKind,
        at: u16,
    },
    /// This count of the program is above its greatest number.
    Limit {
        what: LimitName,
        count: u32,
    },
    /// The text of the procedure with this entry, an offset in the code segment, lacks the shape that it should have.
    NotYet(u16),
    /// The text is refused for what offends first, in this line.
    TextFault {
        line: u32,
        kind: ParseKind,
    },
    /// The listing is refused for what offends first, in this line.
    ListingFault {
        line: u32,
        kind: ListKind,
    },
    /// The run goes on after this number of steps.
    Unfinished(u64),
    /// The run ended by a divide fault.
    Divided,
    /// The run came to what is no instruction of the machine, at this offset in the code segment.
    Outside(u16),
    /// The watched run stopped before the step at the offset `at` in the code segment, which isn't clean; `address` is
    /// the first byte of which this is so, by its offset in the data segment.
    Foul {
        at: u16,
        address: u16,
        kind: FoulKind,
    },
    /// The run of the text came to where it has no step, in this line.
    Stuck(u32),
}

impl From<ShelfFault> for Reply {
    ghost from_gives = { λ fault reply. reply ≡ shelf_reply fault };

    fn from(fault: ShelfFault) -> Reply {
        match fault {
            ShelfFault::Absent => Reply::NoFile,
            ShelfFault::Failed => Reply::FileFault,
            ShelfFault::Memory => Reply::Memory,
        }
    }
}

impl From<MzFault> for Reply {
    ghost from_gives = { λ fault reply. reply ≡ fault_reply fault };

    fn from(fault: MzFault) -> Reply {
        match fault {
            MzFault::Memory => Reply::Memory,
            _ => Reply::Format(fault),
        }
    }
}

impl From<ParseFault> for Reply {
    ghost from_gives = { λ fault reply. reply ≡ parse_reply fault };

    fn from(fault: ParseFault) -> Reply {
        match fault {
            ParseFault::At { line, kind } => Reply::TextFault { line, kind },
            ParseFault::Memory => Reply::Memory,
        }
    }
}

impl From<ListFault> for Reply {
    ghost from_gives = { λ fault reply. reply ≡ listing_reply fault };

    fn from(fault: ListFault) -> Reply {
        match fault {
            ListFault::At { line, kind } => Reply::ListingFault { line, kind },
            ListFault::Memory => Reply::Memory,
        }
    }
}

impl From<Refusal> for Reply {
    ghost from_gives = { λ refusal reply. reply ≡ refusal_reply refusal };

    fn from(refusal: Refusal) -> Reply {
        match refusal {
            Refusal::Construct { kind, at } => Reply::Construct { kind, at },
            Refusal::Limit { what, count } => Reply::Limit { what, count },
            Refusal::Memory => Reply::Memory,
        }
    }
}

impl From<NoText> for Reply {
    ghost from_gives = { λ reason reply. reply ≡ reason_reply reason };

    fn from(reason: NoText) -> Reply {
        match reason {
            NoText::Refused(refusal) => Reply::from(refusal),
            NoText::NotYet { at } => Reply::NotYet(at),
        }
    }
}

impl From<NoTrial> for Reply {
    ghost from_gives = { λ reason reply. reply ≡ no_trial_reply reason };

    fn from(reason: NoTrial) -> Reply {
        match reason {
            NoTrial::Format(fault) => Reply::from(fault),
            NoTrial::Refused(why) => Reply::from(why),
            NoTrial::Outside(at) => Reply::Outside(at),
            NoTrial::Memory => Reply::Memory,
        }
    }
}

impl Reply {
    /// The exit status of the program.
    pub fn status(&self) -> u8
        ensures { result ≡ status_of self.now }
    {
        match self {
            Reply::Done | Reply::Exited(_) => 0,
            Reply::Usage => 2,
            Reply::NoFile => 3,
            Reply::FileFault => 4,
            Reply::InputFault => 5,
            Reply::Memory => 7,
            Reply::Format(_) => 8,
            Reply::Construct { .. } => 9,
            Reply::Limit { .. } => 10,
            Reply::TextFault { .. } => 11,
            Reply::NotYet(_) => 12,
            Reply::Unfinished(_) => 20,
            Reply::Divided => 21,
            Reply::Outside(_) => 22,
            Reply::Foul { .. } => 23,
            Reply::Stuck(_) => 24,
            Reply::ListingFault { .. } => 25,
        }
    }

    /// The line on the error stream. There is none where what is made is written, and no memory is taken then.
    pub fn line(&self, alloc: Global) -> Result<String, AllocError>
        ensures line { IfOk result (λ line. string_bytes line ≡ line_of self.now) }
        ensures done { self.now ≡ Reply.Done → IsOk result }
    {
        match self {
            Reply::Done => Ok(String::new(alloc)),
            _ => format!(in alloc; "{self}"),
        }
    }
}

impl fmt::Display for Reply {
    ghost output = { λ reply. Some (line_of reply) };

    fn fmt<W: fmt::Write>(&self, f: &mut fmt::Formatter<W>) -> fmt::Result {
        match *self {
            Reply::Done => Ok(()),
            Reply::Exited(code) => writeln!(f, "exit {code}"),
            Reply::Usage => writeln!(f, "dcc: usage"),
            Reply::NoFile => writeln!(f, "dcc: no file"),
            Reply::FileFault => writeln!(f, "dcc: file fault"),
            Reply::InputFault => writeln!(f, "dcc: input fault"),
            Reply::Memory => writeln!(f, "dcc: memory"),
            Reply::Format(fault) => {
                let number = fault.number();
                let place = fault.place();
                writeln!(f, "dcc: format {number} at {place}")
            }
            Reply::Construct { kind, at } => {
                let told = kind.number();
                writeln!(f, "dcc: construct {told} at {at:04X}")
            }
            Reply::Limit { what, count } => {
                let name = limit_word(what);
                writeln!(f, "dcc: limit {name} {count}")
            }
            Reply::NotYet(at) => writeln!(f, "dcc: not yet at {at:04X}"),
            Reply::TextFault { line, kind } => {
                let word = kind.word();
                writeln!(f, "dcc: text {word} at line {line}")
            }
            Reply::ListingFault { line, kind } => {
                let word = listing_word(kind);
                writeln!(f, "dcc: listing {word} at line {line}")
            }
            Reply::Unfinished(steps) => writeln!(f, "running after {steps} steps"),
            Reply::Divided => writeln!(f, "divide"),
            Reply::Outside(at) => writeln!(f, "outside at {at:04X}"),
            Reply::Foul { at, address, kind } => {
                let word = foul_word(kind);
                writeln!(f, "foul at {at:04X}: {word} {address:04X}")
            }
            Reply::Stuck(line) => writeln!(f, "stuck at line {line}"),
        }
    }
}

// The name of a count.
fn limit_word(what: LimitName) -> &'static str
    ensures { result.now ≡ limit_word what }
{
    match what {
        LimitName::Procedures => "procedures",
        LimitName::Instructions => "instructions",
        LimitName::Total => "total",
        LimitName::Cells => "cells",
        LimitName::Entries => "entries",
        LimitName::Arguments => "arguments",
    }
}

// The word for the way in which a step is foul.
fn foul_word(kind: FoulKind) -> &'static str
    ensures { result.now ≡ foul_word kind }
{
    match kind {
        FoulKind::Low => "low",
        FoulKind::Hidden => "hidden",
        FoulKind::Unwritten => "unwritten",
    }
}

// The word for the way in which a line of a listing offends.
fn listing_word(kind: ListKind) -> &'static str
    ensures { result.now ≡ listing_word kind }
{
    match kind {
        ListKind::Length => "length",
        ListKind::Head => "head",
        ListKind::Word => "word",
        ListKind::Range => "range",
        ListKind::Odd => "odd",
        ListKind::Place => "place",
    }
}
