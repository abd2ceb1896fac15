//! The real outside: a file of the working folder, and the standard streams. What the system does
//! with them isn't proved, so these objects tell nothing of content; they count what went wrong.

ghost use Rattle.std.specs.Prelude.{◌≡◌, [], None, vec_len};
ghost use Rattle.std.specs.Io.{WritesAtMost};
ghost use Rattle.dcc_io.specs.Fetch.{KeepsWithin};
ghost use Rattle.dcc_io.specs.Memory.{requests_of};

use crate::outside::{Failed, Fetch, Fetched, Shelf, ShelfFault, Sink, Source};
use std::alloc::Global;
use std::fs::Files;
use std::io::{ErrorKind, Read, Stderr, Stdin, Stdout, Write};
use std::{fs, io};

/// The files of the working folder.
#[derive(Drop)]
pub struct DirShelf<R: Files> {
    files: R,
    asked: Vec<(String, usize)>,
    absences: u64,
    faults: u64,
}

impl<R: Files> DirShelf<R> {
    /// The files that this runtime reaches.
    pub fn new(alloc: Global, files: R) -> DirShelf<R>
        ensures untold { ⟦<DirShelf<R> as Shelf>⟧.files result ≡ None }
        ensures asked { ⟦<DirShelf<R> as Shelf>⟧.asked result ≡ [] }
        ensures absences { ⟦<DirShelf<R> as Shelf>⟧.absences result ≡ 0 }
        ensures faults { ⟦<DirShelf<R> as Shelf>⟧.faults result ≡ 0 }
    {
        DirShelf {
            files,
            asked: Vec::new(alloc),
            absences: 0,
            faults: 0,
        }
    }
}

impl<R: Files> Shelf for DirShelf<R> {
    ghost files = { λ _. None };

    ghost asked = { λ s. requests_of s.asked.items };

    ghost absences = { λ s. s.absences };

    ghost faults = { λ s. s.faults };

    fn fetch(&mut self, alloc: Global, name: &str, most: usize, into: &mut Vec<u8>) -> Fetch {
        let requested = String::from_str(alloc, name)?;
        self.asked.push((requested, most))?;
        let result = read_file(&self.files, name, most, into);
        match result {
            Err(ShelfFault::Absent) => self.absences = self.absences.saturating_add(1),
            Err(ShelfFault::Failed) => self.faults = self.faults.saturating_add(1),
            _ => {}
        }
        result
    }
}

// The length of the pieces in which a file is read.
const PIECE: usize = 4096;

// Reads a file, at most one byte past the first `most`, and keeps no more than these.
fn read_file<R: Files>(files: &R, name: &str, most: usize, into: &mut Vec<u8>) -> Fetch
    requires { vec_len into.old ≡ 0 }
    ensures { KeepsWithin most result into.new.items }
{
    let mut file = match fs::open(files, name) {
        Ok(file) => file,
        Err(error) if error.kind() == ErrorKind::NotFound => return Err(ShelfFault::Absent),
        Err(_) => return Err(ShelfFault::Failed),
    };
    let mut piece = [0; PIECE];
    loop {
        let room = most - into.len();
        let count = match file.read(&mut piece[..room.min(PIECE - 1) + 1]) {
            Ok(0) => return Ok(Fetched::Whole),
            Ok(count) => count,
            Err(_) => return Err(ShelfFault::Failed),
        };
        if count > room {
            into.extend_from_slice(&piece[..room])?;
            return Ok(Fetched::Longer);
        }
        into.extend_from_slice(&piece[..count])?;
    }
}

/// Standard input.
#[derive(Drop)]
pub struct StdSource {
    input: Stdin,
    faults: u64,
}

impl StdSource {
    /// Standard input, of which no read has failed yet.
    pub fn new(input: Stdin) -> StdSource
        ensures untold { ⟦<StdSource as Source>⟧.left result ≡ None }
        ensures faults { ⟦<StdSource as Source>⟧.faults result ≡ 0 }
    {
        StdSource { input, faults: 0 }
    }
}

impl Source for StdSource {
    ghost left = { λ _. None };

    ghost faults = { λ s. s.faults };

    #[tactic(auto, unfolding(crate::specs::Told::prepend_told))]
    fn read(&mut self, buf: &mut [u8]) -> Result<usize, Failed> {
        match self.input.read(buf) {
            Ok(count) => Ok(count),
            Err(_) => {
                self.faults = self.faults.saturating_add(1);
                Err(Failed)
            }
        }
    }
}

/// One of the two output streams.
#[derive(Drop)]
pub enum Stream {
    /// Standard output.
    Output(Stdout),
    /// Standard error.
    Error(Stderr),
}

/// Standard output or standard error, flushed after each write.
#[derive(Drop)]
pub struct StdSink {
    stream: Stream,
    faults: u64,
}

impl StdSink {
    /// An output stream of which no write has failed yet.
    pub fn new(stream: Stream) -> StdSink
        ensures untold { ⟦<StdSink as Sink>⟧.taken result ≡ None }
        ensures faults { ⟦<StdSink as Sink>⟧.faults result ≡ 0 }
    {
        StdSink { stream, faults: 0 }
    }
}

impl Sink for StdSink {
    ghost taken = { λ _. None };

    ghost faults = { λ s. s.faults };

    #[tactic(auto, unfolding(crate::specs::Told::append_told))]
    fn write(&mut self, piece: &[u8]) -> Result<usize, Failed> {
        let written = match &mut self.stream {
            Stream::Output(output) => write_flushed(output, piece),
            Stream::Error(error) => write_flushed(error, piece),
        };
        match written {
            Ok(count) if count > 0 || piece.is_empty() => Ok(count),
            _ => {
                self.faults = self.faults.saturating_add(1);
                Err(Failed)
            }
        }
    }
}

// Writes some of the piece, and flushes.
fn write_flushed<W: Write>(writer: &mut W, piece: &[u8]) -> io::Result<usize>
    ensures { WritesAtMost result piece.now }
{
    let count = writer.write(piece)?;
    writer.flush()?;
    Ok(count)
}
