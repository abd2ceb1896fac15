//! States of a run, and what single statements do.

ghost use Rattle.std.specs.Prelude.{◌≡◌, ℕ, ◌/◌, ◌%◌, ◌^◌, ◌-◌, ◌<◌, OnOk, IfOk, map, option_map, slice_set};
ghost use Rattle.dcc_run.specs.Event.{writes};
ghost use Rattle.dcc_ir.specs.Value.{with_bytes_at, division_of};
ghost use Rattle.dcc_ir.specs.Dos.{dos_string};
ghost use Rattle.dcc_ir.specs.Views.{expr_of, stmt_of};
ghost use Rattle.dcc_ir.specs.Plain.{event_of, scene_of, state_of};
ghost use Rattle.dcc_ir.specs.Run as inner;

use super::scene::{Held, View, bits_at, byte_at, value_of};
use super::values::division;
use crate::syntax::{Block, Expr, Graph, Loc, Stmt};
use dcc_num::dos;
use std::alloc::{AllocError, AllocFailed, Global};

/// How a run ends; a run that goes on is `Running`.
#[derive(Clone, Copy, PartialEq, Eq, Debug)]
pub enum End {
    Running,
    /// With this exit code.
    Exit(u32),
    /// By a division that faults.
    Divide,
    /// In the graph with this entry, where the program has no further step.
    Stuck(u16),
}

/// What happens at the console.
#[derive(Clone, Copy, PartialEq, Eq, Debug)]
pub enum Event {
    /// This byte is written.
    Wrote(u8),
    /// This byte of the input is taken.
    Took(u8),
    /// A byte is asked for, and the input has ended.
    MetEnd,
}

/// Why a step is not made.
#[derive(Clone, Copy, PartialEq, Eq, Debug)]
pub enum Refused {
    /// Memory ran out.
    Memory,
    /// A number has more than 32 bits, or a byte more than 8.
    Wide,
    /// The program has no graph.
    Empty,
}

impl From<AllocError> for Refused {
    fn from(_: AllocError) -> Self {
        Refused::Memory
    }
}

impl<T: Drop> From<AllocFailed<T>> for Refused {
    fn from(_: AllocFailed<T>) -> Self {
        Refused::Memory
    }
}

/// A call of a graph: where it stands, and what it has of its own.
#[derive(Drop)]
pub struct Activation<'p> {
    pub graph: &'p Graph,
    pub block: Option<&'p Block>,
    /// The statements of the block that are still to be executed.
    pub rest: &'p [Stmt],
    /// Whether the block is about to begin.
    pub begins: bool,
    /// The locations that have taken values, the latest last.
    pub held: Vec<Held>,
    pub base: u16,
}

/// An activation that waits for its callee.
#[derive(Drop)]
pub struct Waiting<'p> {
    pub caller: Activation<'p>,
    /// The places of the results.
    pub results: &'p [Loc],
}

/// The state of a run.
#[derive(Drop)]
pub struct PlainRun<'p> {
    pub running: Activation<'p>,
    /// The innermost last.
    pub waiting: Vec<Waiting<'p>>,
    /// 65,536 bytes.
    pub memory: Vec<u8>,
    pub input: Vec<u8>,
    /// How many bytes of the input are read.
    pub taken: usize,
    /// The oldest first.
    pub events: Vec<Event>,
    pub end: End,
    /// What locations hold that have taken no value.
    pub fill: u16,
}

// A byte is stored at an address, which wraps.
fn store_byte(memory: &mut [u8], address: u32, byte: u8)
    ensures { memory.new ≡ slice_set memory.old (address % 65536) byte }
{
    let index = (address % 65_536) as usize;
    if index < memory.len() {
        memory[index] = byte;
    }
}

/// A number of so many bits is stored at an address, low byte first.
pub fn store(memory: &mut [u8], width: u8, address: u32, n: u32) -> Result<(), Refused>
    ensures { OnOk result (memory.new ≡ with_bytes_at memory.old (width / 8) address n) }
{
    if address >= 0x8000_0000 {
        return Err(Refused::Wide);
    }
    match width {
        8 => store_byte(memory, address, (n % 256) as u8),
        16 => store_word(memory, address, n),
        32 => {
            store_word(memory, address, n);
            store_word(memory, address + 2, n / 0x1_0000);
        }
        _ => return Err(Refused::Wide),
    }
    Ok(())
}

// The lower 16 bits of a number are stored at an address.
fn store_word(memory: &mut [u8], address: u32, n: u32)
    requires { address < 2 ^ 32 - 1 }
    ensures { memory.new ≡ with_bytes_at memory.old 2 address n }
{
    store_byte(memory, address, (n % 256) as u8);
    store_byte(memory, address + 1, (n / 256 % 256) as u8);
}

// The bytes from an address on up to the first `$`, at most 65,536.
#[tactic(auto, unfolding(crate::specs::Dos::dos_string))]
fn string_at(alloc: Global, memory: &[u8], address: u32) -> Result<Vec<u8>, Refused>
    ensures { IfOk result (λ string. string.items ≡ dos_string memory.now address) }
{
    if address >= 0x8000_0000 {
        return Err(Refused::Wide);
    }
    let string = (0..dos::STRING_MOST)
        .map(|k| byte_at(memory, address + k))
        .take_while(|byte| *byte != dos::STRING_END)
        .collect(alloc)?;
    Ok(string)
}

// These bytes, written.
fn written(alloc: Global, bytes: &[u8]) -> Result<Vec<Event>, Refused>
    ensures { IfOk result (λ events. map event_of events.items ≡ writes bytes.now) }
{
    let mut events = Vec::new(alloc);
    for byte in bytes {
        events.push(Event::Wrote(*byte))?;
    }
    Ok(events)
}

impl<'p> PlainRun<'p> {
    /// The value of an expression in the running activation.
    pub fn value(&self, e: &Expr) -> Result<u32, Refused>
        ensures { IfOk result (λ n. n ≡ inner.value_in (state_of self.now) (expr_of e.now)) }
    {
        let view = View {
            bits: &self.running.graph.bits,
            held: &self.running.held,
            fill: self.fill,
            base: self.running.base,
            memory: &self.memory,
        };
        value_of(&view, e).ok_or(Refused::Wide)
    }

    /// A location of the running activation takes a value.
    pub fn set(&mut self, at: Loc, bits: u32) -> Result<(), Refused>
        ensures after { OnOk result (state_of self.new ≡ inner.setting at bits (state_of self.old)) }
        ensures fill { self.new.fill ≡ self.old.fill }
    {
        self.running.held.push(Held { at, bits })?;
        Ok(())
    }

    /// The run has no further step.
    pub fn stop(&mut self)
        ensures after { state_of self.new ≡ inner.stuck (state_of self.old) }
        ensures fill { self.new.fill ≡ self.old.fill }
    {
        self.end = End::Stuck(self.running.graph.entry);
    }

    // The value of a division, or none where it faults.
    fn division(&self, e: &Expr) -> Result<Option<u32>, Refused>
        ensures { IfOk result (λ n. n ≡ division_of (inner.scene_of (state_of self.now)) (expr_of e.now)) }
    {
        match e {
            Expr::Bin(operator, width, a, b) => {
                division(*operator, *width, self.value(a)?, self.value(b)?).ok_or(Refused::Wide)
            }
            _ => Ok(None),
        }
    }

    // The location takes what the division gives, or the run ends where it faults.
    fn divide(&mut self, at: Loc, e: &Expr) -> Result<(), Refused>
        ensures after { OnOk result (state_of self.new
            ≡ inner.dividing at (division_of (inner.scene_of (state_of self.old)) (expr_of e.now)) (state_of self.old)) }
        ensures fill { self.new.fill ≡ self.old.fill }
    {
        match self.division(e)? {
            Some(n) => self.set(at, n)?,
            None => self.end = End::Divide,
        }
        Ok(())
    }

    // The place takes a byte, where there is one.
    fn take(&mut self, place: Option<Loc>, byte: u32) -> Result<(), Refused>
        ensures after { OnOk result (state_of self.new ≡ inner.taking place byte (state_of self.old)) }
        ensures fill { self.new.fill ≡ self.old.fill }
    {
        match place {
            Some(at) => self.set(at, byte),
            None => Ok(()),
        }
    }

    // The next byte of the input is taken, and then written too where it is echoed; where there is none, 1Ah is
    // taken.
    fn key(&mut self, echo: bool, place: Option<Loc>) -> Result<(), Refused>
        ensures after { OnOk result (state_of self.new
            ≡ inner.keyed echo place (state_of self.old).input (state_of self.old)) }
        ensures fill { self.new.fill ≡ self.old.fill }
    {
        match self.input.get(self.taken).copied() {
            None => {
                self.take(place, u32::from(dos::END_OF_INPUT))?;
                self.events.push(Event::MetEnd)?;
                Ok(())
            }
            Some(byte) => {
                self.taken += 1;
                self.take(place, u32::from(byte))?;
                self.events.push(Event::Took(byte))?;
                if echo {
                    self.events.push(Event::Wrote(byte))?;
                }
                Ok(())
            }
        }
    }

    // The value of an argument; 0 where there is none.
    fn argument(&self, argument: &Option<Expr>) -> Result<u32, Refused>
        ensures { IfOk result (λ n. n ≡ inner.argument_in (state_of self.now) (option_map expr_of argument.now)) }
    {
        match argument {
            Some(e) => self.value(e),
            None => Ok(0),
        }
    }

    // A DOS call with the value of its argument.
    fn dos(&mut self, alloc: Global, number: u8, place: Option<Loc>, n: u32) -> Result<(), Refused>
        ensures after { OnOk result (state_of self.new ≡ inner.dos_step number place n (state_of self.old)) }
        ensures fill { self.new.fill ≡ self.old.fill }
    {
        match number {
            dos::PUTC => {
                let byte = u8::try_from(n).map_err(|_| Refused::Wide)?;
                self.events.push(Event::Wrote(byte))?;
            }
            dos::EXIT => self.end = End::Exit(n),
            dos::GETCHE => self.key(true, place)?,
            dos::GETCH => self.key(false, place)?,
            dos::PUTS => {
                let string = string_at(alloc, &self.memory, n)?;
                self.events.extend_from_slice(&written(alloc, &string)?)?;
            }
            _ => self.stop(),
        }
        Ok(())
    }

    /// One statement that is no call.
    pub fn execute(&mut self, alloc: Global, stmt: &Stmt) -> Result<(), Refused>
        ensures after { OnOk result (state_of self.new ≡ inner.stmt_step (stmt_of stmt.now) (state_of self.old)) }
        ensures fill { self.new.fill ≡ self.old.fill }
    {
        match stmt {
            Stmt::Set { place, value } => {
                let n = self.value(value)?;
                self.set(*place, n)?;
            }
            Stmt::Load {
                place,
                width,
                address,
            } => {
                let address = self.value(address)?;
                let n = bits_at(&self.memory, *width, address).ok_or(Refused::Wide)?;
                self.set(*place, n)?;
            }
            Stmt::Store {
                width,
                address,
                value,
            } => {
                let address = self.value(address)?;
                let n = self.value(value)?;
                store(&mut self.memory, *width, address, n)?;
            }
            Stmt::Div { place, division } => self.divide(*place, division)?,
            Stmt::Dos {
                number,
                place,
                argument,
            } => {
                let n = self.argument(argument)?;
                self.dos(alloc, *number, *place, n)?;
            }
            Stmt::Call { .. } => self.stop(),
        }
        Ok(())
    }
}
