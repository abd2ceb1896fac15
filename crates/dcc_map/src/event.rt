//! What happens at a console, and input that is withheld.

ghost use Rattle.std.specs.Prelude.{◌≡◌, ◌^◌, ◌-◌, ◌++◌, ◌∷◌, [], map, Some, IfOk, OnOk, option_to_list, IsTrue, ◌↔◌};
ghost use Rattle.dcc_map.specs.declared.event.Event.TheVariants.{Wrote};
ghost use Rattle.dcc_map.specs.Side.{event_of, key_event};

use dcc_io::{Failed, Source};
use std::alloc::{AllocError, Global};
use std::collections::VecDeque;

/// An event at the console.
#[derive(Clone, Copy, PartialEq, Eq, Debug)]
pub(crate) enum Event {
    /// This byte was written.
    Wrote(u8),
    /// This byte of the input was taken.
    Took(u8),
    /// A byte was asked for, and the input had ended.
    MetEnd,
}

/// Whether two events are the same.
pub(crate) fn are_same(first: Event, second: Event) -> bool
    ensures { IsTrue result ↔ (event_of first ≡ event_of second) }
{
    match (first, second) {
        (Event::Wrote(a), Event::Wrote(b)) | (Event::Took(a), Event::Took(b)) => a == b,
        (Event::MetEnd, Event::MetEnd) => true,
        _ => false,
    }
}

/// What happens where this is the next key, or where there is none.
pub(crate) fn key_event(key: Option<u8>) -> Event
    ensures { result ≡ key_event key }
{
    match key {
        Some(byte) => Event::Took(byte),
        None => Event::MetEnd,
    }
}

/// The key alone, or nothing.
pub(crate) fn given(alloc: Global, key: Option<u8>) -> Result<Vec<u8>, AllocError>
    ensures { IfOk result (λ given. given.items ≡ option_to_list key) }
{
    let mut given = Vec::new(alloc);
    if let Some(byte) = key {
        given.push(byte)?;
    }
    Ok(given)
}

/// The input, from whose front keys are taken.
pub(crate) fn keys_of(alloc: Global, input: &[u8]) -> Result<VecDeque<u8>, AllocError>
    ensures { IfOk result (λ keys. keys.items ≡ input.now) }
{
    let mut keys = VecDeque::new(alloc);
    for byte in input {
        keys.push_back(*byte)?;
    }
    Ok(keys)
}

/// Adds that the bytes were written.
pub(crate) fn add_written(events: &mut VecDeque<Event>, bytes: &[u8]) -> Result<(), AllocError>
    ensures { OnOk result (events.new.items ≡ events.old.items ++ map Wrote bytes.now) }
{
    for byte in bytes {
        events.push_back(Event::Wrote(*byte))?;
    }
    Ok(())
}

/// Input of one byte that is withheld: each read fails. A step that fails with it is one that takes a key.
#[derive(Drop)]
pub(crate) struct WithheldKey;

impl Source for WithheldKey {
    ghost left = { λ _. Some (0 ∷ []) };

    ghost faults = { λ _. 2 ^ 64 - 1 };

    fn read(&mut self, _buf: &mut [u8]) -> Result<usize, Failed> {
        Err(Failed)
    }
}
