//! What global variables hold at first.

ghost use Rattle.std.specs.Prelude.{◌≡◌, ◌+◌, ◌^◌, ◌≤◌, ◌<◌, ◌==◌, if◌then◌else◌, IfOk, length, take, drop};
ghost use Rattle.dcc_globals.specs.Globals as spec;

use std::alloc::{AllocError, Global};

// How many bytes there are up to the last that isn't 0, with this byte at this place behind the others.
fn count_with(count: usize, place: usize, byte: u8) -> usize
    requires { place < 2 ^ 63 }
    ensures { result ≡ (if byte == 0 then count else place + 1) }
{
    if byte == 0 { count } else { place + 1 }
}

// How many bytes there are up to the last that isn't 0.
fn significant(bytes: &[u8]) -> usize
    ensures value { result ≡ spec.significant bytes.now }
    ensures within { result ≤ length bytes.now }
{
    let mut count = 0;
    for (place, byte) in bytes.iter().enumerate() {
        count = count_with(count, place, *byte);
    }
    count
}

// Bytes as initial values.
fn values(alloc: Global, bytes: &[u8]) -> Result<Vec<u32>, AllocError>
    ensures { IfOk result (λ values. values.items ≡ bytes.now) }
{
    let mut list = Vec::new(alloc);
    for byte in bytes {
        list.push(u32::from(*byte))?;
    }
    Ok(list)
}

/// The initial values of an array with these bytes: up to the last that isn't 0.
pub(crate) fn array_values(alloc: Global, bytes: &[u8]) -> Result<Vec<u32>, AllocError>
    ensures { IfOk result (λ values. values.items ≡ take (spec.significant bytes.now) bytes.now) }
{
    values(alloc, &bytes[..significant(bytes)])
}

// The number of at most two bytes, of which the lower one stands first.
fn number_of(bytes: &[u8]) -> u32
    requires { length bytes.now ≤ 2 }
    ensures { result ≡ spec.number_of bytes.now }
{
    match bytes {
        [] => 0,
        [low] => u32::from(*low),
        [low, high, ..] => u32::from(*low) + 256 * u32::from(*high),
    }
}

/// The initial value of a scalar with these bytes, where it isn't 0.
pub(crate) fn scalar_values(alloc: Global, bytes: &[u8]) -> Result<Vec<u32>, AllocError>
    requires { length bytes.now ≤ 2 }
    ensures { IfOk result (λ values. values.items ≡ spec.scalar_values bytes.now) }
{
    let mut values = Vec::new(alloc);
    let number = number_of(bytes);
    if number != 0 {
        values.push(number)?;
    }
    Ok(values)
}

// The first `count` bytes, or all where there are fewer.
#[tactic(auto, using(std::proofs::lemmas::List::take_all))]
fn front(bytes: &[u8], count: usize) -> &[u8]
    ensures { result.now ≡ take count bytes.now }
{
    if count < bytes.len() {
        &bytes[..count]
    } else {
        bytes
    }
}

// The bytes after the first `count`, or none where there are fewer.
#[tactic(auto, using(std::proofs::lemmas::List::take_rest, std::proofs::lemmas::List::drop_all))]
fn rest(bytes: &[u8], count: usize) -> &[u8]
    ensures { result.now ≡ drop count bytes.now }
{
    if count < bytes.len() {
        &bytes[count..]
    } else {
        &[]
    }
}

/// At most so many bytes from an offset on.
pub(crate) fn bytes_at(bytes: &[u8], at: usize, size: usize) -> &[u8]
    ensures value { result.now ≡ take size (drop at bytes.now) }
    ensures short { length result.now ≤ size }
{
    front(rest(bytes, at), size)
}
