//! Memory: 65,536 bytes at addresses that wrap, the low byte of a value first.

ghost use Rattle.std.specs.Prelude.{◌≡◌, ◌%◌, ◌<◌, ◌^◌, slice_set};
ghost use Rattle.dcc_c.specs.Types.{size_of};
ghost use Rattle.dcc_c.specs.Memory.{byte_at, load, store};
ghost use Rattle.dcc_c.specs.Value.{loaded};
ghost use Rattle.dcc_value.specs.Evaluation.{typed};

use super::Value;
use dcc_c::CType;

/// How many bytes a memory has.
pub const MEMORY: u64 = 65_536;

/// The byte at an address.
pub fn byte_at(memory: &[u8], at: u64) -> u8
    ensures { result ≡ byte_at memory.now at }
{
    memory.get((at % MEMORY) as usize).copied().unwrap_or(0)
}

// The number in two bytes.
fn word_at(memory: &[u8], at: u64) -> u32
    requires { at < 2 ^ 33 }
    ensures value { result ≡ load 2 memory.now at }
    ensures within { result < 2 ^ 16 }
{
    u32::from(byte_at(memory, at)) + 256 * u32::from(byte_at(memory, at + 1))
}

// The number in as many bytes as a value of the type takes.
fn bits_at(memory: &[u8], ty: CType, at: u32) -> u32
    ensures { result ≡ load (size_of ty) memory.now at }
{
    let at = u64::from(at);
    match ty.size() {
        1 => u32::from(byte_at(memory, at)),
        2 => word_at(memory, at),
        _ => word_at(memory, at) + 0x1_0000 * word_at(memory, at + 2),
    }
}

/// The value at an address.
pub fn loaded(memory: &[u8], ty: CType, at: u32) -> Value
    ensures { typed result ≡ loaded memory.now ty at }
{
    Value {
        ty,
        bits: bits_at(memory, ty, at),
    }
}

// Puts a byte at an address.
fn put_byte(memory: &mut [u8], at: u64, byte: u8)
    ensures { memory.new ≡ slice_set memory.old (at % 65536) byte }
{
    let i = (at % MEMORY) as usize;
    if i < memory.len() {
        memory[i] = byte;
    }
}

/// Puts a number into as many bytes as a value of the type takes.
pub fn store(memory: &mut [u8], ty: CType, at: u32, n: u32)
    ensures { memory.new ≡ store (size_of ty) memory.old at n }
{
    let mut rest = n;
    for i in 0..ty.size() {
        put_byte(memory, u64::from(at) + u64::from(i), (rest % 256) as u8);
        rest /= 256;
    }
}
