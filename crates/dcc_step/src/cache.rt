//! Decoded instructions, kept by their offsets.

ghost use Rattle.std.specs.Prelude.{◌≡◌, false, IfOk, vec_len};
ghost use Rattle.std.specs.List.{All};
ghost use Rattle.dcc_step.specs.Cache.{IsDecoded};

use crate::form::Form;
use dcc_decode::decode_window;
use dcc_machine::{Cpu, Instr};
use std::alloc::{AllocError, Global};

/// How many decoded instructions are kept; the one at an offset stands at the offset modulo this.
pub(crate) const CACHE_SIZE: usize = 4096;

/// The instruction that bytes at an offset of the code segment are, if they are one.
#[derive(Clone, Copy)]
pub(crate) struct Decoded {
    /// The offset of the first byte in the code segment.
    pub(crate) at: u16,
    /// Whether the bytes stand in memory as long as the machine's marks are trusted.
    pub(crate) known: bool,
    /// The length of the instruction, where the form isn't `Other`.
    pub(crate) len: u8,
    /// The instruction's form.
    pub(crate) form: Form,
    /// The bytes at the offset, as many as the longest instruction has.
    pub(crate) window: [u8; 6],
    /// The instruction.
    pub(crate) instr: Option<Instr>,
}

impl Decoded {
    /// Decodes the bytes at an offset for a processor.
    pub(crate) fn of(at: u16, window: &[u8; 6], cpu: Cpu) -> Decoded
        ensures at { result.at ≡ at }
        ensures window { result.window ≡ window.now }
        ensures decoded { IsDecoded cpu result }
    {
        let instr = decode_window(window, at, cpu);
        let (form, len) = match instr {
            Some(found) => (Form::of(found.op), found.len),
            None => (Form::Other, 0),
        };
        Decoded {
            at,
            known: true,
            len,
            form,
            window: *window,
            instr,
        }
    }
}

/// A cache in which nothing is known.
pub(crate) fn first_cache(alloc: Global, cpu: Cpu) -> Result<Vec<Decoded>, AllocError>
    ensures count { IfOk result (λ cache. vec_len cache ≡ 4096) }
    ensures decoded { IfOk result (λ cache. All (IsDecoded cpu) cache.items) }
    ensures unknown { IfOk result (λ cache. All (λ decoded. decoded.known ≡ false) cache.items) }
{
    let mut cache = Vec::with_capacity(alloc, CACHE_SIZE)?;
    let unknown = Decoded {
        known: false,
        ..Decoded::of(0, &[0; 6], cpu)
    };
    cache.resize(CACHE_SIZE, unknown)?;
    Ok(cache)
}
