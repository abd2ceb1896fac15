//! The memory at the start of a run.

ghost use Rattle.std.specs.Prelude.{◌≡◌, ◌%◌, map, IfOk};
ghost use Rattle.std.specs.List.{range_with_len};
ghost use Rattle.dcc_c.specs.Run.{stack_byte, stack_memory, with_values, with_globals};
ghost use Rattle.dcc_c.specs.Run as text;
ghost use Rattle.dcc_c.specs.Views.{global_of, tree_of};

use dcc_c::{Global_, Unit};
use dcc_value::value::memory::store;
use std::alloc::{AllocError, Global};

/// The memory at the start: the stack holds the low byte of the fill, global variables hold their initial values, and
/// every other byte is 0.
pub fn first_memory(alloc: Global, unit: &Unit, fill: u16) -> Result<Vec<u8>, AllocError>
    ensures { IfOk result (λ memory. memory.items ≡ text.first_memory (tree_of unit.now) fill) }
{
    let mut memory = stack_memory(alloc, unit.lo, unit.hi, fill)?;
    for global in &unit.globals {
        put_values(global, &mut memory);
    }
    Ok(memory)
}

// The memory before global variables have their values.
fn stack_memory(alloc: Global, lo: u16, hi: u16, fill: u16) -> Result<Vec<u8>, AllocError>
    ensures { IfOk result (λ memory. memory.items ≡ stack_memory lo hi fill) }
{
    first_bytes(alloc, lo, hi, fill, 0x1_0000)
}

// The first bytes of the memory before global variables have their values.
fn first_bytes(alloc: Global, lo: u16, hi: u16, fill: u16, len: u32) -> Result<Vec<u8>, AllocError>
    ensures { IfOk result (λ bytes. bytes.items ≡ map (stack_byte lo hi fill) (range_with_len 0 len)) }
{
    (0..len)
        .map(|at| if u32::from(lo) <= at && at < u32::from(hi) {
            (fill % 256) as u8
        } else {
            0
        })
        .collect(alloc)
}

// Puts the initial values of a global variable into memory.
fn put_values(global: &Global_, memory: &mut [u8])
    ensures { memory.new ≡ with_values global.now.ty global.now.at global.now.init.items memory.old }
{
    let size = global.ty.size();
    let mut at = global.at % 0x1_0000;
    for n in &global.init {
        store(memory, global.ty, at, *n);
        at = at.wrapping_add(size) % 0x1_0000;
    }
}
