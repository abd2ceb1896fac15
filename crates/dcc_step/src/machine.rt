//! The machine and its state.

ghost use Rattle.std.specs.Prelude.{◌≡◌, ◌+◌, ◌<◌, ◌≤◌, ◌^◌, [], vec_len, slice_index, IfOk};
ghost use Rattle.dcc_machine.specs.Load.{image_address};
ghost use Rattle.dcc_machine.specs.Machine.{start_state, loaded_memory, word_in};
ghost use Rattle.dcc_step.specs.Core.{core_of, state_of};
ghost use Rattle.dcc_step.specs.Ending.{end_of};

use crate::cache::{Decoded, first_cache};
use crate::ending::Ending;
use crate::marks::Marks;
use dcc_machine::{Cpu, Image, LOAD_SEGMENT, PREFIX_SEGMENT};
use dcc_num::{Flags, NO_FLAGS, Reg};
use std::alloc::{AllocError, Global};
use std::marker::Model;

// The number of bytes in memory: 1 MiB.
const MEMORY_SIZE: usize = 0x10_0000;

// The physical address at which the load image begins.
const IMAGE_ADDRESS: usize = LOAD_SEGMENT as usize * 16;

/// A machine: its processor, registers, flags, memory, and how its run has ended.
#[derive(Drop)]
pub struct Machine {
    /// The processor.
    pub(crate) cpu: Cpu,
    /// The word registers by number: AX, CX, DX, BX, SP, BP, SI, DI.
    pub(crate) regs: [u16; 8],
    /// The segment registers by number: ES, CS, SS, DS.
    pub(crate) segs: [u16; 4],
    /// The modelled flags.
    pub(crate) flags: Flags,
    /// The offset of the next instruction in the code segment.
    pub(crate) ip: u16,
    /// Memory by physical address, 1,048,576 bytes.
    pub(crate) memory: Vec<u8>,
    /// How the run has ended, if it has.
    pub(crate) end: Ending,
    /// Instructions that were decoded for the processor, 4,096 of them, each at its offset modulo 4,096.
    pub(crate) cache: Vec<Decoded>,
    /// The bytes of the instructions that are known.
    pub(crate) marks: Marks,
    /// Whether since the bytes were marked no marked byte was stored, and no code segment taken.
    pub(crate) trusted: bool,
}

impl Model for Machine {
    ghost use Rattle.std.specs.Prelude.{◌≡◌, ◌^◌, vec_len, slice_index};
    ghost use Rattle.std.specs.List.{All};
    ghost use Rattle.dcc_step.specs.Core.{Core};
    ghost use Rattle.dcc_machine.specs.declared.segment.TheConstants.{CS};
    ghost use Rattle.dcc_step.specs.Cache.{IsDecoded, AreFresh};

    ghost Value = { Core };

    ghost use Rattle.dcc_step.specs.Ending.{end_of};

    ghost view = { λ m. record {
      cpu = m.cpu;
      regs = m.regs;
      segs = m.segs;
      flags = m.flags;
      ip = m.ip;
      memory = m.memory.items;
      end = end_of m.end;
    } };

    ghost invariant = { λ m. (vec_len m.memory ≡ 2 ^ 20) × (vec_len m.cache ≡ 4096)
        × All (IsDecoded m.cpu) m.cache.items
        × AreFresh m.trusted m.memory.items (slice_index m.segs CS) m.marks m.cache.items };
}

// Memory with the load image.
fn first_memory(alloc: Global, image: &Image) -> Result<Vec<u8>, AllocError>
    requires { image_address + vec_len image.now.bytes ≤ 2 ^ 20 }
    ensures size { IfOk result (λ memory. vec_len memory ≡ 2 ^ 20) }
    ensures loaded { IfOk result (λ memory. memory.items ≡ loaded_memory image.now.bytes.items) }
{
    let mut memory = Vec::with_capacity(alloc, MEMORY_SIZE)?;
    memory.resize(IMAGE_ADDRESS, 0)?;
    memory.extend_from_slice(&image.bytes)?;
    memory.resize(MEMORY_SIZE, 0)?;
    Ok(memory)
}

impl Machine {
    /// The machine with a processor at the start of a loaded program: memory holds the load image from
    /// offset 0 of the load segment on and 0 elsewhere.
    #[tactic(auto, using(crate::proofs::Freshness::fresh_none))]
    pub fn new(alloc: Global, image: &Image, cpu: Cpu) -> Result<Machine, AllocError>
        requires { image_address + vec_len image.now.bytes ≤ 2 ^ 20 }
        ensures { IfOk result (λ machine. machine ≡ core_of cpu (start_state image.now [])) }
    {
        let memory = first_memory(alloc, image)?;
        let cache = first_cache(alloc, cpu)?;
        let marks = Marks::none(alloc)?;
        Ok(Machine {
            cpu,
            regs: [0, 0, 0, 0, image.sp, 0, 0, 0],
            segs: [PREFIX_SEGMENT, image.cs, image.ss, PREFIX_SEGMENT],
            flags: NO_FLAGS,
            ip: image.ip,
            memory,
            end: Ending::Running,
            cache,
            marks,
            trusted: true,
        })
    }

    /// What a word register holds.
    pub fn reg(&self, r: Reg) -> u16
        ensures { result ≡ word_in (state_of self.now) r }
    {
        self.regs[r as usize]
    }

    /// The instruction pointer.
    pub fn ip(&self) -> u16
        ensures { result ≡ self.now.ip }
    {
        self.ip
    }

    /// How the run has ended, if it has.
    pub fn ending(&self) -> Ending
        ensures { self.now.end ≡ end_of result }
    {
        self.end
    }

    /// The byte at a physical address below 1,048,576.
    pub fn byte(&self, at: u32) -> u8
        requires { at < 2 ^ 20 }
        ensures { result ≡ slice_index self.now.memory at }
    {
        self.memory[at as usize]
    }
}
