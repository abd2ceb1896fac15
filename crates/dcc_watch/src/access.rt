//! One access of an operation to memory.

ghost use Rattle.std.specs.Prelude.{◌≡◌, ◌<◌, ◌^◌};
ghost use Rattle.dcc_machine.specs.Access.{address_in};
ghost use Rattle.dcc_watch.specs.Accesses.{access_of, is_beside};

use dcc_prog::Layout;

/// Whether bytes are read or written.
#[derive(Clone, Copy, PartialEq, Eq, Debug)]
pub(crate) enum Direction {
    /// The bytes are read.
    Reading,
    /// The bytes are written.
    Writing,
}

/// In which way an operation comes to the bytes.
#[derive(Clone, Copy, PartialEq, Eq, Debug)]
pub(crate) enum Kind {
    /// The word that PUSH, POP, CALL, RET, ENTER or LEAVE moves to the stack or from it.
    OfStack,
    /// A memory operand at BP plus a displacement, without an index.
    OfFrame,
    /// In another way: a memory operand elsewhere, the byte of XLAT, the word of a table, the string of a DOS call.
    Other,
}

/// An access: `size` bytes from an offset in a segment on.
#[derive(Clone, Copy)]
pub(crate) struct Access {
    /// Whether the bytes are read or written.
    pub(crate) direction: Direction,
    /// In which way the operation comes to the bytes.
    pub(crate) kind: Kind,
    /// The segment.
    pub(crate) segment: u16,
    /// The offset of the first byte.
    pub(crate) offset: u16,
    /// The number of bytes.
    pub(crate) size: u32,
}

impl Access {
    /// The physical address of the byte at an index, whose offset wraps.
    pub(crate) fn address(self, k: u32) -> u32
        ensures address { result ≡ address_in (access_of self) k }
        ensures within { result < 2 ^ 20 }
    {
        let offset = ((u64::from(self.offset) + u64::from(k)) % 0x1_0000) as u32;
        (u32::from(self.segment) * 16 + offset) % 0x10_0000
    }
    /// Whether the two ends of the access tell that it touches no byte of the stack, which they do not where it wraps.
    pub(crate) fn is_beside(self, layout: &Layout) -> bool
        ensures { result ≡ is_beside layout.now (access_of self) }
    {
        let start = u64::from(self.segment) * 16 + u64::from(self.offset);
        let end = start + u64::from(self.size);
        let base = u64::from(layout.ds) * 16;
        let is_whole = u64::from(self.offset) + u64::from(self.size) <= 0x1_0000
            && end <= 0x10_0000;
        is_whole && (end <= base + u64::from(layout.lo) || base + u64::from(layout.hi) <= start)
    }
}
