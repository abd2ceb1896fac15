//! The data segment of a program.

ghost use Rattle.std.specs.Prelude.{◌≡◌, slice_index};
ghost use Rattle.dcc_globals.specs.Pieces as spec;

use dcc_machine::Ea;
use dcc_num::Width;

/// How many offsets a segment has.
pub(crate) const OFFSETS: usize = 65536;

/// The data segment of a program.
#[derive(Clone, Copy, Drop)]
pub struct DataSource<'a> {
    /// The bytes of the image, from offset 0 on.
    pub bytes: &'a [u8],
    /// The lowest offset of the stack.
    pub lo: u16,
    /// The offset just above the stack.
    pub hi: u16,
    /// The memory operands of all instructions.
    pub operands: &'a [(Width, Ea)],
}

impl DataSource<'_> {
    /// Whether an offset lies in the stack.
    pub fn is_in_stack(&self, at: usize) -> bool
        ensures { result ≡ spec.is_in_stack self.now.lo self.now.hi at }
    {
        usize::from(self.lo) <= at && at < usize::from(self.hi)
    }

    /// The byte of the image at an offset, 0 past its end.
    pub fn byte_at(&self, at: usize) -> u8
        ensures { result ≡ slice_index self.now.bytes.now at }
    {
        self.bytes.get(at).copied().unwrap_or(0)
    }
}
