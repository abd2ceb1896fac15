//! Why a file has no image.

ghost use Rattle.std.specs.Prelude.{◌≡◌};

use std::alloc::AllocError;
use thiserror::Error;

/// Why a file is not loaded: the first check that it fails, or want of memory.
#[derive(Clone, Copy, Debug, PartialEq, Eq, Error)]
pub enum MzFault {
    /// The file has this number of bytes, fewer than the 28 of the header's words.
    #[error("{0} bytes are too few for a header")]
    Short(u32),
    /// The file does not begin with the letters MZ.
    #[error("the file does not begin with MZ")]
    NotMz,
    /// There are no pages, the last page has more than 512 bytes, or the image ends past the file.
    #[error("the pages do not lie in the file")]
    Pages,
    /// The header ends past the image's end.
    #[error("the header ends past the image")]
    HeaderPastImage,
    /// The table's entry of this number does not lie in the file, or its word not in the image.
    #[error("relocation {0} does not lie in the image")]
    Reloc(u32),
    /// The first instruction does not lie in the image.
    #[error("the entry point does not lie in the image")]
    EntryOutside,
    /// The file has more than 262,144 bytes.
    #[error("the file is too large")]
    TooLarge,
    /// Memory ran out.
    #[error("out of memory")]
    Memory,
}

impl From<AllocError> for MzFault {
    ghost use Rattle.dcc_mz.specs.declared.fault.MzFault.TheVariants.{Memory};

    ghost from_gives = { λ _ fault. fault ≡ Memory };

    fn from(_error: AllocError) -> MzFault {
        MzFault::Memory
    }
}

impl MzFault {
    ghost use Rattle.dcc_mz.specs.Fault.{number_of, place_of};

    /// The number by which the fault is told, from 1 to 7, or 0 for want of memory.
    pub fn number(&self) -> u8
        ensures { result ≡ number_of self.now }
    {
        match self {
            MzFault::Short(_) => 1,
            MzFault::NotMz => 2,
            MzFault::Pages => 3,
            MzFault::HeaderPastImage => 4,
            MzFault::Reloc(_) => 5,
            MzFault::EntryOutside => 6,
            MzFault::TooLarge => 7,
            MzFault::Memory => 0,
        }
    }

    /// The place that is told with the number: an offset in the file, the file's length where it is
    /// too short, its greatest length where it is too large, or the number of a relocation. It is 0
    /// for want of memory.
    pub fn place(&self) -> u32
        ensures { result ≡ place_of self.now }
    {
        match self {
            MzFault::Short(length) => *length,
            MzFault::NotMz => 0,
            MzFault::Pages => 0x02,
            MzFault::HeaderPastImage => 0x08,
            MzFault::Reloc(entry) => *entry,
            MzFault::EntryOutside => 0x14,
            MzFault::TooLarge => 262_144,
            MzFault::Memory => 0,
        }
    }
}
