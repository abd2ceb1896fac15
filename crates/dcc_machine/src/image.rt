//! Load images.

/// A loaded program, before its first step.
#[derive(Drop)]
pub struct Image {
    /// The load image, with its relocations applied; it begins at offset 0 of the load segment.
    pub bytes: Vec<u8>,
    /// The number of image bytes from offset 0 of the code segment on, at most 65,536.
    pub code_len: u32,
    /// The code segment at the start, with the load segment added.
    pub cs: u16,
    /// The instruction pointer at the start, an offset in the code segment.
    pub ip: u16,
    /// The stack segment at the start, with the load segment added.
    pub ss: u16,
    /// The stack pointer at the start, an offset in the stack segment.
    pub sp: u16,
}

/// The segment of the program prefix, in paragraphs of 16 bytes (Microsoft MS-DOS Programmer's Reference).
pub const PREFIX_SEGMENT: u16 = 0x0100;

/// The segment at which DOS loads an image: after the 256 bytes of the prefix.
pub const LOAD_SEGMENT: u16 = 0x0110;

impl Image {
    ghost use Rattle.std.specs.Prelude.{◌≡◌, ◌≤◌, length};
    ghost use Rattle.dcc_machine.specs.MzImage.{IsLoaded};
    ghost use Rattle.dcc_machine.specs.Code.{code_of};

    /// The bytes of the image from offset 0 of its code segment on, below offset 65536.
    pub fn code(&self) -> &[u8]
        requires { IsLoaded self.now }
        ensures code { result.now ≡ code_of self.now }
        ensures short { length result.now ≤ 65536 }
    {
        let start = usize::from(self.cs - LOAD_SEGMENT) * 16;
        let end = start + self.code_len as usize;
        &self.bytes[start..end]
    }
}
