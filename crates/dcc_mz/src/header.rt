//! The header of an MZ file.

ghost use Rattle.std.specs.Prelude.{◌≡◌, ◌≤◌, ◌<◌, ◌+◌, ◌*◌, length};
ghost use Rattle.dcc_machine.specs.Bytes.{word_at};
ghost use Rattle.dcc_machine.specs.MzImage.{HasHeader, pages_length};

use byteorder::{ByteOrder, LittleEndian};

/// The number of bytes up to the end of the last word that is read.
pub const HEADER_LENGTH: usize = 28;

// The number of bytes in a page.
const PAGE: usize = 512;

/// The number of bytes in a paragraph.
pub const PARAGRAPH: usize = 16;

/// The words of the header that are read.
#[derive(Drop)]
pub struct Header {
    /// The number of bytes in the last page, where 0 means that it is full.
    pub last_page_bytes: u16,
    /// The number of pages of 512 bytes up to the image's end.
    pub pages: u16,
    /// The number of entries in the relocation table.
    pub relocations: u16,
    /// The length of the header in paragraphs of 16 bytes.
    pub paragraphs: u16,
    /// The stack segment at the start, counted from the image's start.
    pub ss: u16,
    /// The stack pointer at the start.
    pub sp: u16,
    /// The instruction pointer at the start.
    pub ip: u16,
    /// The code segment at the start, counted from the image's start.
    pub cs: u16,
    /// The offset of the relocation table in the file.
    pub relocation_table: u16,
}

/// The little-endian word at an offset in bytes.
#[tactic(auto, unfolding(dcc_machine::specs::Bytes::word_at))]
pub fn word(bytes: &[u8], at: usize) -> u16
    requires { at + 2 ≤ length bytes.now }
    ensures { result ≡ word_at bytes.now at }
{
    LittleEndian::read_u16(&bytes[at..])
}

impl Header {
    ghost use Rattle.dcc_mz.specs.Header.{IsHeaderOf};

    /// Reads the header of a file that is long enough for one.
    pub fn read(file: &[u8]) -> Header
        requires { HasHeader file.now }
        ensures { IsHeaderOf file.now result }
    {
        Header {
            last_page_bytes: word(file, 0x02),
            pages: word(file, 0x04),
            relocations: word(file, 0x06),
            paragraphs: word(file, 0x08),
            ss: word(file, 0x0E),
            sp: word(file, 0x10),
            ip: word(file, 0x14),
            cs: word(file, 0x16),
            relocation_table: word(file, 0x18),
        }
    }

    /// The offset in the file at which the image begins.
    pub fn image_start(&self) -> usize
        ensures { result ≡ self.now.paragraphs * 16 }
    {
        self.paragraphs as usize * PARAGRAPH
    }

    /// The offset in the file at which the image ends.
    #[tactic(auto, unfolding(dcc_machine::specs::MzImage::pages_length))]
    pub fn image_end(&self) -> usize
        requires pages { 0 < self.now.pages }
        requires last_page { self.now.last_page_bytes ≤ 512 }
        ensures { result ≡ pages_length self.now.pages self.now.last_page_bytes }
    {
        let whole = self.pages as usize * PAGE;
        if self.last_page_bytes == 0 {
            whole
        } else {
            whole - (PAGE - self.last_page_bytes as usize)
        }
    }

    /// The offset in the image at which the code segment begins.
    pub fn code_start(&self) -> usize
        ensures { result ≡ self.now.cs * 16 }
    {
        self.cs as usize * PARAGRAPH
    }
}
