//! The checks of a file before its relocations.

ghost use Rattle.std.specs.Prelude.{IfOk, IfErr};
ghost use Rattle.dcc_machine.specs.MzImage.{HasGoodHeader};
ghost use Rattle.dcc_mz.specs.Fault.{IsRefusal};
ghost use Rattle.dcc_mz.specs.Header.{IsHeaderOf};

use crate::fault::MzFault;
use crate::header::{HEADER_LENGTH, Header};

// The greatest length of a file, in bytes.
const GREATEST_LENGTH: usize = 262_144;

/// Reads the header, and sees that it says where in the file the image lies.
pub(crate) fn checked_header(file: &[u8]) -> Result<Header, MzFault>
    ensures header { IfOk result (λ header. IsHeaderOf file.now header) }
    ensures good { IfOk result (λ _. HasGoodHeader file.now) }
    ensures refused { IfErr result (IsRefusal file.now) }
{
    if file.len() > GREATEST_LENGTH {
        return Err(MzFault::TooLarge);
    }
    if file.len() < HEADER_LENGTH {
        return Err(MzFault::Short(file.len() as u32));
    }
    if !file.starts_with(b"MZ") {
        return Err(MzFault::NotMz);
    }
    let header = Header::read(file);
    if header.pages == 0 || header.last_page_bytes > 512 || header.image_end() > file.len() {
        return Err(MzFault::Pages);
    }
    if header.image_start() > header.image_end() {
        return Err(MzFault::HeaderPastImage);
    }
    Ok(header)
}
