//! The loader.

ghost use Rattle.std.specs.Prelude.{◌≡◌, IfOk, IfErr, IsErrAnd, IsOkUnless, IfSome, List, ℕ};
ghost use Rattle.dcc_machine.specs.MzImage.{FormatFault, IsFirstFault, IsImageOf, IsLoaded};
ghost use Rattle.dcc_machine.specs.declared.image.Image.{Image};
ghost use Rattle.dcc_mz.specs.Fault.{IsRefusalOrMemory, fault_of};

use crate::checks::checked_header;
use crate::fault::MzFault;
use crate::relocation::{loaded_segment, relocated_image};
use dcc_machine::Image;
use std::alloc::Global;

// The image of a file, where the file passes the seven checks.
fn checked_image(alloc: Global, file: &[u8]) -> Result<Image, MzFault>
    ensures image { IfOk result (IsImageOf file.now) }
    ensures refused { IfErr result (IsRefusalOrMemory file.now) }
{
    let header = checked_header(file)?;
    let image = relocated_image(alloc, file, &header)?;
    let code_start = header.code_start();
    if code_start + header.ip as usize >= image.len() {
        return Err(MzFault::EntryOutside);
    }
    let code_len = (image.len() - code_start).min(65_536) as u32;
    Ok(Image {
        bytes: image,
        code_len,
        cs: loaded_segment(header.cs),
        ip: header.ip,
        ss: loaded_segment(header.ss),
        sp: header.sp,
    })
}

/// The load image of an MZ executable, from the bytes of its file.
///
/// The header's words are those of the EXE file header of the Microsoft MS-DOS Programmer's
/// Reference. A file that has no image is refused with the first check that it fails.
pub fn load(alloc: Global, bytes: &Vec<u8>) -> Result<Image, MzFault>
    ensures image { IfOk result (IsImageOf bytes.now.items) }
    ensures loaded { IfOk result IsLoaded }
    ensures refused { IfErr result (IsRefusalOrMemory bytes.now.items) }

    // A file that has an image is refused for want of memory alone.
    ensures loads { (image : Image) → IsImageOf bytes.now.items image
        → IsOkUnless result MzFault.Memory }
    // A file that fails a check is refused, with the first such check or for want of memory.
    ensures refuses { (fault : FormatFault) → IsFirstFault bytes.now.items fault
        → IsErrAnd result (λ told. IfSome (fault_of told) (λ known. known ≡ fault)) }
{
    checked_image(alloc, bytes)
}
