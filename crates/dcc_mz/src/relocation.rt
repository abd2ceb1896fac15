//! The relocations of an image.

ghost use Rattle.std.specs.Prelude.{◌≡◌, ◌≤◌, ◌<◌, ◌+◌, length, OnOk, IfOk, IfErr, MatchOption};
ghost use Rattle.dcc_machine.specs.Bytes.{with_word_at, word_at};
ghost use Rattle.dcc_machine.specs.MzImage.{HasGoodHeader, RelocationFits, RelocationsFit, image_length};
ghost use Rattle.dcc_machine.specs.MzImage.{loaded_segment, relocated_image, relocated_place, relocation_count};
ghost use Rattle.dcc_mz.specs.Fault.{IsRefusal, IsRefusalOrMemory};
ghost use Rattle.dcc_mz.specs.Header.{IsHeaderOf};

use crate::fault::MzFault;
use crate::header::{Header, PARAGRAPH, word};
use byteorder::{ByteOrder, LittleEndian};
use dcc_machine::LOAD_SEGMENT;
use std::alloc::Global;

/// A segment that the file counts from the image's start, moved to where the image is loaded.
pub(crate) fn loaded_segment(segment: u16) -> u16
    ensures { result ≡ loaded_segment segment }
{
    segment.wrapping_add(LOAD_SEGMENT)
}

// The offset in an image of the word that an entry of the relocation table moves, or `None` where
// the entry is not wholly in the file or the word not wholly in the image.
fn place(file: &[u8], header: &Header, image_len: usize, entry: u16) -> Option<usize>
    requires header { IsHeaderOf file.now header.now }
    requires image { image_len ≡ image_length file.now }
    ensures { MatchOption result (¬ RelocationFits file.now entry)
        (λ place. RelocationFits file.now entry × (place ≡ relocated_place file.now entry)) }
{
    let at = header.relocation_table as usize + 4 * entry as usize;
    if at + 4 > file.len() {
        return None;
    }
    let place = word(file, at + 2) as usize * PARAGRAPH + word(file, at) as usize;
    (place + 2 <= image_len).then_some(place)
}

// Adds the load segment to the word at an offset, modulo 65,536.
fn move_word(image: &mut [u8], at: usize)
    requires { at + 2 ≤ length image.old }
    ensures { image.new ≡ with_word_at image.old at (loaded_segment (word_at image.old at)) }
{
    let moved = loaded_segment(word(image, at));
    LittleEndian::write_u16(&mut image[at..], moved);
}

// Applies the relocations to an image, in the order of their table. After an error the image is
// of no use.
fn relocate(file: &[u8], header: &Header, image: &mut [u8]) -> Result<(), MzFault>
    requires header { IsHeaderOf file.now header.now }
    requires good { HasGoodHeader file.now }
    requires unmoved { image.old ≡ relocated_image file.now 0 }
    ensures moved { OnOk result (image.new ≡ relocated_image file.now (relocation_count file.now)) }
    ensures fit { OnOk result (RelocationsFit file.now) }
    ensures refused { IfErr result (IsRefusal file.now) }
{
    for entry in 0..header.relocations {
        let fault = MzFault::Reloc(u32::from(entry));
        let place = place(file, header, image.len(), entry).ok_or(fault)?;
        move_word(image, place);
    }
    Ok(())
}

/// The image of a file, copied and relocated.
#[tactic(auto, unfolding(dcc_machine::specs::MzImage::relocated_image))]
pub(crate) fn relocated_image(
    alloc: Global,
    file: &[u8],
    header: &Header,
) -> Result<Vec<u8>, MzFault>
    requires header { IsHeaderOf file.now header.now }
    requires good { HasGoodHeader file.now }
    ensures moved { IfOk result (λ image.
        image.items ≡ relocated_image file.now (relocation_count file.now)) }
    ensures fit { OnOk result (RelocationsFit file.now) }
    ensures refused { IfErr result (IsRefusalOrMemory file.now) }
{
    let unmoved = &file[header.image_start()..header.image_end()];
    let mut image = Vec::from_slice(alloc, unmoved)?;
    relocate(file, header, &mut image)?;
    Ok(image)
}
