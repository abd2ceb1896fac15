//! The code of a program.

ghost use Rattle.std.specs.Prelude.{◌≡◌, ◌+◌, ◌%◌, ◌^◌, ◌<◌, ℕ, None, IfSome};
ghost use Rattle.dcc_machine.specs.Bytes.{byte_at};
ghost use Rattle.dcc_machine.specs.Code.{code_of};
ghost use Rattle.dcc_machine.specs.MzImage.{IsLoaded};
ghost use Rattle.dcc_prog.specs.Layout.{HasLayout};
ghost use Rattle.dcc_machine.specs.WellFormed.{IsOperation};
ghost use Rattle.dcc_prog.specs.Trail.{code_within, instruction_in, word_in_segment};
ghost use Rattle.dcc_prog.specs.Construct.{HasIndirect};

use dcc_decode::decode_window;
use dcc_machine::{Image, Instr};
use dcc_prog::Layout;

/// The bytes of the code.
pub fn code_of<'a>(image: &'a Image, layout: &Layout) -> &'a [u8]
    requires loaded { IsLoaded image.now }
    requires layout { HasLayout image.now layout.now }
    ensures code { result.now ≡ code_within image.now layout.now }
{
    &image.code()[..layout.code_end as usize]
}

/// The instruction at an offset of the code, wholly in it.
pub fn instruction_in(image: &Image, layout: &Layout, at: u16) -> Option<Instr>
    requires loaded { IsLoaded image.now }
    requires layout { HasLayout image.now layout.now }
    ensures found { result ≡ instruction_in image.now layout.now at }
    ensures operation { IfSome result (λ instr. IsOperation instr.op) }
{
    decode_window(
        code_of(image, layout).get(usize::from(at)..)?,
        at,
        layout.cpu,
    )
}

/// The reg field of the ModRM byte after FFh, where these two bytes stand in the code.
pub(crate) fn indirect_at(image: &Image, layout: &Layout, at: u16) -> Option<u8>
    requires loaded { IsLoaded image.now }
    requires layout { HasLayout image.now layout.now }
    ensures some { IfSome result (HasIndirect (code_within image.now layout.now) at) }
    ensures none { result ≡ None → (reg : ℕ) → ¬ HasIndirect (code_within image.now layout.now) at reg }
{
    match code_of(image, layout).get(usize::from(at)..)? {
        [0xFF, modrm, ..] => Some(*modrm >> 3 & 7),
        _ => None,
    }
}

// The byte at an offset of the code segment, which wraps; beyond the image there are zeros.
fn byte_in_segment(image: &Image, offset: u32) -> u8
    requires { IsLoaded image.now }
    ensures { result ≡ byte_at (code_of image.now) (offset % 65536) }
{
    image
        .code()
        .get((offset % 65536) as usize)
        .copied()
        .unwrap_or(0)
}

/// The word at an offset of the code segment, its low byte first.
pub(crate) fn word_in_segment(image: &Image, offset: u32) -> u16
    requires loaded { IsLoaded image.now }
    requires small { offset + 1 < 2 ^ 32 }
    ensures { result ≡ word_in_segment image.now offset }
{
    let low = byte_in_segment(image, offset);
    let high = byte_in_segment(image, offset + 1);
    u16::from_le_bytes([low, high])
}
