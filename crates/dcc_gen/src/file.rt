//! The file of a program: an MZ executable.

ghost use Rattle.std.specs.Prelude.{◌≡◌, ℕ, ◌+◌, ◌*◌, ◌<◌, ◌≤◌, ◌++◌, OnOk, IfOk, length, replicate};
ghost use Rattle.std.specs.List.{flat_map};
ghost use Rattle.dcc_gen.specs.File.{paragraphs_of, image_of, header_of, file_with};
ghost use Rattle.dcc_gen.specs.Pieces.{word_bytes};

use crate::code::push_word;
use std::alloc::{AllocError, Global};

// Appends words.
fn push_words(file: &mut Vec<u8>, words: &[u16]) -> Result<(), AllocError>
    ensures { OnOk result (file.new.items ≡ file.old.items ++ flat_map word_bytes words.now) }
{
    for word in words {
        push_word(file, *word)?;
    }
    Ok(())
}

// Appends the header of a file of so many bytes, whose code takes so many paragraphs.
fn push_header(file: &mut Vec<u8>, bytes: u16, paragraphs: u16) -> Result<(), AllocError>
    requires { paragraphs < 4096 }
    ensures { OnOk result (file.new.items ≡ file.old.items ++ header_of bytes paragraphs) }
{
    file.extend_from_slice(b"MZ")?;
    push_words(
        file,
        &[
            bytes % 512,
            bytes.div_ceil(512),
            1,
            2,
            0,
            0xFFFF,
            paragraphs + 8,
            0x0200,
            0,
            0,
            0,
            0x1C,
            0,
            1,
            0,
        ],
    )
}

// Appends zeros, so many.
fn push_zeros(file: &mut Vec<u8>, count: usize) -> Result<(), AllocError>
    ensures { OnOk result (file.new.items ≡ file.old.items ++ replicate count 0) }
{
    for _ in 0..count {
        file.push(0)?;
    }
    Ok(())
}

// Appends the image with this code, which takes so many paragraphs, and these words of data.
fn push_image(
    file: &mut Vec<u8>,
    code: &[u8],
    words: &[u16],
    paragraphs: u16,
) -> Result<(), AllocError>
    requires { paragraphs ≡ paragraphs_of code.now }
    ensures { OnOk result (file.new.items ≡ file.old.items ++ image_of code.now words.now) }
{
    file.push(0xB8)?;
    push_word(file, paragraphs)?;
    file.extend_from_slice(&[0x8E, 0xD8])?;
    file.extend_from_slice(code)?;
    push_zeros(file, 16 * usize::from(paragraphs) - (5 + code.len()))?;
    push_words(file, words)
}

/// The file with this code behind the first instructions, and these words of data.
pub(crate) fn file(alloc: Global, code: &[u8], words: &[u16]) -> Result<Vec<u8>, AllocError>
    requires code { length code.now ≤ 30000 }
    requires words { length words.now ≡ 64 }
    ensures { IfOk result (λ file. file.items ≡ file_with code.now words.now) }
{
    let paragraphs = (5 + code.len()).div_ceil(16) as u16;
    let mut file = Vec::new(alloc);
    push_header(&mut file, 32 + 16 * paragraphs + 128, paragraphs)?;
    push_image(&mut file, code, words, paragraphs)?;
    Ok(file)
}
