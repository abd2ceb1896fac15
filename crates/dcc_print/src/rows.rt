//! How many lines global variables take in their written form.

ghost use Rattle.std.specs.Prelude.{◌≡◌, ◌==◌, count_by, IfOk, None, map, string_bytes};
ghost use Rattle.dcc_c.specs.Written.{written_globals};
ghost use Rattle.dcc_c.specs.Numbered.{rows};
ghost use Rattle.dcc_c.specs.Views.{global_of};

use crate::declaration::push_globals;
use dcc_c::Global_;
use std::alloc::{AllocError, Global};

// The number of line ends in some bytes.
fn line_ends(bytes: &[u8]) -> usize
    ensures { result ≡ count_by (λ b. b == 10) bytes.now }
{
    let mut count = 0;
    for byte in bytes {
        if *byte == b'\n' {
            count += 1;
        }
    }
    count
}

// The number of lines of a text.
#[tactic(auto, using(crate::proofs::EndLaws::ends_are_rows))]
fn text_rows(text: &String) -> usize
    ensures { result ≡ rows (string_bytes text.now) }
{
    line_ends(text.as_bytes())
}

// The lines of global variables.
pub(crate) fn globals_rows(alloc: Global, globals: &[Global_]) -> Result<usize, AllocError>
    ensures { IfOk result (λ n. n ≡ rows (written_globals None (map global_of globals.now))) }
{
    let mut text = String::new(alloc);
    push_globals(&mut text, globals)?;
    Ok(text_rows(&text))
}
