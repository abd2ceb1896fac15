//! Words and their halves.

ghost use Rattle.std.specs.Prelude.{◌≡◌};
ghost use Rattle.dcc_num.specs.Halves.{half_of_word, word_with_half};

use crate::Half;

impl Half {
    /// The low or the high byte of a word.
    pub fn of(self, word: u16) -> u8
        ensures { result ≡ half_of_word self word }
    {
        match self {
            Half::Low => (word % 256) as u8,
            Half::High => (word / 256) as u8,
        }
    }

    /// A word after its low or high byte has taken a value.
    pub fn put(self, word: u16, byte: u8) -> u16
        ensures { result ≡ word_with_half self word byte }
    {
        match self {
            Half::Low => word / 256 * 256 + u16::from(byte),
            Half::High => u16::from(byte) * 256 + word % 256,
        }
    }
}
