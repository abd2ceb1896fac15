//! Kinds of bytes, and how many bytes of a kind a text begins with.

ghost use Rattle.std.specs.Prelude.{◌≡◌, true, option_map};
ghost use Rattle.std.specs.List.{prefix_len, take_while, list_all};
ghost use Rattle.dcc_c.specs.Token as tokens;
ghost use Rattle.dcc_c.specs.Lexing as lexing;
ghost use Rattle.dcc_c.specs.Pieces as spec;
ghost use Rattle.dcc_lex.specs.ByteViews.{has_kind};

/// Whether the byte is a decimal digit.
pub(crate) fn is_digit(byte: u8) -> bool
    ensures { result ≡ tokens.is_digit byte }
{
    b'0' <= byte && byte <= b'9'
}

/// Whether the byte is a letter or `_`.
pub(crate) fn is_letter(byte: u8) -> bool
    ensures { result ≡ tokens.is_letter byte }
{
    (b'A' <= byte && byte <= b'Z') || (b'a' <= byte && byte <= b'z') || byte == b'_'
}

/// Whether a word or a number goes on with this byte.
pub(crate) fn is_word_byte(byte: u8) -> bool
    ensures { result ≡ tokens.is_word_byte byte }
{
    is_letter(byte) || is_digit(byte)
}

/// Whether the byte is a space or a tab.
pub(crate) fn is_blank(byte: u8) -> bool
    ensures { result ≡ lexing.is_blank byte }
{
    byte == b' ' || byte == b'\t'
}

/// The value of a hexadecimal digit, or 16 for another byte.
pub(crate) fn hex_value(byte: u8) -> u8
    ensures { result ≡ tokens.hex_value byte }
{
    if b'0' <= byte && byte <= b'9' {
        byte - b'0'
    } else if b'A' <= byte && byte <= b'F' {
        byte - (b'A' - 10)
    } else if b'a' <= byte && byte <= b'f' {
        byte - (b'a' - 10)
    } else {
        16
    }
}

/// Whether the byte is a hexadecimal digit.
pub(crate) fn is_hex_digit(byte: u8) -> bool
    ensures { result ≡ spec.is_hex_digit byte }
{
    hex_value(byte) <= 15
}

/// A kind of bytes that runs are made of.
#[derive(Clone, Copy, PartialEq, Eq, Debug)]
pub enum ByteKind {
    /// Decimal digits.
    Digit,
    /// Hexadecimal digits.
    HexDigit,
    /// Letters, digits and `_`.
    WordByte,
    /// Spaces and tabs.
    Blank,
}

impl ByteKind {
    // Whether the byte is of this kind.
    fn has(self, byte: u8) -> bool
        ensures { result ≡ has_kind self byte }
    {
        match self {
            ByteKind::Digit => is_digit(byte),
            ByteKind::HexDigit => is_hex_digit(byte),
            ByteKind::WordByte => is_word_byte(byte),
            ByteKind::Blank => is_blank(byte),
        }
    }

    // How many bytes of this kind the bytes begin with.
    fn count(self, bytes: &[u8]) -> usize
        ensures { result ≡ prefix_len (has_kind self) bytes.now }
    {
        for (at, byte) in bytes.iter().enumerate() {
            if !self.has(*byte) {
                return at;
            }
        }
        bytes.len()
    }

    /// The run of this kind that the bytes begin with, and the bytes after it.
    pub fn split(self, bytes: &[u8]) -> (&[u8], &[u8])
        ensures front { result.0.now ≡ take_while (has_kind self) bytes.now }
        ensures back { result.1.now ≡ spec.after_while (has_kind self) bytes.now }
        ensures all { list_all (has_kind self) result.0.now ≡ true }
    {
        bytes.split_at(self.count(bytes))
    }
}

/// Whether the line ends before these bytes.
pub(crate) fn is_line_end(bytes: &[u8]) -> bool
    ensures { result ≡ spec.is_line_end bytes.now }
{
    match bytes.first() {
        None => true,
        Some(first) => *first == b'\n',
    }
}

/// Whether no word or number goes on with these bytes.
pub(crate) fn is_word_end(bytes: &[u8]) -> bool
    ensures { result ≡ spec.is_word_end bytes.now }
{
    match bytes.first() {
        None => true,
        Some(first) => !is_word_byte(*first),
    }
}

/// Whether the bytes are the same.
pub fn same_bytes(left: &[u8], right: &[u8]) -> bool
    ensures { result ≡ tokens.same_bytes left.now right.now }
{
    left == right
}

/// The bytes after the given words, if the bytes begin with these.
pub fn after<'a>(words: &[u8], bytes: &'a [u8]) -> Option<&'a [u8]>
    ensures { option_map (λ rest. rest.now) result ≡ spec.after words.now bytes.now }
{
    let mut rest = bytes;
    for word in words {
        let (first, others) = rest.split_first()?;
        if *first != *word {
            return None;
        }
        rest = others;
    }
    Some(rest)
}
