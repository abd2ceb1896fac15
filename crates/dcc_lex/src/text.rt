//! Words compared with others.

ghost use Rattle.std.specs.Prelude.{◌≡◌, get_or};
ghost use Rattle.dcc_c.specs.Token as tokens;

/// The first byte of a text, or 0.
pub fn first_byte(text: &str) -> u8
    ensures { result ≡ get_or text.now 0 0 }
{
    match text.as_bytes().first() {
        Some(first) => *first,
        None => 0,
    }
}

/// Whether two texts are the same. Most differ in length or first byte, so these are looked at before the whole.
pub fn same_text(left: &str, right: &str) -> bool
    ensures { result ≡ tokens.same_bytes left.now right.now }
{
    if left.len() != right.len() {
        return false;
    }
    if first_byte(left) != first_byte(right) {
        return false;
    }
    left == right
}
