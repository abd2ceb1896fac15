//! Bytes of a frame.

ghost use Rattle.std.specs.Prelude.{◌≡◌};
ghost use Rattle.dcc_frames.specs.Bytes.{is_small, is_between};

/// Some bytes of a frame: those from the first offset up to the end, which isn't one of them. Offsets count from the
/// frame's base less 4.
#[derive(Clone, Copy, PartialEq, Eq, Debug)]
pub struct Bytes {
    /// The offset of the first byte.
    pub first: i32,
    /// The offset after the last byte.
    pub end: i32,
}

impl Bytes {
    /// Whether the bytes are at most two.
    pub fn is_small(self) -> bool
        ensures { result ≡ is_small self }
    {
        i64::from(self.end) <= i64::from(self.first) + 2
    }

    /// Whether the bytes lie from one offset on and before another.
    pub fn is_between(self, low: i32, high: i32) -> bool
        ensures { result ≡ is_between self low high }
    {
        low <= self.first && self.end <= high
    }
}

/// Bytes of a frame that belong together.
#[derive(Clone, Copy, PartialEq, Eq, Debug)]
pub struct Piece {
    /// The bytes.
    pub bytes: Bytes,
    /// An instruction that uses some of the bytes, if any does.
    pub user: Option<u16>,
}
