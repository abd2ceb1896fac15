//! The pieces of which the programs consist.

/// A few instructions that run from the first to the last. Numbers are drawn: a word below 65,536, a place below 64, a
/// count below 16, a procedure below 8.
#[derive(Clone, Copy, PartialEq, Eq, Debug)]
pub enum Piece {
    /// AX becomes the word.
    SetAx(u16),
    /// BX is added to AX.
    AddBx,
    /// AX and BX change places.
    Exchange,
    /// AX is subtracted from BX.
    SubtractAx,
    /// AX becomes its negative.
    Negate,
    /// The word of the data at the place becomes AX.
    Store(u16),
    /// The word of the data at the place is added to AX.
    AddWord(u16),
    /// BX becomes one more, unless AX is less as a signed number.
    CountUnlessLess,
    /// BX becomes AX, by way of the stack.
    CopyByStack,
    /// CX, which counts down from one more than the count, is added to AX at each number.
    AddCounts(u16),
    /// AL is printed.
    PrintAl,
    /// The procedure is called with AX as its argument.
    Call(u16),
}
