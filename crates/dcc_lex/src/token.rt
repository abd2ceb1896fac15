//! Tokens, and the pieces that a text is cut into.

ghost use Rattle.std.specs.Prelude.{◌≡◌, true};
ghost use Rattle.dcc_c.specs.Grammar.{is_name};

/// The suffix of a number.
#[derive(Clone, Copy, PartialEq, Eq, Debug)]
pub enum Suffix {
    /// No suffix is written.
    Plain,
    /// `U`.
    Unsigned,
    /// `L`.
    Long,
    /// `UL`.
    UnsignedLong,
}

/// What a pragma is about.
#[derive(Clone, Copy, PartialEq, Eq, Debug)]
pub enum Head {
    /// `#pragma dcc text 1`.
    Version,
    /// `#pragma dcc stack`.
    Stack,
    /// `#pragma dcc at`.
    Place,
    /// `#pragma dcc depth`.
    Depth,
}

/// An operator, a bracket or a separator.
#[derive(Clone, Copy, PartialEq, Eq, Debug)]
pub enum Mark {
    /// `(`.
    OpenParenthesis,
    /// `)`.
    CloseParenthesis,
    /// `{`.
    OpenBrace,
    /// `}`.
    CloseBrace,
    /// `[`.
    OpenBracket,
    /// `]`.
    CloseBracket,
    /// `;`.
    Semicolon,
    /// `:`.
    Colon,
    /// `,`.
    Comma,
    /// `=`.
    Equals,
    /// `?`.
    Question,
    /// `||`.
    OrOr,
    /// `&&`.
    AndAnd,
    /// `|`.
    Or,
    /// `^`.
    Xor,
    /// `&`.
    And,
    /// `==`.
    EqualsEquals,
    /// `!=`.
    NotEquals,
    /// `<`.
    Less,
    /// `<=`.
    LessEquals,
    /// `>`.
    Greater,
    /// `>=`.
    GreaterEquals,
    /// `<<`.
    ShiftLeft,
    /// `>>`.
    ShiftRight,
    /// `+`.
    Plus,
    /// `-`.
    Minus,
    /// `*`.
    Star,
    /// `/`.
    Slash,
    /// `%`.
    Percent,
    /// `~`.
    Tilde,
    /// `!`.
    Exclamation,
}

/// A keyword of the grammar.
#[derive(Clone, Copy, PartialEq, Eq, Debug)]
pub enum Keyword {
    /// `auto`.
    Auto,
    /// `break`.
    Break,
    /// `case`.
    Case,
    /// `char`.
    Char,
    /// `continue`.
    Continue,
    /// `default`.
    Default,
    /// `do`.
    Do,
    /// `else`.
    Else,
    /// `for`.
    For,
    /// `goto`.
    Goto,
    /// `if`.
    If,
    /// `int`.
    Int,
    /// `long`.
    Long,
    /// `register`.
    Register,
    /// `return`.
    Return,
    /// `signed`.
    Signed,
    /// `switch`.
    Switch,
    /// `unsigned`.
    Unsigned,
    /// `void`.
    Void,
    /// `while`.
    While,
}

/// A name: a word that is no keyword of ISO C90.
#[derive(Clone, Copy)]
pub struct Name<'a> {
    /// The word.
    pub word: &'a str,
    ghost name: { is_name word.now ≡ true },
}

/// A token.
#[derive(Clone, Copy)]
pub enum Token<'a> {
    /// A keyword of the grammar.
    Keyword(Keyword),
    /// A name.
    Name(Name<'a>),
    /// A decimal number, at most 4294967295.
    Decimal(u32, Suffix),
    /// A number in hexadecimal, at most 4294967295.
    Hex(u32, Suffix),
    /// An operator, a bracket or a separator.
    Mark(Mark),
    /// The words of a pragma.
    Pragma(Head),
}

/// A piece of a text: a token, or bytes that are none.
#[derive(Clone, Copy)]
pub struct Piece<'a> {
    /// The token; None for bytes that are none.
    pub token: Option<Token<'a>>,
    /// The line where the piece stands, from 1.
    pub line: u32,
}
