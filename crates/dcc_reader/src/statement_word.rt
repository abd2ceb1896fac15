//! The words that statements begin with.

ghost use Rattle.std.specs.Prelude.{◌≡◌, Some};
ghost use Rattle.std.specs.Option.{option_map};
ghost use Rattle.dcc_lex.specs.TokenViews.{token_of};
ghost use Rattle.dcc_reader.specs.Words as words;

use dcc_lex::{Keyword, Token};

/// A word that a statement begins with.
#[derive(Clone, Copy, PartialEq, Eq, Debug)]
pub enum StatementWord {
    /// `if`.
    If,
    /// `while`.
    While,
    /// `do`.
    Do,
    /// `for`.
    For,
    /// `switch`.
    Switch,
    /// `break`.
    Break,
    /// `continue`.
    Continue,
    /// `goto`.
    Goto,
    /// `return`.
    Return,
}

impl StatementWord {
    /// The word of a statement that the token is.
    pub fn of(token: Option<&Token>) -> Option<StatementWord>
        ensures { result ≡ words.statement_word (option_map (λ t. token_of t.now) token.entry) }
    {
        let Some(Token::Keyword(keyword)) = token else {
            return None;
        };
        match keyword {
            Keyword::If => Some(StatementWord::If),
            Keyword::While => Some(StatementWord::While),
            Keyword::Do => Some(StatementWord::Do),
            Keyword::For => Some(StatementWord::For),
            Keyword::Switch => Some(StatementWord::Switch),
            Keyword::Break => Some(StatementWord::Break),
            Keyword::Continue => Some(StatementWord::Continue),
            Keyword::Goto => Some(StatementWord::Goto),
            Keyword::Return => Some(StatementWord::Return),
            _ => None,
        }
    }

    /// Whether such a statement holds blocks.
    pub fn holds_blocks(self) -> bool
        ensures { result ≡ words.holds_blocks self }
    {
        match self {
            StatementWord::If | StatementWord::While | StatementWord::Do => true,
            StatementWord::For | StatementWord::Switch => true,
            _ => false,
        }
    }
}
