//! A reader of pieces: it takes pieces as long as they are allowed, and sees none after the first that is not.

ghost use Rattle.std.specs.Prelude.{◌≡◌, ◌&&◌, true, is_some, Some, None};
ghost use Rattle.std.specs.Option.{option_map};
ghost use Rattle.dcc_c.specs.Kinds as kinds;
ghost use Rattle.dcc_c.specs.Reading as reading;
ghost use Rattle.dcc_c.specs.ReadingStatements as statements;
ghost use Rattle.dcc_c.specs.ReadingText as texts;
ghost use Rattle.dcc_lex.specs.PiecesViews.{pieces_of};
ghost use Rattle.dcc_lex.specs.TokenViews.{mark_of, head_of, keyword_of, token_of};
ghost use Rattle.dcc_reader.specs.OffenceViews.{kind_of};
ghost use Rattle.dcc_reader.specs.PartialViews.{number_of, word_of};
ghost use Rattle.dcc_reader.specs.ReaderViews.{reader_of};
ghost use Rattle.dcc_reader.specs.Words as words;

use crate::offence::{Offence, ParseKind};
use crate::partial::{NumberAt, WordAt};
use crate::statement_word::StatementWord;
use crate::token::{begins_type, is_the_head, is_the_mark, is_the_word, name_of, plain_of};
use dcc_c::{Base, CType};
use dcc_lex::{Head, Keyword, Mark, Pieces, Token};

/// A reader of pieces.
#[derive(Clone, Copy)]
pub struct Reader<'a> {
    /// The pieces that have not been read, after as many as have been.
    pub left: Pieces<'a>,
    /// The offence at which reading stopped.
    pub stop: Option<Offence>,
    /// The depth of calls in force, in bytes.
    pub depth: u32,
}

impl<'a> Reader<'a> {
    /// Whether reading has stopped.
    pub fn is_stopped(&self) -> bool
        ensures { result ≡ reading.is_stopped (reader_of self.now) }
    {
        self.stop.is_some()
    }

    /// The next token.
    pub fn next(&self) -> Option<&Token<'a>>
        ensures { option_map (λ t. token_of t.now) result ≡ reading.next_token (reader_of self.now) }
    {
        if self.stop.is_some() {
            return None;
        }
        self.left.first()?.token.as_ref()
    }

    /// The token after the next piece, where there is a next token.
    pub fn second(&self) -> Option<Token<'a>>
        requires seen { is_some (reading.next_token (reader_of self.now)) ≡ true }
        ensures { option_map token_of result ≡ reading.second_token (reader_of self.now) }
    {
        self.left.second()?.token
    }

    /// The line of the next piece; 0 at the end.
    pub fn line(&self) -> u32
        ensures { result ≡ reading.line_of (reader_of self.now).left }
    {
        match self.left.first() {
            Some(piece) => piece.line,
            None => 0,
        }
    }

    /// Whether the next token is the mark.
    pub fn sees_mark(&self, mark: Mark) -> bool
        ensures { result ≡ reading.sees_mark (mark_of mark) (reader_of self.now) }
    {
        is_the_mark(self.next(), mark)
    }

    /// Whether the next token is the keyword.
    pub fn sees_word(&self, keyword: Keyword) -> bool
        ensures { result ≡ reading.sees_word (keyword_of keyword) (reader_of self.now) }
    {
        is_the_word(self.next(), keyword)
    }

    /// Whether the next token is the words of the pragma.
    pub fn sees_head(&self, head: Head) -> bool
        ensures { result ≡ statements.sees_head (head_of head) (reader_of self.now) }
    {
        is_the_head(self.next(), head)
    }

    /// The name that the next token is: a word that is no keyword.
    pub fn name(&self) -> Option<&'a str>
        ensures { option_map (λ word. word.now) result ≡ reading.name_of (reading.next_token (reader_of self.now)) }
    {
        name_of(self.next())
    }

    /// Whether the next token is a name, and the one after it the mark.
    pub fn sees_name_and(&self, mark: Mark) -> bool
        ensures { result ≡ is_some (reading.name_of (reading.next_token (reader_of self.now)))
            && reading.is_the_mark (mark_of mark) (reading.second_token (reader_of self.now)) }
    {
        // The name is looked for first: of most tokens the one after them need not be looked at.
        if self.name().is_none() {
            return false;
        }
        let second = self.second();
        is_the_mark(second.as_ref(), mark)
    }

    /// Whether a type begins with the next token.
    pub fn sees_type(&self) -> bool
        ensures { result ≡ reading.begins_type (reading.next_token (reader_of self.now)) }
    {
        begins_type(self.next())
    }

    /// The word of a statement that the next token is.
    pub fn statement_word(&self) -> Option<StatementWord>
        ensures { result ≡ words.statement_word (reading.next_token (reader_of self.now)) }
    {
        StatementWord::of(self.next())
    }

    /// Goes past the next piece.
    pub fn skip(&mut self)
        requires seen { is_some (reading.next_token (reader_of self.now)) ≡ true }
        ensures { reader_of self.new ≡ reading.skip (reader_of self.old) }
    {
        self.left.skip();
    }

    /// Stops, where it has not stopped yet, at an offence.
    pub fn stop_at(&mut self, kind: ParseKind, at: u32)
        ensures { reader_of self.new ≡ reading.stop_at (kind_of kind) at (reader_of self.old) }
    {
        if self.stop.is_none() {
            self.stop = Some(Offence { at, kind });
        }
    }

    // The kind of the next piece, which is not allowed, or of the end.
    fn stop_kind(&self) -> ParseKind
        ensures { kind_of result ≡ reading.stop_kind (reader_of self.now).left }
    {
        match self.left.first() {
            Some(piece) if piece.token.is_none() => ParseKind::Token,
            _ => ParseKind::Grammar,
        }
    }

    /// Stops at the next piece, which is not allowed.
    pub fn fail(&mut self)
        ensures { reader_of self.new ≡ reading.fail (reader_of self.old) }
    {
        self.stop_at(self.stop_kind(), self.left.at);
    }

    /// Takes the mark, which must stand here.
    pub fn take_mark(&mut self, mark: Mark)
        ensures { reader_of self.new ≡ reading.take_mark (mark_of mark) (reader_of self.old) }
    {
        if self.sees_mark(mark) {
            self.skip();
        } else {
            self.fail();
        }
    }

    /// Takes the keyword, which must stand here.
    pub fn take_word(&mut self, keyword: Keyword)
        ensures { reader_of self.new ≡ reading.take_word (keyword_of keyword) (reader_of self.old) }
    {
        if self.sees_word(keyword) {
            self.skip();
        } else {
            self.fail();
        }
    }

    /// Takes the words of the pragma, which must stand here.
    pub fn take_head(&mut self, head: Head)
        ensures { reader_of self.new ≡ statements.take_head (head_of head) (reader_of self.old) }
    {
        if self.sees_head(head) {
            self.skip();
        } else {
            self.fail();
        }
    }

    /// Takes a name, which must stand here.
    pub fn take_name(&mut self) -> Option<WordAt<'a>>
        ensures { reading.got (option_map word_of result) (reader_of self.new)
            ≡ reading.take_name (reader_of self.old) }
    {
        match self.name() {
            Some(word) => {
                let at = self.left.at;
                self.skip();
                Some(WordAt { word, at })
            }
            None => {
                self.fail();
                None
            }
        }
    }

    /// Takes a decimal number without suffix, which must stand here.
    pub fn take_plain(&mut self) -> Option<NumberAt>
        ensures { reading.got (option_map number_of result) (reader_of self.new)
            ≡ reading.take_plain (reader_of self.old) }
    {
        match plain_of(self.next()) {
            Some(value) => {
                let at = self.left.at;
                self.skip();
                Some(NumberAt { value, at })
            }
            None => {
                self.fail();
                None
            }
        }
    }

    /// Takes a type, which must stand here.
    pub fn take_type(&mut self) -> Option<CType>
        ensures { reading.got result (reader_of self.new) ≡ reading.take_type (reader_of self.old) }
    {
        let base = self.take_base()?;
        Some(self.with_star(base))
    }

    // A pointer to the base where a star stands here, else the base.
    fn with_star(&mut self, base: Base) -> CType
        ensures { reading.got (Some result) (reader_of self.new) ≡ reading.with_star base (reader_of self.old) }
    {
        let pointer = self.sees_mark(Mark::Star);
        if pointer {
            self.skip();
        }
        CType { base, pointer }
    }

    // Takes a number type, which must stand here.
    fn take_base(&mut self) -> Option<Base>
        ensures { reading.got result (reader_of self.new) ≡ reading.take_base (reader_of self.old) }
    {
        if self.sees_word(Keyword::Int) {
            self.base_after(Base::Int)
        } else if self.sees_word(Keyword::Long) {
            self.base_after(Base::Long)
        } else if self.sees_word(Keyword::Signed) {
            self.skip();
            self.signed_base()
        } else if self.sees_word(Keyword::Unsigned) {
            self.skip();
            self.unsigned_base()
        } else {
            self.fail();
            None
        }
    }

    // The base after `signed`.
    fn signed_base(&mut self) -> Option<Base>
        ensures { reading.got result (reader_of self.new) ≡ reading.signed_base (reader_of self.old) }
    {
        if self.sees_word(Keyword::Char) {
            self.base_after(Base::Schar)
        } else {
            self.fail();
            None
        }
    }

    // The base after `unsigned`.
    fn unsigned_base(&mut self) -> Option<Base>
        ensures { reading.got result (reader_of self.new) ≡ reading.unsigned_base (reader_of self.old) }
    {
        if self.sees_word(Keyword::Char) {
            self.base_after(Base::Uchar)
        } else if self.sees_word(Keyword::Int) {
            self.base_after(Base::Uint)
        } else if self.sees_word(Keyword::Long) {
            self.base_after(Base::Ulong)
        } else {
            self.fail();
            None
        }
    }

    // The base, after its last word.
    fn base_after(&mut self, base: Base) -> Option<Base>
        requires seen { is_some (reading.next_token (reader_of self.now)) ≡ true }
        ensures { reading.got result (reader_of self.new) ≡ reading.base_following base (reader_of self.old) }
    {
        self.skip();
        Some(base)
    }
}

/// A reader at the first of the pieces.
pub fn reader_at<'a>(rest: &Pieces<'a>) -> Reader<'a>
    ensures { reader_of result ≡ texts.reader_of (pieces_of rest.now) }
{
    Reader {
        left: rest.from_here(),
        stop: None,
        depth: 2,
    }
}

/// How deep reading may nest, which is enough for the pieces of every text.
pub const ENOUGH_CALLS: usize = 16 * 67108864 + 16;
