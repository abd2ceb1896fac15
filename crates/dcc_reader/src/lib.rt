//! A reader of the pieces of a text, the partial trees that reading makes, and the reading of declarations and of the
//! heads of functions.
#![tactic(auto)]

pub mod around;
pub mod declaration;
pub mod first;
pub mod head;
pub mod labels;
pub mod list;
pub mod offence;
pub mod operator;
pub mod partial;
pub mod pragma;
pub mod reader;
pub mod spare;
pub mod statement_word;
pub mod token;
pub mod unread;
pub mod words;

pub use around::Around;
pub use first::First;
pub use head::head_at;
pub use offence::{Offence, ParseKind};
pub use partial::{
    CaseAt, NumberAt, PartialArm, PartialCall, PartialChoice, PartialExpr, PartialFunction,
    PartialStmt, PartialText, PartialVariable, Row, WordAt,
};
pub use reader::Reader;
pub use statement_word::StatementWord;
