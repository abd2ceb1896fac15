//! The first offence of what has been read of a text.
#![tactic(auto)]

mod check_block;
mod check_call;
mod check_expression;
mod check_statement;
mod context;
mod names;
mod operand;
mod places;
mod text;

pub use text::first_offence;
