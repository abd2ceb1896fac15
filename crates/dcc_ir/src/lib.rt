//! The inner language between the machine and the C text: its syntax and its meaning.
//!
//! It is the low-level intermediate language that becomes the high-level one pass by pass (C. Cifuentes,
//! Reverse Compilation Techniques, 1994, chapters 4 and 5).
#![tactic(auto)]

pub mod facts;
pub mod laws;
pub mod plain;
pub mod syntax;

pub use facts::{Live, Sum, Sums};
pub use syntax::{
    BinOp, Block, End, Expr, Graph, IrProgram, Loc, PASSED_LOCATIONS, Param, Put, Stmt, UnOp,
};
