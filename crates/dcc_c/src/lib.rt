//! The C dialect that is written and run: its syntax, its types and its meaning (after ISO/IEC 9899:1990).
#![tactic(auto)]

pub mod syntax;
pub mod types;

pub use syntax::{
    Arm, Base, CBin, CExpr, CStmt, CType, CUn, Class, Func, Global_, Line, Unit, Var,
};
