//! Divisions that nothing asks for.
//!
//! One instruction of the machine gives a quotient and a remainder, of which a program mostly wants one. The other can't
//! simply go, since a division ends the run where it faults; it may where the first one faults alike.
#![tactic(auto)]

mod alike;
mod left;

pub use left::drop_divisions;
