//! Tests of what reads, writes and runs texts, and of what tells their shape. Expected values come from references
//! apart from this code.
#![tactic(auto)]

#[cfg(test)]
mod casts;
#[cfg(test)]
mod lexing;
#[cfg(test)]
mod named;
#[cfg(test)]
mod parsing;
#[cfg(test)]
mod printing;
#[cfg(test)]
mod shapes;
#[cfg(test)]
mod text_runs;
