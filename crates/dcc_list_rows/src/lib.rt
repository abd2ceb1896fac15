//! Tests of listings and of the assembler. Expected values come from references apart from this code.
#![tactic(auto)]

#[cfg(test)]
mod assembled;
#[cfg(test)]
mod listed;
