//! Tests of signatures. Expected values come from a reference apart from this code.
#![tactic(auto)]

#[cfg(test)]
mod files;
#[cfg(test)]
mod procedures;
