//! Tests of stored rules and of what simplifies by them, by their public calls.
#![tactic(auto)]

#[cfg(test)]
mod further;
#[cfg(test)]
mod rows;
#[cfg(test)]
mod shapes;
