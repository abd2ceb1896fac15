//! Tests of the passes between the procedures of programs, by their public calls.
#![tactic(auto)]

#[cfg(test)]
mod passing;
#[cfg(test)]
mod programs;
#[cfg(test)]
mod relations;
#[cfg(test)]
mod texts;
