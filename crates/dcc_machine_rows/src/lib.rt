//! Tests of what reads and executes executables: the loader, the decoder, layouts, the machine, and the plain run of the
//! inner language. Expected values come from references apart from this code.
#![tactic(auto)]

#[cfg(test)]
mod decoding;
#[cfg(test)]
mod inner_runs;
#[cfg(test)]
mod layouts;
#[cfg(test)]
mod loading;
#[cfg(test)]
mod refusals;
#[cfg(test)]
mod steps;
