//! Tests of the analyses of executables, and of what needs them: procedures, heights of the stack, frames, watched runs,
//! and the runs of lifted programs. Expected values come from references apart from this code.
#![tactic(auto)]

#[cfg(test)]
mod frames;
#[cfg(test)]
mod heights;
#[cfg(test)]
mod lifted_runs;
#[cfg(test)]
mod procedures;
#[cfg(test)]
mod watches;
