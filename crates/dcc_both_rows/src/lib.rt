//! Tests of texts beside their programs: both sides on the same inputs, and the blocks, lines and functions of texts.
//! Outputs and exit codes come from a reference of the machine and of the dialect apart from this one.
#![tactic(auto)]

#[cfg(test)]
mod both;
#[cfg(test)]
mod calls;
#[cfg(test)]
mod functions;
#[cfg(test)]
mod lifted;
#[cfg(test)]
mod maps;
#[cfg(test)]
mod memory;
#[cfg(test)]
mod moves;
#[cfg(test)]
mod processors;
#[cfg(test)]
mod structure;
