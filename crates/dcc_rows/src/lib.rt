//! Tests of the top call on whole files, over files and streams in memory.
#![tactic(auto)]

#[cfg(test)]
mod rows;
