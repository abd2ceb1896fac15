//! Files of small programs, and calls of the top call on them, over files and streams in memory, for the tests.
#![tactic(auto)]

pub mod files;
