//! Laws on deterministic runs.
#![tactic(auto)]
