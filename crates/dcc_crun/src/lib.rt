//! The run of a text, step by step.
#![tactic(auto)]

mod call;
mod ending;
mod moment;
mod run;

pub use ending::CStepped;
pub use run::CRun;
