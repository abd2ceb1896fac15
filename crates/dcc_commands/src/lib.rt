//! The words of the command line, and the job that they ask for.
#![tactic(auto)]

pub mod job;
pub mod words;

pub use job::{Attempt, Execution, Job, Product, TextExecution};
pub use words::job_of;
