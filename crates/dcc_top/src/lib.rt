//! The top call: words, files and answers.
#![tactic(auto)]

pub mod assemble_job;
pub mod deliver;
pub mod execute;
pub mod fetch;
pub mod make_job;
pub mod procedures;
pub mod reply;
pub mod text_job;
pub mod top;
pub mod trial_job;
pub mod watch_job;
