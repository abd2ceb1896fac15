//! What the top call answers. Outputs and exit codes come from a reference of the machine and of the dialect apart from
//! this one.

mod answers;
mod assemblies;
mod listings;
mod runs;
mod texts;
mod trials;
mod watches;
