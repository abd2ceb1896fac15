//! The passes that make the graphs of a prepared program plainer, in their order.
#![tactic(auto)]

mod tidying;

pub use tidying::tidied_graphs;
