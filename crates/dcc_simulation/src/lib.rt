//! The machine in clean runs of accepted programs, and the inner language's run beside it.
#![tactic(auto)]

mod laws;

pub use laws::{
    addresses_are_told, call_nodes_agree, calls_begin, calls_return, exits_lead,
    found_places_stand, frames_are_read, frames_are_written, nodes_agree, operands_are_read,
    operands_are_written, operation_nodes_agree, operations_agree, pieces_have_places,
    pointers_are_set, pointers_move, return_nodes_agree, runs_are_coupled, runs_begin,
    special_nodes_agree, stack_nodes_agree, steps_agree, words_are_pushed,
};
