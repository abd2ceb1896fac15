//! The machine's stack in clean runs of accepted programs.
#![tactic(auto)]

mod laws;

pub use laws::{
    accepted_programs_are_in_form, calls_have_room, clean_steps_stand, clean_steps_write_apart,
    frames_are_few, frames_stand, runs_follow_trails, slots_are_carried,
};
