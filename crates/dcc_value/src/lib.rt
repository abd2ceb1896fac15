//! Values of a text, and expressions whose names are resolved to places of variables.
#![tactic(auto)]

pub mod declarations;
pub mod expression;
pub mod places;
pub mod resolve;
pub mod value;
pub mod variable;
