//! Calls.

use dcc_value::expression::Target;
use dcc_value::variable::Binding;

/// A call: its function, the point where it goes on, its base, and its parameters and local variables.
#[derive(Drop)]
pub struct Call {
    /// The number of the function.
    pub procedure: usize,
    /// The point where the call goes on.
    pub at: usize,
    /// The base of the call: an address.
    pub base: u16,
    /// The parameters of the function, and then its local variables.
    pub variables: Vec<Binding>,
}

/// A call that waits for another one to return, and where it wants the result.
#[derive(Drop)]
pub struct Waiting {
    /// The call that waits.
    pub call: Call,
    /// Where the waiting call wants the result.
    pub target: Option<Target>,
}
