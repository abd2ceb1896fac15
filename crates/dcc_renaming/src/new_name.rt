//! What a line of a names file says.

/// A new name. Each name has 1 to 31 letters, digits and `_`, and does not begin with a digit.
#[derive(Drop)]
pub struct NewName {
    /// The function whose parameter or local variable has the new name; None for a global variable or a function.
    pub func: Option<String>,
    /// The name before.
    pub was: String,
    /// The name after.
    pub now: String,
    /// The line that says so, from 1.
    pub line: u32,
}
