//! Why a step is refused.

/// Why a step is refused that reads or writes.
#[derive(Clone, Copy, PartialEq, Eq, Debug)]
pub enum Fault {
    /// A read of the input failed.
    Input,
    /// A write to the output failed.
    Output,
}
