//! Why a step of a program's run is not clean.

/// In which way a step that is not clean uses the stack.
#[derive(Clone, Copy, PartialEq, Eq, Debug)]
pub enum FoulKind {
    /// SP would fall below 0, or below the stack's low end.
    Low,
    /// A byte of the stack is touched that the frame which holds it doesn't expose, or that no frame holds, otherwise
    /// than by a push, a pop, a call, a return or a direct access to the frame.
    Hidden,
    /// A byte of the stack is read that no step has stored since SP last left it behind.
    Unwritten,
}
