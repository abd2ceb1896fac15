//! A text that is made ready to run: for each function its points, and what is executed at each of them.

use dcc_c::CType;
use dcc_value::expression::Resolved;
use dcc_value::variable::Binding;

/// The DOS calls.
#[derive(Clone, Copy, PartialEq, Eq, Debug)]
pub enum Dos {
    /// Writes a byte.
    Putc,
    /// Takes a key and writes it.
    Getche,
    /// Takes a key.
    Getch,
    /// Writes the bytes from an address on up to a `$`.
    Puts,
    /// Ends the run.
    Leave,
}

/// What is called.
#[derive(Clone, Copy, PartialEq, Eq, Debug)]
pub enum Callee {
    /// A DOS call.
    Dos(Dos),
    /// The function of this number.
    Function(usize),
    /// Nothing has the name.
    Unknown,
}

/// A call, and the point after it.
#[derive(Drop)]
pub struct CallRow {
    /// The place of the result.
    pub place: Option<Resolved>,
    /// What is called.
    pub callee: Callee,
    /// The arguments.
    pub arguments: Vec<Resolved>,
    /// The depth in force, in bytes.
    pub depth: u32,
    /// The point after the call.
    pub next: usize,
}

/// An arm of a `switch`: its cases, and the point where its body begins.
#[derive(Drop)]
pub struct Case {
    /// The values of its `case` labels.
    pub values: Vec<u16>,
    /// The point.
    pub point: usize,
}

/// What is executed at a point, and the points where the run goes on.
#[derive(Drop)]
pub enum Action {
    /// Nothing is executed; the run goes on at the point.
    Pass(usize),
    /// The place takes the value, and the run goes on at the point.
    Assign(Resolved, Resolved, usize),
    /// A call.
    Call(CallRow),
    /// The run goes on at the first of the points where the value is not 0, and at the second where it is.
    Test(Resolved, usize, usize),
    /// The run goes on at the point of the case that the value is, or else at the last point. Of two arms with
    /// one case the later one in this list counts.
    Switch(Resolved, Vec<Case>, usize),
    /// The run goes on at the label of this number.
    Goto(usize),
    /// The call returns, with a value where there is one.
    Return(Option<Resolved>),
    /// The closing brace of the function.
    Close,
    /// There is no step.
    Stuck,
}

/// What is executed at a point, with the line of the text where it stands.
#[derive(Drop)]
pub struct Row {
    /// What is executed.
    pub action: Action,
    /// The line.
    pub line: u32,
}

/// A label of a function, or the goal of a `goto` in it, and the point where it stands, where it does.
#[derive(Drop)]
pub struct Label {
    /// The name of the label.
    pub name: String,
    /// The point.
    pub point: Option<usize>,
}

/// A parameter or a local variable. Where it is in memory, its address lies a number of bytes above the base of the
/// call, modulo 65536.
#[derive(Clone, Copy, PartialEq, Eq, Debug)]
pub struct Variable {
    /// The type of the variable, or of its elements where it is an array.
    pub ty: CType,
    /// Whether the variable is an array.
    pub is_array: bool,
    /// The bytes above the base.
    pub offset: Option<u16>,
}

/// A function.
#[derive(Drop)]
pub struct Procedure {
    /// Whether the function is `start`, which has no end of its own.
    pub is_start: bool,
    /// The type of its result.
    pub result: Option<CType>,
    /// The parameters of the function.
    pub params: Vec<Variable>,
    /// The local variables of the function.
    pub locals: Vec<Variable>,
    /// The points of the function.
    pub rows: Vec<Row>,
    /// The labels of the function.
    pub labels: Vec<Label>,
    /// The point where its body begins.
    pub entry: usize,
}

/// A whole text.
#[derive(Drop)]
pub struct Program {
    /// The global variables.
    pub globals: Vec<Binding>,
    /// The functions, in their order.
    pub procedures: Vec<Procedure>,
}
