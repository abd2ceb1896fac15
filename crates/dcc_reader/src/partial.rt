//! The syntax of a text as far as it has been read: trees in which parts may be missing, and which know where their
//! parts stand. A place is the number of pieces before it. Names are borrowed from the text.

use dcc_c::{Base, CBin, CType, CUn, Class};

/// A number and its place.
#[derive(Clone, Copy, PartialEq, Eq, Debug)]
pub struct NumberAt {
    /// The number.
    pub value: u32,
    /// The place of the number.
    pub at: u32,
}

/// The number of a case and its place.
#[derive(Clone, Copy, PartialEq, Eq, Debug)]
pub struct CaseAt {
    /// The number.
    pub value: u16,
    /// The place of the number.
    pub at: u32,
}

/// A name and its place.
#[derive(Clone, Copy)]
pub struct WordAt<'a> {
    /// The name.
    pub word: &'a str,
    /// The place of the name.
    pub at: u32,
}

/// An expression.
#[derive(Drop)]
#[cycle(expression)]
pub enum PartialExpr<'a> {
    /// An expression that has not been read.
    Missing,
    /// A number: its place, the number, and its type.
    Number(u32, u32, Base),
    /// Whether an opening parenthesis follows, its place, and a name. The truth value takes no room where it is first.
    Name(bool, u32, &'a str),
    /// A unary operator: its place, the operator, and the operand.
    Unary(u32, CUn, Box<PartialExpr<'a>>),
    /// A binary operator and its operands.
    Binary(CBin, Box<PartialExpr<'a>>, Box<PartialExpr<'a>>),
    /// `a ? b : c`.
    Conditional(Box<PartialChoice<'a>>),
    /// A cast: its place, the type, and what is converted to it.
    Cast(u32, CType, Box<PartialExpr<'a>>),
}

/// The three operands of `a ? b : c`.
#[derive(Drop)]
#[cycle(expression)]
pub struct PartialChoice<'a> {
    /// The test.
    pub test: PartialExpr<'a>,
    /// The value where it holds.
    pub first: PartialExpr<'a>,
    /// The value where it does not.
    pub second: PartialExpr<'a>,
}

/// A call.
#[derive(Drop)]
pub struct PartialCall<'a> {
    /// The function that is called.
    pub function: WordAt<'a>,
    /// The arguments of the call.
    pub arguments: Vec<PartialExpr<'a>>,
    /// Whether the closing parenthesis was read.
    pub closed: bool,
    /// The depth of the call in bytes.
    pub depth: u32,
}

/// A statement. The truth value says that it was read to its end, or of one with a test that the parenthesis after the
/// test was.
#[derive(Drop)]
#[cycle(statement)]
pub enum PartialStmt<'a> {
    /// A place, and the value where the `=` was read.
    Assign(PartialExpr<'a>, Option<PartialExpr<'a>>, bool),
    /// The place of the result, where there is one, and the call.
    Call(Option<PartialExpr<'a>>, PartialCall<'a>),
    /// `if`: the test, the statements where it holds, and those of `else`.
    If(PartialExpr<'a>, bool, Vec<Row<'a>>, Vec<Row<'a>>),
    /// `while`: the test and the body.
    While(PartialExpr<'a>, bool, Vec<Row<'a>>),
    /// `do` and `while`: the body and the test.
    DoWhile(Vec<Row<'a>>, PartialExpr<'a>, bool),
    /// `for (;;)`.
    Forever(Vec<Row<'a>>),
    /// `switch`: the value and the arms.
    Switch(PartialExpr<'a>, bool, Vec<PartialArm<'a>>),
    /// `break;`.
    Break,
    /// `continue;`.
    Continue,
    /// `goto` and its label.
    Goto(Option<WordAt<'a>>),
    /// A label.
    Label(WordAt<'a>),
    /// `;`.
    Empty,
    /// `return`, with a value where one was read.
    Return(Option<PartialExpr<'a>>, bool),
}

/// A statement with its place and its line.
#[derive(Drop)]
#[cycle(statement)]
pub struct Row<'a> {
    /// The statement.
    pub stmt: PartialStmt<'a>,
    /// The place of the statement.
    pub at: u32,
    /// The line of the statement, from 1.
    pub line: u32,
}

/// An arm of a `switch`.
#[derive(Drop)]
#[cycle(statement)]
pub struct PartialArm<'a> {
    /// The numbers of its cases.
    pub numbers: Vec<CaseAt>,
    /// The place of `default`, where the arm has that.
    pub default: Option<u32>,
    /// The statements of the arm, without the `break` that ends it.
    pub body: Vec<Row<'a>>,
}

/// A variable.
#[derive(Drop)]
pub struct PartialVariable<'a> {
    /// The name of the variable.
    pub name: Option<WordAt<'a>>,
    /// The type of the variable, or of an element of an array.
    pub ty: Option<CType>,
    /// The storage class of the variable.
    pub class: Class,
    /// The number of elements of an array.
    pub size: Option<NumberAt>,
    /// The initial values of the variable.
    pub init: Vec<NumberAt>,
    /// The address of a global variable, which may be beyond memory.
    pub address: u64,
    /// Whether its declaration was read to its end.
    pub done: bool,
}

/// A function.
#[derive(Drop)]
pub struct PartialFunction<'a> {
    /// The place of the function.
    pub at: u32,
    /// Whether its result is a type.
    pub has_result: bool,
    /// The type of the result, if it could be read.
    pub result: Option<CType>,
    /// The name of the function.
    pub name: Option<WordAt<'a>>,
    /// The place after the opening parenthesis of its head, where that was read.
    pub opened: Option<u32>,
    /// Whether `void` stands at that place.
    pub without_params: bool,
    /// The parameters of the function.
    pub params: Vec<PartialVariable<'a>>,
    /// Whether its head was read to its closing parenthesis.
    pub headed: bool,
    /// The local variables of the function.
    pub locals: Vec<PartialVariable<'a>>,
    /// The statements of the function.
    pub body: Vec<Row<'a>>,
    /// The line of its closing brace.
    pub last: u32,
}

/// A text after its version line.
#[derive(Drop)]
pub struct PartialText<'a> {
    /// The first number of the stack line.
    pub lo: Option<NumberAt>,
    /// The second number of the stack line.
    pub hi: Option<NumberAt>,
    /// The global variables.
    pub globals: Vec<PartialVariable<'a>>,
    /// The functions.
    pub functions: Vec<PartialFunction<'a>>,
}
