//! The syntax of a text.

/// A number type. `char` has 8 bits, `int` 16 and `long` 32.
#[derive(Clone, Copy, PartialEq, Eq, Debug)]
pub enum Base {
    /// `signed char`.
    Schar,
    /// `unsigned char`.
    Uchar,
    /// `int`.
    Int,
    /// `unsigned int`.
    Uint,
    /// `long`.
    Long,
    /// `unsigned long`.
    Ulong,
}

/// A number type, or a pointer to one.
#[derive(Clone, Copy, PartialEq, Eq, Debug)]
pub struct CType {
    /// The number type, or that of what the pointer points to.
    pub base: Base,
    /// Whether the type is a pointer.
    pub pointer: bool,
}

/// A unary operator: `-`, `~`, `!`, `*` and `&`.
#[derive(Clone, Copy, PartialEq, Eq, Debug)]
pub enum CUn {
    /// `-`.
    Minus,
    /// `~`.
    Complement,
    /// `!`.
    Not,
    /// `*`.
    Deref,
    /// `&`.
    AddressOf,
}

/// A binary operator, from the weakest to the strongest.
#[derive(Clone, Copy, PartialEq, Eq, Debug)]
pub enum CBin {
    /// `||`.
    OrOr,
    /// `&&`.
    AndAnd,
    /// `|`.
    Or,
    /// `^`.
    Xor,
    /// `&`.
    And,
    /// `==`.
    Eq,
    /// `!=`.
    Ne,
    /// `<`.
    Lt,
    /// `<=`.
    Le,
    /// `>`.
    Gt,
    /// `>=`.
    Ge,
    /// `<<`.
    Shl,
    /// `>>`.
    Shr,
    /// `+`.
    Add,
    /// `-`.
    Sub,
    /// `*`.
    Mul,
    /// `/`.
    Div,
    /// `%`.
    Rem,
}

/// An expression.
#[derive(Drop)]
pub enum CExpr {
    /// A number and its type.
    Num(u32, Base),
    /// A variable by its name.
    Name(String),
    /// A unary operator and its operand.
    Un(CUn, Box<CExpr>),
    /// A binary operator, its left and its right operand.
    Bin(CBin, Box<CExpr>, Box<CExpr>),
    /// `a ? b : c`.
    Cond(Box<CExpr>, Box<CExpr>, Box<CExpr>),
    /// A type and what is converted to it.
    Cast(CType, Box<CExpr>),
}

/// A statement.
#[derive(Drop)]
#[cycle(statement)]
pub enum CStmt {
    /// A place and the value that it takes.
    Assign(CExpr, CExpr),
    /// The place that takes the result, the function, its arguments, and the depth in force in bytes.
    Call(Option<CExpr>, String, Vec<CExpr>, u32),
    /// `if`: the condition, the lines where it holds, and those of `else`.
    If(CExpr, Vec<Line>, Vec<Line>),
    /// `while`: the condition and the body.
    While(CExpr, Vec<Line>),
    /// `do` and `while`: the body and the condition.
    DoWhile(Vec<Line>, CExpr),
    /// `for (;;)`.
    Forever(Vec<Line>),
    /// The value, the arms with cases, and the default arm, whose cases are empty.
    Switch(CExpr, Vec<Arm>, Option<Arm>),
    /// `break;`.
    Break,
    /// `continue;`.
    Continue,
    /// `goto` and its label.
    Goto(String),
    /// A label by its name.
    Label(String),
    /// `;`.
    Empty,
    /// `return`, with a value where the function has one.
    Return(Option<CExpr>),
}

/// A statement with the line where it begins, from 1; 0 before a unit is numbered.
#[derive(Drop)]
#[cycle(statement)]
pub struct Line {
    /// The statement.
    pub stmt: CStmt,
    /// The line where the statement begins, from 1.
    pub line: u32,
}

/// An arm of a `switch`, without the `break` that ends it.
#[derive(Drop)]
#[cycle(statement)]
pub struct Arm {
    /// The values of its `case` labels.
    pub cases: Vec<u16>,
    /// The statements of the arm, without the `break` that ends it.
    pub body: Vec<Line>,
}

/// How a local variable or a parameter is stored.
#[derive(Clone, Copy, PartialEq, Eq, Debug)]
pub enum Class {
    /// No storage class is written.
    Plain,
    /// `auto`.
    Auto,
    /// `register`.
    Register,
}

/// A global variable at its address; `len` elements where it is an array.
#[derive(Drop)]
pub struct Global_ {
    /// The name of the global variable.
    pub name: String,
    /// The address of its first byte.
    pub at: u32,
    /// The type of the variable, or of an element of an array.
    pub ty: CType,
    /// The number of elements of an array.
    pub len: Option<u32>,
    /// The first initial values of the variable, in their order; what follows is 0.
    pub init: Vec<u32>,
}

/// A local variable or a parameter; `len` elements where it is an array.
#[derive(Drop)]
pub struct Var {
    /// The name of the variable.
    pub name: String,
    /// The type of the variable, or of an element of an array.
    pub ty: CType,
    /// The number of elements of an array.
    pub len: Option<u32>,
    /// The storage class of the variable.
    pub class: Class,
}

/// A function; `last` is the line of its closing brace.
#[derive(Drop)]
pub struct Func {
    /// The name of the function.
    pub name: String,
    /// The type of its result; None for `void`.
    pub result: Option<CType>,
    /// The parameters of the function, in their order.
    pub params: Vec<Var>,
    /// The local variables of the function, in the order of their declarations.
    pub locals: Vec<Var>,
    /// The statements of the function.
    pub body: Vec<Line>,
    /// The line of its closing brace.
    pub last: u32,
}

/// A whole text.
#[derive(Drop)]
pub struct Unit {
    /// The number in the text's version line.
    pub version: u8,
    /// The lowest offset of the stack.
    pub lo: u16,
    /// The offset just above the stack.
    pub hi: u16,
    /// The global variables of the text, in their order.
    pub globals: Vec<Global_>,
    /// The functions of the text, in their order; a run begins with the first.
    pub funcs: Vec<Func>,
}
