//! The syntax of a program. A number of bits is 1, 8, 16 or 32.

ghost use Rattle.std.specs.Prelude.{◌≡◌, IfOk};
ghost use Rattle.dcc_ir.specs.Location as location;
ghost use Rattle.dcc_ir.specs.Tree as tree;
ghost use Rattle.dcc_ir.specs.Value as value;
ghost use Rattle.dcc_ir.specs.Views.{expr_of};

use dcc_num::{FlagName, Half, Reg};
use std::alloc::{AllocError, Global};

/// A location: what a call of a procedure has of its own.
#[derive(Clone, Copy, PartialEq, Eq, Debug)]
pub enum Loc {
    /// One byte of AX, CX, DX, BX, SI or DI, 8 bits.
    Half(Reg, Half),
    /// A flag, 1 bit.
    Flag(FlagName),
    /// One byte of the frame's cell of that number, 8 bits.
    Cell(u16, Half),
    /// A temporary; its graph tells its bits.
    Temp(u32),
}

impl Loc {
    /// How many bits it has, where the temporaries have these; 0 for a temporary that there is not.
    pub fn width(self, bits: &[u8]) -> u8
        ensures { result ≡ location.location_width bits.now self }
    {
        match self {
            Loc::Half(_, _) | Loc::Cell(_, _) => 8,
            Loc::Flag(_) => 1,
            Loc::Temp(n) => bits.get(n as usize).copied().unwrap_or(0),
        }
    }
}

/// The halves of word registers and the flags that pass, in their order.
pub const PASSED_LOCATIONS: [Loc; 16] = [
    Loc::Half(Reg::Ax, Half::Low),
    Loc::Half(Reg::Ax, Half::High),
    Loc::Half(Reg::Cx, Half::Low),
    Loc::Half(Reg::Cx, Half::High),
    Loc::Half(Reg::Dx, Half::Low),
    Loc::Half(Reg::Dx, Half::High),
    Loc::Half(Reg::Bx, Half::Low),
    Loc::Half(Reg::Bx, Half::High),
    Loc::Half(Reg::Si, Half::Low),
    Loc::Half(Reg::Si, Half::High),
    Loc::Half(Reg::Di, Half::Low),
    Loc::Half(Reg::Di, Half::High),
    Loc::Flag(FlagName::Cf),
    Loc::Flag(FlagName::Zf),
    Loc::Flag(FlagName::Sf),
    Loc::Flag(FlagName::Of),
];

/// An operator on one operand.
#[derive(Clone, Copy, PartialEq, Eq, Debug)]
pub enum UnOp {
    Neg,
    Not,
    /// 1 where the operand is 0, else 0.
    IsZero,
}

impl UnOp {
    /// Whether the operator gives one bit.
    pub fn is_test(self) -> bool
        ensures { result ≡ value.is_test self }
    {
        match self {
            UnOp::IsZero => true,
            UnOp::Neg | UnOp::Not => false,
        }
    }
}

/// An operator on two operands. `S` takes them as signed numbers, `U` as unsigned ones.
#[derive(Clone, Copy, PartialEq, Eq, Debug)]
pub enum BinOp {
    Add,
    Sub,
    Mul,
    DivS,
    DivU,
    RemS,
    RemU,
    And,
    Or,
    Xor,
    Shl,
    Shr,
    Sar,
    Eq,
    LtS,
    LtU,
    LeS,
    LeU,
}

impl BinOp {
    /// Whether the operator is a comparison, which gives one bit.
    pub fn is_comparison(self) -> bool
        ensures { result ≡ value.is_comparison self }
    {
        match self {
            BinOp::Eq | BinOp::LtS | BinOp::LtU | BinOp::LeS | BinOp::LeU => true,
            _ => false,
        }
    }
}

/// An expression: a number of as many bits as its width.
#[derive(Drop)]
pub enum Expr {
    /// A width, and a number of that width.
    Const(u8, u32),
    /// What a location holds.
    Get(Loc),
    /// So many bits from an address, low byte first.
    Load(u8, Box<Expr>),
    /// An operator, the width of its operand, and the operand.
    Un(UnOp, u8, Box<Expr>),
    /// An operator, the width of its operands, the left one and the right one.
    Bin(BinOp, u8, Box<Expr>, Box<Expr>),
    /// Whether by sign, else by zeros; the greater width; and the operand that is extended to it.
    Widen(bool, u8, Box<Expr>),
    /// So many bits of an operand: how many, the number of the first of them, and the operand.
    Part(u8, u8, Box<Expr>),
    /// The number of which these are the high half and the low half.
    Join(Box<Expr>, Box<Expr>),
    /// A test, the value where it is 1, and the value where it is 0.
    Choose(Box<Expr>, Box<Expr>, Box<Expr>),
    /// The address at that distance from the base of the frame, 16 bits.
    Address(u16),
}

impl Expr {
    /// So many bits from an address.
    pub fn load(alloc: Global, width: u8, address: Expr) -> Result<Expr, AllocError>
        ensures { IfOk result (λ e. expr_of e ≡ tree.Load width (expr_of address)) }
    {
        Ok(Expr::Load(width, Box::new(alloc, address)?))
    }

    /// An operator on an operand of so many bits.
    pub fn unary(
        alloc: Global,
        operator: UnOp,
        width: u8,
        operand: Expr,
    ) -> Result<Expr, AllocError>
        ensures { IfOk result (λ e. expr_of e ≡ tree.Unary operator width (expr_of operand)) }
    {
        Ok(Expr::Un(operator, width, Box::new(alloc, operand)?))
    }

    /// An operator on two operands of so many bits.
    pub fn binary(
        alloc: Global,
        operator: BinOp,
        width: u8,
        left: Expr,
        right: Expr,
    ) -> Result<Expr, AllocError>
        ensures { IfOk result (λ e. expr_of e ≡ tree.Binary operator width (expr_of left) (expr_of right)) }
    {
        let left = Box::new(alloc, left)?;
        Ok(Expr::Bin(operator, width, left, Box::new(alloc, right)?))
    }

    /// An operand that is extended to so many bits, by its sign or by zeros.
    pub fn widen(alloc: Global, by_sign: bool, width: u8, operand: Expr) -> Result<Expr, AllocError>
        ensures { IfOk result (λ e. expr_of e ≡ tree.Widen by_sign width (expr_of operand)) }
    {
        Ok(Expr::Widen(by_sign, width, Box::new(alloc, operand)?))
    }

    /// So many bits of an operand, from that one on.
    pub fn part(alloc: Global, width: u8, first: u8, operand: Expr) -> Result<Expr, AllocError>
        ensures { IfOk result (λ e. expr_of e ≡ tree.Part width first (expr_of operand)) }
    {
        Ok(Expr::Part(width, first, Box::new(alloc, operand)?))
    }

    /// The number of these halves.
    pub fn join(alloc: Global, high: Expr, low: Expr) -> Result<Expr, AllocError>
        ensures { IfOk result (λ e. expr_of e ≡ tree.Join (expr_of high) (expr_of low)) }
    {
        let high = Box::new(alloc, high)?;
        Ok(Expr::Join(high, Box::new(alloc, low)?))
    }

    /// One value where the test is 1, and the other where it is 0.
    pub fn choose(alloc: Global, test: Expr, one: Expr, other: Expr) -> Result<Expr, AllocError>
        ensures { IfOk result (λ e. expr_of e ≡ tree.Choose (expr_of test) (expr_of one) (expr_of other)) }
    {
        let test = Box::new(alloc, test)?;
        let one = Box::new(alloc, one)?;
        Ok(Expr::Choose(test, one, Box::new(alloc, other)?))
    }
}

/// A statement.
#[derive(Drop)]
pub enum Stmt {
    /// The place takes the value.
    Set {
        place: Loc,
        value: Expr,
    },
    /// The place takes so many bits from the address.
    Load {
        place: Loc,
        width: u8,
        address: Expr,
    },
    /// So many bits of the value are stored at the address.
    Store {
        width: u8,
        address: Expr,
        value: Expr,
    },
    /// The place takes the value of a division, which ends the run where it faults.
    Div {
        place: Loc,
        division: Expr,
    },
    Call {
        /// The places that take the results.
        results: Vec<Loc>,
        /// The entry of the called graph.
        entry: u16,
        arguments: Vec<Expr>,
        /// By how many bytes the callee's base lies below the caller's.
        depth: u16,
    },
    Dos {
        /// One of `dcc_num::dos`.
        number: u8,
        /// The place that takes the byte of the call.
        place: Option<Loc>,
        argument: Option<Expr>,
    },
}

/// How a block ends. A block is named by its place in the graph.
#[derive(Drop)]
pub enum End {
    Goto(u32),
    /// The one block where the test is 1, else the other.
    If { test: Expr, one: u32, other: u32 },
    /// The block at the value's place in the list.
    Switch { value: Expr, blocks: Vec<u32> },
    /// A return with these values.
    Ret(Vec<Expr>),
    /// No run comes here.
    Stop,
}

/// Statements that follow each other, and what comes after them.
#[derive(Drop)]
pub struct Block {
    /// The address of the block in the code segment.
    pub at: u16,
    pub stmts: Vec<Stmt>,
    pub end: End,
}

/// Where an argument goes.
#[derive(Clone, Copy, PartialEq, Eq, Debug)]
pub enum Put {
    /// Argument j goes to memory, 2 * j bytes from the callee's base on.
    Memory,
    One(Loc),
    /// The low and the high byte of a word.
    Two(Loc, Loc),
}

/// A parameter.
#[derive(Clone, Copy, PartialEq, Eq, Debug)]
pub struct Param {
    /// Whether the argument is a word of the stack.
    pub stack: bool,
    pub put: Put,
}

/// The graph of a procedure. Its run begins at the first block.
#[derive(Drop)]
pub struct Graph {
    /// The address of the procedure in the code segment.
    pub entry: u16,
    pub params: Vec<Param>,
    /// The number of bytes directly below the frame's base less 4 that the frame keeps in memory.
    pub local: u16,
    /// The least number of a cell that only pushes, pops and calls touch.
    pub pushed: u16,
    pub blocks: Vec<Block>,
    /// The bits of each temporary, by its number.
    pub bits: Vec<u8>,
}

/// A program. Its run begins in the first graph.
#[derive(Drop)]
pub struct IrProgram {
    pub graphs: Vec<Graph>,
    /// The bytes of the memory at the start, from address 0 on; above them are zeros.
    pub image: Vec<u8>,
    /// The lowest address of the stack.
    pub lo: u16,
    /// The address just above the stack.
    pub hi: u16,
}
