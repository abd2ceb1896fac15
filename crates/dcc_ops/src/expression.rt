//! How expressions are made.

ghost use Rattle.std.specs.Prelude.{◌≡◌, IfOk};
ghost use Rattle.std.specs.Int.{from_bool};
ghost use Rattle.dcc_ir.specs.Views.{expr_of};
ghost use Rattle.dcc_ir.specs.Tree as tree;
ghost use Rattle.dcc_ops.specs.Temporaries as temporaries;
ghost use Rattle.dcc_ops.specs.Expressions as spec;

use dcc_ir::{BinOp, Expr, Loc, UnOp};
use dcc_num::{FlagName, Half, Reg, Width};
use std::alloc::{AllocError, Global};

/// How many bytes a call gets back at the most: those of 32 argument words.
pub const MOST_RETURNED: usize = 64;

/// The bits of the temporaries: the left operand, the right one and the result as bytes, the same as words, a product
/// of two words, CF as it comes in, and bytes that calls get back.
pub fn temporary_bits(alloc: Global) -> Result<Vec<u8>, AllocError>
    ensures { IfOk result (λ bits. bits.items ≡ temporaries.temporary_bits) }
{
    let operations: [u8; 8] = [8, 8, 8, 16, 16, 16, 32, 1];
    let mut bits = operations.to_vec(alloc)?;
    bits.resize(8 + MOST_RETURNED, 8)?;
    Ok(bits)
}

/// The temporary of the left operand.
pub(crate) fn left_place(w: Width) -> Loc
    ensures { result ≡ temporaries.left_place w }
{
    match w {
        Width::Byte => Loc::Temp(0),
        Width::Word => Loc::Temp(3),
    }
}

/// The temporary of the right operand.
pub(crate) fn right_place(w: Width) -> Loc
    ensures { result ≡ temporaries.right_place w }
{
    match w {
        Width::Byte => Loc::Temp(1),
        Width::Word => Loc::Temp(4),
    }
}

/// The temporary of the result.
pub(crate) fn result_place(w: Width) -> Loc
    ensures { result ≡ temporaries.result_place w }
{
    match w {
        Width::Byte => Loc::Temp(2),
        Width::Word => Loc::Temp(5),
    }
}

/// The temporary of a product, which has twice the width.
pub(crate) fn product_place(w: Width) -> Loc
    ensures { result ≡ temporaries.product_place w }
{
    match w {
        Width::Byte => Loc::Temp(5),
        Width::Word => Loc::Temp(6),
    }
}

/// The temporary of CF as it comes in.
pub(crate) fn carry_place() -> Loc
    ensures { result ≡ temporaries.carry_place }
{
    Loc::Temp(7)
}

/// The temporary of a byte that a call gets back.
pub fn returned_place(index: u8) -> Loc
    ensures { result ≡ temporaries.returned_place index }
{
    Loc::Temp(8 + u32::from(index))
}

/// A constant of `width` bits.
pub fn constant(width: u8, number: u32) -> Expr
    ensures { expr_of result ≡ tree.Const width number }
{
    Expr::Const(width, number)
}

/// One bit.
pub fn bit(n: bool) -> Expr
    ensures { expr_of result ≡ spec.bit (from_bool n) }
{
    constant(1, u32::from(n))
}

/// A byte.
pub fn byte(n: u8) -> Expr
    ensures { expr_of result ≡ tree.Const 8 n }
{
    constant(8, u32::from(n))
}

/// The value of a flag.
pub fn flag(f: FlagName) -> Expr
    ensures { expr_of result ≡ spec.flag f }
{
    Expr::Get(Loc::Flag(f))
}

/// The value of one half of a register.
pub fn half(r: Reg, half: Half) -> Expr
    ensures { expr_of result ≡ tree.Get (Loc.Half r half) }
{
    Expr::Get(Loc::Half(r, half))
}

/// Makes the expressions of an instruction, whose operands have one width.
#[derive(Clone, Copy)]
pub struct Maker {
    pub alloc: Global,
    pub w: Width,
}

impl Maker {
    /// An operator on one operand of `width` bits.
    pub fn unary(self, operator: UnOp, width: u8, a: Expr) -> Result<Expr, AllocError>
        ensures { IfOk result (λ e. expr_of e ≡ tree.Unary operator width (expr_of a)) }
    {
        Expr::unary(self.alloc, operator, width, a)
    }

    /// An operator on two operands of `width` bits.
    pub fn binary(self, operator: BinOp, width: u8, a: Expr, b: Expr) -> Result<Expr, AllocError>
        ensures { IfOk result (λ e. expr_of e ≡ tree.Binary operator width (expr_of a) (expr_of b)) }
    {
        Expr::binary(self.alloc, operator, width, a, b)
    }

    /// The operand at a greater width, by its sign where the flag is set.
    pub fn widen(self, signed: bool, width: u8, a: Expr) -> Result<Expr, AllocError>
        ensures { IfOk result (λ e. expr_of e ≡ tree.Widen signed width (expr_of a)) }
    {
        Expr::widen(self.alloc, signed, width, a)
    }

    /// A part of the operand: `width` bits, from bit `first` on.
    pub fn part(self, width: u8, first: u8, a: Expr) -> Result<Expr, AllocError>
        ensures { IfOk result (λ e. expr_of e ≡ tree.Part width first (expr_of a)) }
    {
        Expr::part(self.alloc, width, first, a)
    }

    /// The upper and the lower half of a number.
    pub fn join(self, high: Expr, low: Expr) -> Result<Expr, AllocError>
        ensures { IfOk result (λ e. expr_of e ≡ tree.Join (expr_of high) (expr_of low)) }
    {
        Expr::join(self.alloc, high, low)
    }

    /// The first expression where the test is 1, else the second.
    pub fn choose(self, test: Expr, a: Expr, b: Expr) -> Result<Expr, AllocError>
        ensures { IfOk result (λ e. expr_of e ≡ tree.Choose (expr_of test) (expr_of a) (expr_of b)) }
    {
        Expr::choose(self.alloc, test, a, b)
    }

    /// The left operand.
    pub fn left(self) -> Expr
        ensures { expr_of result ≡ spec.left self.w }
    {
        Expr::Get(left_place(self.w))
    }

    /// The right operand.
    pub fn right(self) -> Expr
        ensures { expr_of result ≡ spec.right self.w }
    {
        Expr::Get(right_place(self.w))
    }

    /// The result.
    pub fn result(self) -> Expr
        ensures { expr_of result ≡ spec.result self.w }
    {
        Expr::Get(result_place(self.w))
    }

    /// The product.
    pub fn product(self) -> Expr
        ensures { expr_of result ≡ spec.product self.w }
    {
        Expr::Get(product_place(self.w))
    }

    /// An operator at the width.
    pub fn at_width(self, operator: BinOp, a: Expr, b: Expr) -> Result<Expr, AllocError>
        ensures { IfOk result (λ e. expr_of e ≡ spec.at_width operator self.w (expr_of a) (expr_of b)) }
    {
        self.binary(operator, self.w.bits(), a, b)
    }

    /// An operator on the left and the right operand.
    pub fn combined(self, operator: BinOp) -> Result<Expr, AllocError>
        ensures { IfOk result (λ e. expr_of e ≡ spec.at_width operator self.w (spec.left self.w) (spec.right self.w)) }
    {
        self.at_width(operator, self.left(), self.right())
    }

    /// A constant of the width.
    pub fn number(self, n: u32) -> Expr
        ensures { expr_of result ≡ spec.number self.w n }
    {
        constant(self.w.bits(), n)
    }

    /// The negation of one bit.
    pub fn negated(self, e: Expr) -> Result<Expr, AllocError>
        ensures { IfOk result (λ negated. expr_of negated ≡ spec.negated (expr_of e)) }
    {
        self.unary(UnOp::Not, 1, e)
    }

    /// Whether a number of the width is 0.
    pub fn is_zero(self, e: Expr) -> Result<Expr, AllocError>
        ensures { IfOk result (λ test. expr_of test ≡ spec.is_zero self.w (expr_of e)) }
    {
        self.unary(UnOp::IsZero, self.w.bits(), e)
    }

    /// The sign bit.
    pub fn sign(self, e: Expr) -> Result<Expr, AllocError>
        ensures { IfOk result (λ bit. expr_of bit ≡ spec.sign self.w (expr_of e)) }
    {
        self.part(1, self.w.bits() - 1, e)
    }

    /// The bit below the sign bit.
    pub fn below_sign(self, e: Expr) -> Result<Expr, AllocError>
        ensures { IfOk result (λ bit. expr_of bit ≡ spec.below_sign self.w (expr_of e)) }
    {
        self.part(1, self.w.bits() - 2, e)
    }

    /// The lowest bit.
    pub fn lowest(self, e: Expr) -> Result<Expr, AllocError>
        ensures { IfOk result (λ bit. expr_of bit ≡ spec.lowest (expr_of e)) }
    {
        self.part(1, 0, e)
    }

    /// A word register, by its halves.
    pub fn word_of(self, r: Reg) -> Result<Expr, AllocError>
        ensures { IfOk result (λ e. expr_of e ≡ spec.word_of r) }
    {
        self.join(half(r, Half::High), half(r, Half::Low))
    }

    /// CF as it came in, as a number of the width.
    pub fn carry(self) -> Result<Expr, AllocError>
        ensures { IfOk result (λ e. expr_of e ≡ spec.carry_at self.w) }
    {
        self.widen(false, self.w.bits(), Expr::Get(carry_place()))
    }
}
