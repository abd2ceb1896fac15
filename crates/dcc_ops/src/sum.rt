//! Sums and differences of the left and the right operand, and what their flags are.

ghost use Rattle.std.specs.Prelude.{◌≡◌, IfOk};
ghost use Rattle.dcc_ir.specs.Views.{expr_of};
ghost use Rattle.dcc_ir.specs.Tree as tree;
ghost use Rattle.dcc_ops.specs.Expressions as spec;

use crate::expression::{Maker, carry_place, left_place, result_place, right_place};
use dcc_ir::{BinOp, Expr, Loc};
use std::alloc::AllocError;

impl Maker {
    // The first comparison of two locations where CF came in set, the second where it did not.
    fn by_carry(self, set: BinOp, clear: BinOp, a: Loc, b: Loc) -> Result<Expr, AllocError>
        ensures { IfOk result (λ e. expr_of e ≡ spec.by_carry self.w set clear (tree.Get a) (tree.Get b)) }
    {
        let set = self.at_width(set, Expr::Get(a), Expr::Get(b))?;
        let clear = self.at_width(clear, Expr::Get(a), Expr::Get(b))?;
        self.choose(Expr::Get(carry_place()), set, clear)
    }

    /// The sum.
    pub fn sum(self) -> Result<Expr, AllocError>
        ensures { IfOk result (λ e. expr_of e ≡ spec.sum self.w) }
    {
        self.combined(BinOp::Add)
    }

    /// The sum with the carry.
    pub fn sum_and_carry(self) -> Result<Expr, AllocError>
        ensures { IfOk result (λ e. expr_of e ≡ spec.sum_and_carry self.w) }
    {
        self.at_width(BinOp::Add, self.sum()?, self.carry()?)
    }

    /// The carry out of the sum: the sum is below one of its parts.
    pub fn carry_out(self) -> Result<Expr, AllocError>
        ensures { IfOk result (λ e. expr_of e ≡ spec.carry_out self.w) }
    {
        self.at_width(BinOp::LtU, self.result(), self.left())
    }

    /// The carry out of the sum with the carry: where one came in, the sum may be equal to one of its parts too.
    pub fn carry_out_of_both(self) -> Result<Expr, AllocError>
        ensures { IfOk result (λ e. expr_of e ≡ spec.carry_out_of_both self.w) }
    {
        let (sum, part) = (result_place(self.w), left_place(self.w));
        self.by_carry(BinOp::LeU, BinOp::LtU, sum, part)
    }

    // The sign of an operand differs from that of the result.
    fn differs_in_sign(self, e: Expr) -> Result<Expr, AllocError>
        ensures { IfOk result (λ bit. expr_of bit
            ≡ tree.Binary BinOp.Xor 1 (spec.sign self.w (expr_of e)) (spec.sign self.w (spec.result self.w))) }
    {
        self.binary(BinOp::Xor, 1, self.sign(e)?, self.sign(self.result())?)
    }

    /// The overflow of a sum: both operands have another sign than the sum.
    pub fn sum_overflow(self) -> Result<Expr, AllocError>
        ensures { IfOk result (λ e. expr_of e ≡ spec.sum_overflow self.w) }
    {
        let left = self.differs_in_sign(self.left())?;
        let right = self.differs_in_sign(self.right())?;
        self.binary(BinOp::And, 1, left, right)
    }

    /// The difference.
    pub fn difference(self) -> Result<Expr, AllocError>
        ensures { IfOk result (λ e. expr_of e ≡ spec.difference self.w) }
    {
        self.combined(BinOp::Sub)
    }

    /// The difference with the borrow.
    pub fn difference_and_borrow(self) -> Result<Expr, AllocError>
        ensures { IfOk result (λ e. expr_of e ≡ spec.difference_and_borrow self.w) }
    {
        self.at_width(BinOp::Sub, self.difference()?, self.carry()?)
    }

    /// The borrow out of the difference: the left operand is below the right one.
    pub fn borrow_out(self) -> Result<Expr, AllocError>
        ensures { IfOk result (λ e. expr_of e ≡ spec.borrow_out self.w) }
    {
        self.combined(BinOp::LtU)
    }

    /// The borrow out of the difference with the borrow: where one came in, the operands may be equal too.
    pub fn borrow_out_of_both(self) -> Result<Expr, AllocError>
        ensures { IfOk result (λ e. expr_of e ≡ spec.borrow_out_of_both self.w) }
    {
        let (left, right) = (left_place(self.w), right_place(self.w));
        self.by_carry(BinOp::LeU, BinOp::LtU, left, right)
    }

    /// The overflow of a difference: the difference's sign is not what the signed comparison of the operands says.
    pub fn difference_overflow(self) -> Result<Expr, AllocError>
        ensures { IfOk result (λ e. expr_of e ≡ spec.difference_overflow self.w) }
    {
        let less = self.combined(BinOp::LtS)?;
        self.binary(BinOp::Xor, 1, less, self.sign(self.result())?)
    }

    /// The overflow of a difference with the borrow.
    pub fn difference_overflow_of_both(self) -> Result<Expr, AllocError>
        ensures { IfOk result (λ e. expr_of e ≡ spec.difference_overflow_of_both self.w) }
    {
        let (left, right) = (left_place(self.w), right_place(self.w));
        let less = self.by_carry(BinOp::LeS, BinOp::LtS, left, right)?;
        self.binary(BinOp::Xor, 1, less, self.sign(self.result())?)
    }
}
