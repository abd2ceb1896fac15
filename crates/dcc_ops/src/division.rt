//! Divisions.

ghost use Rattle.std.specs.Prelude.{◌≡◌, ◌++◌, ◌∷◌, [], OnOk};
ghost use Rattle.dcc_ir.specs.Tree as tree;
ghost use Rattle.dcc_ops.specs.Expressions as expressions;
ghost use Rattle.dcc_ops.specs.Statements as spec;
ghost use Rattle.dcc_ops.specs.Placing.{place_of};
ghost use Rattle.dcc_ops.specs.Writing.{written};

use crate::expression::{bit, left_place, result_place};
use crate::operand_place::OperandPlace;
use crate::product::accumulator;
use crate::writer::Writer;
use dcc_ir::{BinOp, Expr, Loc, Stmt};
use dcc_num::{Half, Reg, Width};
use std::alloc::AllocError;

impl Writer {
    // A location takes the value of a division of the operands.
    fn take_division(&mut self, to: Loc, w: Width, operator: BinOp) -> Result<(), AllocError>
        ensures { OnOk result (written self.new ≡ written self.old
            ++ tree.Div to (expressions.at_width operator w (expressions.left w) (expressions.right w)) ∷ []) }
    {
        let division = self.maker(w).combined(operator)?;
        self.stmts.push(Stmt::Div {
            place: to,
            division,
        })?;
        Ok(())
    }

    // The quotient, the remainder and the flags.
    fn division_working(
        &mut self,
        w: Width,
        quotient: BinOp,
        remainder: BinOp,
    ) -> Result<(), AllocError>
        ensures { OnOk result (written self.new ≡ written self.old ++ spec.division_working w quotient remainder) }
    {
        self.take_division(result_place(w), w, quotient)?;
        self.take_division(left_place(w), w, remainder)?;
        self.take_flags(bit(false), bit(false), bit(false))?;
        self.take_carry(bit(false))
    }

    // AL and AH, or AX and DX, take the quotient and the remainder.
    fn store_division(&mut self, w: Width) -> Result<(), AllocError>
        ensures { OnOk result (written self.new ≡ written self.old ++ spec.division_storing w) }
    {
        match w {
            Width::Byte => {
                let (al, ah) = (
                    Loc::Half(Reg::Ax, Half::Low),
                    Loc::Half(Reg::Ax, Half::High),
                );
                self.set(al, Expr::Get(result_place(w)))?;
                self.set(ah, Expr::Get(left_place(w)))
            }
            Width::Word => {
                self.take_word(Reg::Ax, 0, result_place(w))?;
                self.take_word(Reg::Dx, 0, left_place(w))
            }
        }
    }

    /// DIV or IDIV of AL or AX, by its operators.
    pub fn divide(
        &mut self,
        w: Width,
        quotient: BinOp,
        remainder: BinOp,
        p: OperandPlace,
    ) -> Result<(), AllocError>
        ensures { OnOk result (written self.new
            ≡ written self.old ++ spec.dividing w quotient remainder (place_of p)) }
    {
        self.take_operands(w, accumulator(w), p)?;
        self.division_working(w, quotient, remainder)?;
        self.store_division(w)
    }
}
