//! What procedures take and give back, and how blocks end.

ghost use Rattle.std.specs.Prelude.{◌≡◌, ◌<◌, ◌++◌, ◌∷◌, [], map, option_map, IfOk, OnOk};
ghost use Rattle.dcc_ir.specs.Views as views;
ghost use Rattle.dcc_ir.specs.Views.{expr_of};
ghost use Rattle.dcc_ir.specs.Tree as tree;
ghost use Rattle.dcc_ir.specs.Passing as passing;
ghost use Rattle.dcc_ops.specs.Expressions.{word_of};
ghost use Rattle.dcc_ops.specs.Placing.{place_of};
ghost use Rattle.dcc_ops.specs.Statements.{exit_to};
ghost use Rattle.dcc_simulation.specs.Passed as spec;
ghost use Rattle.dcc_lift.specs.KnownProcedures.{procedure_of, KnowsProcedure};

use crate::procedure::Procedure;
use dcc_ir::{BinOp, End, Expr, Loc, PASSED_LOCATIONS, Param, Put};
use dcc_machine::Op;
use dcc_num::{Reg, Width};
use dcc_ops::{OperandPlace, Writer, constant, op_test};
use std::alloc::{AllocError, Global};

/// The word registers whose halves pass, in their order.
pub const PASSED_REGISTERS: [Reg; 6] = [Reg::Ax, Reg::Cx, Reg::Dx, Reg::Bx, Reg::Si, Reg::Di];

/// The halves and flags that pass, in their order.
pub fn passed(alloc: Global) -> Result<Vec<Loc>, AllocError>
    ensures { IfOk result (λ locations. locations.items ≡ passing.passed) }
{
    PASSED_LOCATIONS.to_vec(alloc)
}

/// The values of the halves and flags that pass.
pub(crate) fn passed_values(alloc: Global) -> Result<Vec<Expr>, AllocError>
    ensures { IfOk result (λ values. map expr_of values.items ≡ map tree.Get passing.passed) }
{
    let locations = passed(alloc)?;
    let mut values = Vec::new(alloc);
    for location in &locations {
        values.push(Expr::Get(*location))?;
    }
    Ok(values)
}

// The params of the halves and flags that pass.
fn passed_params(alloc: Global) -> Result<Vec<Param>, AllocError>
    ensures { IfOk result (λ params. params.items ≡ map passing.param_of passing.passed) }
{
    let locations = passed(alloc)?;
    let mut params = Vec::new(alloc);
    for location in &locations {
        params.push(Param {
            stack: false,
            put: Put::One(*location),
        })?;
    }
    Ok(params)
}

// Adds the byte at a distance from the base of the frame.
fn push_byte(alloc: Global, values: &mut Vec<Expr>, distance: u16) -> Result<(), AllocError>
    ensures { OnOk result (map expr_of values.new.items ≡ map expr_of values.old.items
        ++ tree.Load 8 (tree.Address distance) ∷ []) }
{
    let address = Box::new(alloc, Expr::Address(distance))?;
    values.push(Expr::Load(8, address))?;
    Ok(())
}

// Where an argument word goes that stands at a place.
fn put_at(place: OperandPlace) -> Put
    ensures { result ≡ spec.put_of (place_of place) }
{
    match place {
        OperandPlace::Word(low, high) => Put::Two(low, high),
        _ => Put::Memory,
    }
}

impl Procedure<'_> {
    // Where an argument word goes.
    fn put_of(&self, number: u16) -> Put
        requires { KnowsProcedure self.now }
        ensures { result ≡ (spec.argument_param (procedure_of self.now) number).put }
    {
        put_at(self.frame_place(Width::Word, 4 + 2 * i32::from(number)))
    }

    // The argument words of the stack.
    fn argument_params(&self, alloc: Global) -> Result<Vec<Param>, AllocError>
        requires { KnowsProcedure self.now }
        ensures { IfOk result (λ params. params.items ≡ spec.argument_params (procedure_of self.now)) }
    {
        let mut params = Vec::new(alloc);
        for number in 0..self.frame.args {
            params.push(Param {
                stack: true,
                put: self.put_of(number),
            })?;
        }
        Ok(params)
    }

    /// The argument words of the stack, then the halves and flags.
    pub fn params(&self, alloc: Global) -> Result<Vec<Param>, AllocError>
        requires { KnowsProcedure self.now }
        ensures { IfOk result (λ params. params.items ≡ spec.params_of (procedure_of self.now)) }
    {
        let mut params = self.argument_params(alloc)?;
        let mut others = passed_params(alloc)?;
        params.append(&mut others)?;
        Ok(params)
    }

    // The two bytes of an argument word, where its param has put it.
    fn push_argument(
        &self,
        alloc: Global,
        values: &mut Vec<Expr>,
        number: u16,
    ) -> Result<(), AllocError>
        requires procedure { KnowsProcedure self.now }
        requires number { number < self.now.frame.now.args }
        ensures { OnOk result (map expr_of values.new.items ≡ map expr_of values.old.items
            ++ passing.bytes_at_put number (spec.argument_param (procedure_of self.now) number).put) }
    {
        match self.put_of(number) {
            Put::Two(low, high) => {
                values.push(Expr::Get(low))?;
                values.push(Expr::Get(high))?;
            }
            _ => {
                push_byte(alloc, values, 2 * number)?;
                push_byte(alloc, values, 2 * number + 1)?;
            }
        }
        Ok(())
    }

    // What a RET gives back.
    fn returned_values(&self, alloc: Global) -> Result<Vec<Expr>, AllocError>
        requires { KnowsProcedure self.now }
        ensures { IfOk result (λ values. map expr_of values.items ≡ spec.returned_values (procedure_of self.now)) }
    {
        let mut values = passed_values(alloc)?;
        for index in 0..self.given_back.len() {
            self.push_argument(alloc, &mut values, self.given_back[index])?;
        }
        Ok(values)
    }

    /// How the block ends whose last instruction has these operation and successors, which are places of blocks.
    pub fn end(&self, alloc: Global, op: Op, places: Vec<u32>) -> Result<End, AllocError>
        requires { KnowsProcedure self.now }
        ensures { IfOk result (λ end. views.exit_of end ≡ spec.exit_of (procedure_of self.now) op places.items) }
    {
        match op {
            Op::Table(r, _) => Ok(End::Switch {
                value: half_of_word(alloc, r)?,
                blocks: places,
            }),
            Op::Ret(_) => Ok(End::Ret(self.returned_values(alloc)?)),
            _ => Ok(end_to(op_test(alloc, op)?, places.as_slice())),
        }
    }
}

// Half of what a word register holds.
fn half_of_word(alloc: Global, r: Reg) -> Result<Expr, AllocError>
    ensures { IfOk result (λ e. expr_of e ≡ tree.Binary BinOp.Shr 16 (word_of r) (tree.Const 16 1)) }
{
    let maker = Writer::new(alloc).maker(Width::Word);
    maker.binary(BinOp::Shr, 16, maker.word_of(r)?, constant(16, 1))
}

// The end of a block by its test and the places of its successors: to one of two blocks by the test, to a block, or
// nowhere.
fn end_to(test: Option<Expr>, places: &[u32]) -> End
    ensures { views.exit_of result ≡ exit_to (option_map expr_of test) places.now }
{
    match places {
        [target, next] => match test {
            Some(test) => End::If {
                test,
                one: *target,
                other: *next,
            },
            None => End::Stop,
        },
        [next] => End::Goto(*next),
        _ => End::Stop,
    }
}
