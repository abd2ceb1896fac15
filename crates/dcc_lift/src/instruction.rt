//! The statements of a procedure's instructions.

ghost use Rattle.std.specs.Prelude.{◌≡◌, ◌≤◌, pos, neg_ℤ, ◌++◌, map, OnOk};
ghost use Rattle.dcc_prog.specs.Height.{greatest_height};
ghost use Rattle.dcc_ops.specs.Writing.{written};
ghost use Rattle.dcc_ops.specs.Placing.{place_of};
ghost use Rattle.dcc_simulation.specs.Statements as spec;
ghost use Rattle.dcc_lift.specs.KnownProcedures.{procedure_of, KnowsProcedure, KnowsProcedures};

use crate::call::callee_of;
use crate::operand::address_of;
use crate::procedure::Procedure;
use dcc_machine::{Cpu, Op, Operand};
use dcc_num::Width;
use dcc_ops::{OperandPlace, Writer, register_place};
use dcc_prog::Node;
use std::alloc::AllocError;

// Whether the operation saves BP, sets it up or gives it back, or moves SP to it.
fn moves_frame(op: Op) -> bool
    ensures { result ≡ spec.moves_frame op }
{
    op.is_push_bp() || op.is_mov_bp_sp() || op.is_enter() || op.leaves_frame()
}

// The offset of the word below the top of the stack.
fn below_top(height: u16) -> i32
    ensures { result ≡ neg_ℤ (pos height) }
{
    -i32::from(height)
}

impl Procedure<'_> {
    // The word below the top of the stack.
    fn place_below_top(&self, height: u16) -> OperandPlace
        requires { KnowsProcedure self.now }
        ensures { place_of result ≡ spec.place_below_top (procedure_of self.now) height }
    {
        self.frame_place(Width::Word, below_top(height))
    }

    // The word at the top of the stack.
    fn top_place(&self, height: u16) -> OperandPlace
        requires { KnowsProcedure self.now }
        ensures { place_of result ≡ spec.top_place (procedure_of self.now) height }
    {
        self.frame_place(Width::Word, 2 - i32::from(height))
    }

    /// Writes the statements of an instruction of the procedure, on a processor, among all procedures, at its height.
    pub fn write(
        &self,
        writer: &mut Writer,
        cpu: Cpu,
        procedures: &[Procedure<'_>],
        height: u16,
        node: &Node,
    ) -> Result<(), AllocError>
        requires procedure { KnowsProcedure self.now }
        requires procedures { KnowsProcedures procedures.now }
        requires height { height ≤ greatest_height }
        ensures { OnOk result (written writer.new ≡ written writer.old
            ++ spec.node_stmts cpu (map procedure_of procedures.now) (procedure_of self.now) height node.now) }
    {
        let op = node.instr.op;
        if moves_frame(op) {
            return Ok(());
        }
        match op {
            Op::Push(operand) => {
                let from = self.operand_place(height, operand);
                writer.mov(Width::Word, self.place_below_top(height), from)
            }
            Op::Pop(operand) => {
                let to = self.operand_place(height, operand);
                writer.mov(Width::Word, to, self.top_place(height))
            }
            Op::Lea(r, ea) => {
                let to = register_place(Operand::Word(r));
                writer.mov(Width::Word, to, OperandPlace::Computed(address_of(ea)))
            }
            Op::Call(target) => match callee_of(procedures, target) {
                Some(callee) => self.write_call(writer, height, callee),
                None => Ok(()),
            },
            _ => {
                let (p, q) = self.operand_places(height, op);
                writer.operation(cpu, op, node.number, p, q)
            }
        }
    }
}
