//! Memory operands, and direct accesses to the frame.

ghost use Rattle.std.specs.Prelude.{◌≡◌, Some, option_map};
ghost use Rattle.dcc_machine.specs.Access.{bytes_in};
ghost use Rattle.dcc_prog.specs.Frame.{memory_operand};
ghost use Rattle.dcc_stack.specs.Slots.{is_memory, is_within, writes_memory, writes_directly, direct_bytes, overlaps};
ghost use Rattle.dcc_lift.specs.KnownProcedures.{span_of_bytes};

use dcc_frames::{is_direct, memory_operand, offset_in_frame};
use dcc_machine::{Alu, Op, Operand, Unary};
use dcc_num::Width;

/// Bytes of a frame: `size` of them, from an offset from its base less 4 on.
#[derive(Clone, Copy)]
pub struct Bytes {
    pub first: i32,
    pub size: u8,
}

impl Bytes {
    /// The offset after the bytes.
    pub fn end(self) -> i64
        ensures { result ≡ (span_of_bytes self).end }
    {
        i64::from(self.first) + i64::from(self.size)
    }

    /// Whether the bytes have the one at an offset.
    pub fn hold(self, k: i32) -> bool
        ensures { result ≡ is_within k (span_of_bytes self) }
    {
        self.first <= k && i64::from(k) < self.end()
    }

    // Whether two lists of bytes have one in common.
    fn overlap(self, other: Bytes) -> bool
        ensures { result ≡ overlaps (span_of_bytes self) (Some (span_of_bytes other)) }
    {
        i64::from(other.first) < self.end() && i64::from(self.first) < other.end()
    }
}

// The number of bytes of an operand.
fn bytes_in(width: Width) -> u8
    ensures { result ≡ bytes_in width }
{
    match width {
        Width::Byte => 1,
        Width::Word => 2,
    }
}

// The bytes of a direct access of a framed procedure, if the operation is one.
fn direct_bytes(op: Op) -> Option<Bytes>
    ensures { option_map span_of_bytes result ≡ direct_bytes (memory_operand op) }
{
    let (width, ea) = memory_operand(op)?;
    if !is_direct(ea) {
        return None;
    }
    Some(Bytes {
        first: offset_in_frame(ea),
        size: bytes_in(width),
    })
}

// Whether the operand lies in memory.
fn is_memory(operand: Operand) -> bool
    ensures { result ≡ is_memory operand }
{
    matches!(operand, Operand::Mem(..))
}

// Whether the operation writes its operand in memory.
fn writes_memory(op: Op) -> bool
    ensures { result ≡ writes_memory op }
{
    match op {
        Op::Alu(operation, a, _) => !matches!(operation, Alu::Cmp | Alu::Test) && is_memory(a),
        Op::Unary(operation, a) => {
            matches!(operation, Unary::Inc | Unary::Dec | Unary::Neg | Unary::Not) && is_memory(a)
        }
        Op::Shift(_, a, _) | Op::Pop(a) => is_memory(a),
        Op::Mov(to, _) => is_memory(to),
        Op::Xchg(..) => true,
        _ => false,
    }
}

/// Whether the operation touches one of the bytes by a direct access of a framed procedure.
pub(crate) fn has_access(op: Op, bytes: Bytes) -> bool
    ensures { result ≡ overlaps (span_of_bytes bytes) (direct_bytes (memory_operand op)) }
{
    match direct_bytes(op) {
        Some(direct) => bytes.overlap(direct),
        None => false,
    }
}

/// Whether the operation writes one of the bytes by a direct access.
pub(crate) fn writes_directly(op: Op, bytes: Bytes) -> bool
    ensures { result ≡ writes_directly op (span_of_bytes bytes) }
{
    writes_memory(op) && has_access(op, bytes)
}
