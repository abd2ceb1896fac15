//! Which operations may stand in a prelude, and after which it may end.

ghost use Rattle.std.specs.Prelude.{◌≡◌};
ghost use Rattle.dcc_prog.specs.Layout.{is_data_segment, is_prelude_move, is_prelude_sum, is_word_register};
ghost use Rattle.dcc_prog.specs.Layout.{is_prelude_plain, is_prelude_form, is_segment_or_sp, may_end_prelude};

use dcc_machine::{Alu, DS, ES, Op, Operand, Plain, SS, Shift};
use dcc_num::Reg;

// Whether the number is that of ES, SS or DS.
fn is_data_segment(number: u8) -> bool
    ensures { result ≡ is_data_segment number }
{
    matches!(number, ES | SS | DS)
}

// Whether a MOV with these operands may stand in a prelude: a constant or a register of the same width goes to a
// register, or a word register is moved from or to ES, SS or DS.
fn is_prelude_move(to: Operand, from: Operand) -> bool
    ensures { result ≡ is_prelude_move to from }
{
    match (to, from) {
        (Operand::Word(_), Operand::Word(_) | Operand::Const(..)) => true,
        (Operand::Byte(..), Operand::Byte(..) | Operand::Const(..)) => true,
        (Operand::Word(_), Operand::Seg(number)) => is_data_segment(number),
        (Operand::Seg(number), Operand::Word(_)) => is_data_segment(number),
        _ => false,
    }
}

// Whether an ADD or SUB with these operands may stand in a prelude: a word register is changed by a register or a
// constant.
fn is_prelude_sum(a: Operand, b: Operand) -> bool
    ensures { result ≡ is_prelude_sum a b }
{
    matches!(
        (a, b),
        (Operand::Word(_), Operand::Word(_) | Operand::Const(..))
    )
}

fn is_word_register(operand: Operand) -> bool
    ensures { result ≡ is_word_register operand }
{
    matches!(operand, Operand::Word(_))
}

fn is_prelude_plain(operation: Plain) -> bool
    ensures { result ≡ is_prelude_plain operation }
{
    matches!(operation, Plain::Nop | Plain::Cli | Plain::Sti | Plain::Cld)
}

/// Whether the operation may stand in a prelude.
pub(crate) fn is_prelude_form(op: Op) -> bool
    ensures { result ≡ is_prelude_form op }
{
    match op {
        Op::Mov(to, from) => is_prelude_move(to, from),
        Op::Alu(Alu::Add | Alu::Sub, a, b) => is_prelude_sum(a, b),
        Op::Shift(Shift::Shl, a, _) => is_word_register(a),
        Op::Plain(operation) => is_prelude_plain(operation),
        _ => false,
    }
}

fn is_segment_or_sp(operand: Operand) -> bool
    ensures { result ≡ is_segment_or_sp operand }
{
    matches!(operand, Operand::Seg(_) | Operand::Word(Reg::Sp))
}

/// Whether a prelude may end after the operation: it writes a segment register or SP, or is CLI, STI or CLD.
pub(crate) fn may_end_prelude(op: Op) -> bool
    ensures { result ≡ may_end_prelude op }
{
    match op {
        Op::Mov(to, _) | Op::Alu(_, to, _) | Op::Shift(_, to, _) => is_segment_or_sp(to),
        Op::Plain(operation) => operation.is_control(),
        _ => false,
    }
}
