//! Laws of the operations. Each function only states a law by its contract, and does nothing.

ghost use Rattle.dcc_num.specs.Numbers.{differ};
ghost use Rattle.dcc_num.specs.Logic.{conjunction_of, disjunction_of, exclusive_of};
ghost use Rattle.dcc_num.specs.Shift.{shl_of, shr_of, sar_of, rol_of, ror_of, rcl_of};
ghost use Rattle.dcc_num.specs.Shift.{rcr_of};
ghost use Rattle.dcc_num.specs.Laws.{IsRepeated, left_step, right_step, signed_step, rol_step};
ghost use Rattle.dcc_num.specs.Laws.{ror_step, ComesRound, Undoes, rcl_step, rcr_step};
ghost use Rattle.dcc_num.specs.Laws.{SumsAreExact, DifferencesAreExact, SumsCarryOn, DifferencesCarryOn};
ghost use Rattle.dcc_num.specs.Laws.{DifferencesCompare, NegationsAreExact, IncrementsAreExact, DecrementsAreExact};
ghost use Rattle.dcc_num.specs.Laws.{IsBitByBit, both, either, LeftShiftsCarry, RightShiftsCarry, ShiftsTellResults};
ghost use Rattle.dcc_num.specs.Laws.{RotationsKeepFlags, CarryRotationsKeepFlags, SignExtensionsAreExact};
ghost use Rattle.dcc_num.specs.Laws.{ProductsAreExact};
ghost use Rattle.dcc_num.specs.Laws.{SignedProductsAreExact, DivisionsAreExact, SignedDivisionsAreExact};

/// SHL by a count is a shift by one place, made count times.
pub fn shl_is_repeated()
    ensures { IsRepeated left_step shl_of }
{}

/// SHR by a count is a shift by one place, made count times.
pub fn shr_is_repeated()
    ensures { IsRepeated right_step shr_of }
{}

/// SAR by a count is a shift by one place, made count times.
pub fn sar_is_repeated()
    ensures { IsRepeated signed_step sar_of }
{}

/// ROL by a count is a turn by one place, made count times.
pub fn rol_is_repeated()
    ensures { IsRepeated rol_step rol_of }
{}

/// ROR by a count is a turn by one place, made count times.
pub fn ror_is_repeated()
    ensures { IsRepeated ror_step ror_of }
{}

/// RCL, made once more than the operand has bits, gives the operand and CF back.
pub fn rcl_comes_round()
    ensures { ComesRound rcl_step }
{}

/// RCR, made once more than the operand has bits, gives the operand and CF back.
pub fn rcr_comes_round()
    ensures { ComesRound rcr_step }
{}

/// RCR undoes RCL.
pub fn rcr_undoes_rcl()
    ensures { Undoes rcl_step rcr_step }
{}

/// RCL undoes RCR.
pub fn rcl_undoes_rcr()
    ensures { Undoes rcr_step rcl_step }
{}

/// ADD and ADC give the sum of the unsigned numbers, and that of the signed ones exactly where OF is clear.
pub fn sums_are_exact()
    ensures { SumsAreExact }
{}

/// SUB and SBB give the difference of the unsigned numbers, and that of the signed ones exactly where OF is clear.
pub fn differences_are_exact()
    ensures { DifferencesAreExact }
{}

/// ADD of two lower halves and then ADC of the upper ones add the whole numbers.
pub fn sums_carry_on()
    ensures { SumsCarryOn }
{}

/// SUB of two lower halves and then SBB of the upper ones subtract the whole numbers.
pub fn differences_carry_on()
    ensures { DifferencesCarryOn }
{}

/// After a comparison the flags tell which operand is less.
pub fn differences_compare()
    ensures { DifferencesCompare }
{}

/// NEG gives the negative number, and CF where that is not 0.
pub fn negations_are_exact()
    ensures { NegationsAreExact }
{}

/// INC gives the next number and leaves CF.
pub fn increments_are_exact()
    ensures { IncrementsAreExact }
{}

/// DEC gives the number less 1 and leaves CF.
pub fn decrements_are_exact()
    ensures { DecrementsAreExact }
{}

/// AND and TEST take the bits that both operands have.
pub fn and_is_bit_by_bit()
    ensures { IsBitByBit both conjunction_of }
{}

/// OR takes the bits that one of the operands has.
pub fn or_is_bit_by_bit()
    ensures { IsBitByBit either disjunction_of }
{}

/// XOR takes the bits that one operand alone has.
pub fn xor_is_bit_by_bit()
    ensures { IsBitByBit differ exclusive_of }
{}

/// The last bit that SHL moves out is that of its count from the top.
pub fn shl_carries_from_the_top()
    ensures { LeftShiftsCarry }
{}

/// The last bit that SHR moves out is that of its count from the bottom.
pub fn shr_carries_from_the_bottom()
    ensures { RightShiftsCarry }
{}

/// SHL tells its result by ZF and SF, and by 1 place a change of the sign by OF.
pub fn shl_tells_its_result()
    ensures { ShiftsTellResults shl_of }
{}

/// SHR tells its result by ZF and SF, and by 1 place a change of the sign by OF.
pub fn shr_tells_its_result()
    ensures { ShiftsTellResults shr_of }
{}

/// SAR tells its result by ZF and SF, and never changes the sign.
pub fn sar_tells_its_result()
    ensures { ShiftsTellResults sar_of }
{}

/// ROL leaves ZF and SF, and by 1 place tells a change of the sign by OF.
pub fn rol_keeps_flags()
    ensures { RotationsKeepFlags rol_of }
{}

/// ROR leaves ZF and SF, and by 1 place tells a change of the sign by OF.
pub fn ror_keeps_flags()
    ensures { RotationsKeepFlags ror_of }
{}

/// RCL leaves ZF and SF, and tells a change of the sign by OF.
pub fn rcl_keeps_flags()
    ensures { CarryRotationsKeepFlags rcl_of }
{}

/// RCR leaves ZF and SF, and tells a change of the sign by OF.
pub fn rcr_keeps_flags()
    ensures { CarryRotationsKeepFlags rcr_of }
{}

/// A sign-extended byte stands for the same number.
pub fn sign_extensions_are_exact()
    ensures { SignExtensionsAreExact }
{}

/// The two halves that MUL gives are the product.
pub fn products_are_exact()
    ensures { ProductsAreExact }
{}

/// The two halves that IMUL gives are the product of the signed numbers.
pub fn signed_products_are_exact()
    ensures { SignedProductsAreExact }
{}

/// DIV gives the quotient and the remainder, and faults exactly where no quotient fits.
pub fn divisions_are_exact()
    ensures { DivisionsAreExact }
{}

/// IDIV gives the quotient and the remainder of the signed numbers, and faults exactly where no
/// quotient fits.
pub fn signed_divisions_are_exact()
    ensures { SignedDivisionsAreExact }
{}
