//! What the rules above 40 leave of expressions.

use crate::shapes::Shape::{Bits, Constant, Halves, One, Temporary, Two, Wide};
use crate::shapes::{Row, check};
use dcc_ir::BinOp::{Add, And, Eq, LeS, LeU, LtS, LtU, Mul, Or, Sar, Shl, Shr, Sub, Xor};
use dcc_ir::UnOp::{IsZero, Neg, Not};
use dcc_morerules::*;
use dcc_rules::{Rule, RuleList};
use dcc_widthrules::*;
use std::test::Fail;

// Tests that are one comparison, and such as stay.
const TESTS: [Row; 16] = [
    Row {
        given: Two(
            Xor,
            16,
            &Temporary(2),
            &Two(Xor, 16, &Temporary(3), &Temporary(2)),
        ),
        simple: Temporary(3),
    },
    Row {
        given: Two(
            Or,
            1,
            &Two(Eq, 16, &Temporary(2), &Temporary(3)),
            &Two(LtS, 16, &Temporary(2), &Temporary(3)),
        ),
        simple: Two(LeS, 16, &Temporary(2), &Temporary(3)),
    },
    Row {
        given: Two(
            Or,
            1,
            &Two(LtU, 16, &Temporary(2), &Temporary(3)),
            &Two(Eq, 16, &Temporary(3), &Temporary(2)),
        ),
        simple: Two(LeU, 16, &Temporary(2), &Temporary(3)),
    },
    Row {
        given: Two(
            Or,
            1,
            &Two(Eq, 8, &Temporary(0), &Temporary(1)),
            &Two(LtU, 16, &Temporary(2), &Temporary(3)),
        ),
        simple: Two(
            Or,
            1,
            &Two(Eq, 8, &Temporary(0), &Temporary(1)),
            &Two(LtU, 16, &Temporary(2), &Temporary(3)),
        ),
    },
    Row {
        given: One(Not, 1, &Two(LtS, 16, &Temporary(2), &Temporary(3))),
        simple: Two(LeS, 16, &Temporary(3), &Temporary(2)),
    },
    Row {
        given: One(Not, 1, &Two(LeU, 8, &Temporary(0), &Temporary(1))),
        simple: Two(LtU, 8, &Temporary(1), &Temporary(0)),
    },
    Row {
        given: Two(
            Eq,
            16,
            &Two(Sub, 16, &Temporary(2), &Constant(16, 5)),
            &Constant(16, 65534),
        ),
        simple: Two(Eq, 16, &Temporary(2), &Constant(16, 3)),
    },
    Row {
        given: Two(
            Eq,
            8,
            &Two(Add, 8, &Temporary(0), &Constant(8, 5)),
            &Constant(8, 3),
        ),
        simple: Two(Eq, 8, &Temporary(0), &Constant(8, 254)),
    },
    Row {
        given: One(IsZero, 16, &Two(Sub, 16, &Temporary(2), &Temporary(3))),
        simple: Two(Eq, 16, &Temporary(2), &Temporary(3)),
    },
    Row {
        given: One(IsZero, 32, &Two(Add, 32, &Temporary(4), &Constant(32, 1))),
        simple: Two(Eq, 32, &Temporary(4), &Constant(32, 4294967295)),
    },
    Row {
        given: One(IsZero, 16, &Two(Xor, 16, &Temporary(2), &Temporary(3))),
        simple: Two(Eq, 16, &Temporary(2), &Temporary(3)),
    },
    Row {
        given: One(IsZero, 1, &Two(Xor, 1, &Temporary(5), &Temporary(5))),
        simple: One(IsZero, 1, &Two(Xor, 1, &Temporary(5), &Temporary(5))),
    },
    Row {
        given: Two(
            Or,
            1,
            &One(IsZero, 16, &Temporary(2)),
            &Two(LtS, 16, &Temporary(2), &Constant(16, 0)),
        ),
        simple: Two(LeS, 16, &Temporary(2), &Constant(16, 0)),
    },
    Row {
        given: Two(
            Or,
            1,
            &Two(LtS, 16, &Temporary(2), &Constant(16, 1)),
            &One(IsZero, 16, &Temporary(2)),
        ),
        simple: Two(
            Or,
            1,
            &Two(LtS, 16, &Temporary(2), &Constant(16, 1)),
            &One(IsZero, 16, &Temporary(2)),
        ),
    },
    Row {
        given: One(IsZero, 1, &Two(LeS, 16, &Temporary(2), &Temporary(3))),
        simple: Two(LtS, 16, &Temporary(3), &Temporary(2)),
    },
    Row {
        given: One(IsZero, 1, &Two(Eq, 16, &Temporary(2), &Temporary(3))),
        simple: One(IsZero, 1, &Two(Eq, 16, &Temporary(2), &Temporary(3))),
    },
];

// Parts, halves and widened expressions, and such as stay.
const PARTS: [Row; 21] = [
    Row {
        given: Bits(1, 7, &Bits(8, 8, &Temporary(4))),
        simple: Bits(1, 15, &Temporary(4)),
    },
    Row {
        given: Bits(1, 15, &Halves(&Temporary(0), &Temporary(1))),
        simple: Bits(1, 7, &Temporary(0)),
    },
    Row {
        given: Bits(1, 7, &Halves(&Temporary(0), &Temporary(1))),
        simple: Bits(1, 7, &Temporary(1)),
    },
    Row {
        given: Bits(8, 4, &Halves(&Temporary(0), &Temporary(1))),
        simple: Bits(8, 4, &Halves(&Temporary(0), &Temporary(1))),
    },
    Row {
        given: Bits(8, 0, &Wide(true, 32, &Temporary(2))),
        simple: Bits(8, 0, &Temporary(2)),
    },
    Row {
        given: Bits(16, 0, &Wide(true, 32, &Temporary(0))),
        simple: Wide(true, 16, &Temporary(0)),
    },
    Row {
        given: Bits(8, 8, &Wide(false, 16, &Temporary(0))),
        simple: Constant(8, 0),
    },
    Row {
        given: Bits(8, 8, &Wide(true, 16, &Temporary(0))),
        simple: Bits(8, 8, &Wide(true, 16, &Temporary(0))),
    },
    Row {
        given: Wide(true, 32, &Wide(false, 16, &Temporary(0))),
        simple: Wide(false, 32, &Temporary(0)),
    },
    Row {
        given: Wide(false, 32, &Wide(true, 16, &Temporary(0))),
        simple: Wide(false, 32, &Wide(true, 16, &Temporary(0))),
    },
    Row {
        given: Halves(&Constant(8, 0), &Temporary(0)),
        simple: Wide(false, 16, &Temporary(0)),
    },
    Row {
        given: Halves(&Bits(8, 8, &Wide(true, 16, &Temporary(0))), &Temporary(0)),
        simple: Wide(true, 16, &Temporary(0)),
    },
    Row {
        given: Halves(&Bits(8, 16, &Temporary(4)), &Bits(8, 8, &Temporary(4))),
        simple: Bits(16, 8, &Temporary(4)),
    },
    Row {
        given: Halves(&Bits(8, 24, &Temporary(4)), &Bits(8, 8, &Temporary(4))),
        simple: Halves(&Bits(8, 24, &Temporary(4)), &Bits(8, 8, &Temporary(4))),
    },
    Row {
        given: Bits(8, 0, &Two(And, 16, &Temporary(2), &Constant(16, 511))),
        simple: Bits(8, 0, &Temporary(2)),
    },
    Row {
        given: Bits(8, 0, &Two(And, 16, &Temporary(2), &Constant(16, 127))),
        simple: Bits(8, 0, &Two(And, 16, &Temporary(2), &Constant(16, 127))),
    },
    Row {
        given: Bits(
            8,
            0,
            &Two(
                Sub,
                16,
                &Wide(false, 16, &Temporary(0)),
                &Halves(&Temporary(0), &Temporary(1)),
            ),
        ),
        simple: Two(Sub, 8, &Temporary(0), &Temporary(1)),
    },
    Row {
        given: Bits(
            8,
            0,
            &Two(Shr, 16, &Wide(false, 16, &Temporary(0)), &Constant(16, 1)),
        ),
        simple: Bits(
            8,
            0,
            &Two(Shr, 16, &Wide(false, 16, &Temporary(0)), &Constant(16, 1)),
        ),
    },
    Row {
        given: Halves(
            &Bits(8, 8, &Temporary(2)),
            &Two(Or, 8, &Bits(8, 0, &Temporary(2)), &Constant(8, 3)),
        ),
        simple: Two(Or, 16, &Temporary(2), &Constant(16, 3)),
    },
    Row {
        given: Halves(
            &Two(And, 8, &Bits(8, 8, &Temporary(2)), &Constant(8, 15)),
            &Bits(8, 0, &Temporary(2)),
        ),
        simple: Two(And, 16, &Temporary(2), &Constant(16, 4095)),
    },
    Row {
        given: Halves(
            &Two(Xor, 8, &Bits(8, 8, &Temporary(2)), &Constant(8, 15)),
            &Bits(8, 0, &Temporary(3)),
        ),
        simple: Halves(
            &Two(Xor, 8, &Bits(8, 8, &Temporary(2)), &Constant(8, 15)),
            &Bits(8, 0, &Temporary(3)),
        ),
    },
];

// Sums, multiples and shifts, and such as stay.
const ARITHMETIC: [Row; 16] = [
    Row {
        given: Two(
            Add,
            16,
            &Two(Sub, 16, &Temporary(2), &Constant(16, 8)),
            &Constant(16, 5),
        ),
        simple: Two(Sub, 16, &Temporary(2), &Constant(16, 3)),
    },
    Row {
        given: Two(
            Add,
            8,
            &Two(Sub, 8, &Temporary(0), &Constant(8, 5)),
            &Constant(8, 8),
        ),
        simple: Two(Add, 8, &Temporary(0), &Constant(8, 3)),
    },
    Row {
        given: Two(And, 16, &Constant(16, 0), &Temporary(2)),
        simple: Constant(16, 0),
    },
    Row {
        given: Two(
            Or,
            16,
            &Constant(16, 0),
            &Two(Xor, 16, &Constant(16, 0), &Temporary(2)),
        ),
        simple: Temporary(2),
    },
    Row {
        given: Two(Sub, 16, &Constant(16, 0), &Temporary(2)),
        simple: One(Neg, 16, &Temporary(2)),
    },
    Row {
        given: Two(Add, 16, &Temporary(2), &One(Neg, 16, &Temporary(3))),
        simple: Two(Sub, 16, &Temporary(2), &Temporary(3)),
    },
    Row {
        given: Two(Sub, 16, &Temporary(2), &One(Neg, 16, &Temporary(3))),
        simple: Two(Sub, 16, &Temporary(2), &One(Neg, 16, &Temporary(3))),
    },
    Row {
        given: Two(
            Shr,
            16,
            &Two(Shl, 16, &Temporary(2), &Constant(16, 4)),
            &Constant(16, 4),
        ),
        simple: Two(And, 16, &Temporary(2), &Constant(16, 4095)),
    },
    Row {
        given: Two(
            Shr,
            16,
            &Two(Shl, 16, &Temporary(2), &Constant(16, 4)),
            &Constant(16, 3),
        ),
        simple: Two(
            Shr,
            16,
            &Two(Shl, 16, &Temporary(2), &Constant(16, 4)),
            &Constant(16, 3),
        ),
    },
    Row {
        given: Two(
            Shl,
            16,
            &Two(Shl, 16, &Temporary(2), &Constant(16, 2)),
            &Constant(16, 3),
        ),
        simple: Two(Shl, 16, &Temporary(2), &Constant(16, 5)),
    },
    Row {
        given: Two(
            Sar,
            8,
            &Two(Sar, 8, &Temporary(0), &Constant(8, 4)),
            &Constant(8, 3),
        ),
        simple: Two(Sar, 8, &Temporary(0), &Constant(8, 7)),
    },
    Row {
        given: Two(
            Shr,
            16,
            &Two(Shr, 16, &Temporary(2), &Constant(16, 8)),
            &Constant(16, 8),
        ),
        simple: Two(
            Shr,
            16,
            &Two(Shr, 16, &Temporary(2), &Constant(16, 8)),
            &Constant(16, 8),
        ),
    },
    Row {
        given: Two(
            Add,
            16,
            &Two(Mul, 16, &Temporary(2), &Constant(16, 3)),
            &Two(Shl, 16, &Temporary(2), &Constant(16, 2)),
        ),
        simple: Two(Mul, 16, &Temporary(2), &Constant(16, 7)),
    },
    Row {
        given: Two(
            Add,
            16,
            &Temporary(2),
            &Two(Mul, 16, &Temporary(2), &Constant(16, 65535)),
        ),
        simple: Two(Mul, 16, &Temporary(2), &Constant(16, 0)),
    },
    Row {
        given: Two(Add, 16, &Temporary(2), &Temporary(2)),
        simple: Two(Add, 16, &Temporary(2), &Temporary(2)),
    },
    Row {
        given: Two(
            Shl,
            16,
            &Two(Mul, 16, &Temporary(2), &Constant(16, 5)),
            &Constant(16, 1),
        ),
        simple: Two(Mul, 16, &Temporary(2), &Constant(16, 10)),
    },
];

#[test]
fn tests_are_simplified(rt: HostRuntime) -> Result<(), Fail> {
    let mut rules = RuleList::new(rt.alloc());
    rules.push(Rule::new(41, rule_41))?;
    rules.push(Rule::new(42, rule_42))?;
    rules.push(Rule::new(43, rule_43))?;
    rules.push(Rule::new(44, rule_44))?;
    rules.push(Rule::new(45, rule_45))?;
    rules.push(Rule::new(46, rule_46))?;
    rules.push(Rule::new(47, rule_47))?;
    rules.push(Rule::new(48, rule_48))?;
    rules.push(Rule::new(60, rule_60))?;
    rules.push(Rule::new(61, rule_61))?;
    rules.push(Rule::new(62, rule_62))?;
    assert_eq!(rt; rules.len(), 11);
    check(&rt, rt.alloc(), &rules, &TESTS)
}

#[test]
fn parts_are_simplified(rt: HostRuntime) -> Result<(), Fail> {
    let mut rules = RuleList::new(rt.alloc());
    rules.push(Rule::new(50, rule_50))?;
    rules.push(Rule::new(51, rule_51))?;
    rules.push(Rule::new(52, rule_52))?;
    rules.push(Rule::new(53, rule_53))?;
    rules.push(Rule::new(54, rule_54))?;
    rules.push(Rule::new(55, rule_55))?;
    rules.push(Rule::new(56, rule_56))?;
    rules.push(Rule::new(63, rule_63))?;
    rules.push(Rule::new(64, rule_64))?;
    rules.push(Rule::new(66, rule_66))?;
    assert_eq!(rt; rules.len(), 10);
    check(&rt, rt.alloc(), &rules, &PARTS)
}

#[test]
fn sums_are_simplified(rt: HostRuntime) -> Result<(), Fail> {
    let mut rules = RuleList::new(rt.alloc());
    rules.push(Rule::new(57, rule_57))?;
    rules.push(Rule::new(58, rule_58))?;
    rules.push(Rule::new(59, rule_59))?;
    rules.push(Rule::new(65, rule_65))?;
    rules.push(Rule::new(67, rule_67))?;
    rules.push(Rule::new(68, rule_68))?;
    assert_eq!(rt; rules.len(), 6);
    check(&rt, rt.alloc(), &rules, &ARITHMETIC)
}
