//! What the standard rules leave of expressions.

use crate::shapes::Shape::{Bits, Choice, Constant, Halves, One, Temporary, Two, Wide};
use crate::shapes::{Row, check};
use dcc_ir::BinOp::{Add, And, LtS, LtU, Mul, Or, Sar, Shl, Sub, Xor};
use dcc_ir::UnOp::{IsZero, Neg, Not};
use dcc_rules::{Rule, RuleList};
use dcc_stdrules::*;
use std::test::Fail;

// Operators beside 0, 1 and the greatest number of a width, and on one operand twice.
const BESIDE: [Row; 7] = [
    Row {
        given: Two(
            Add,
            16,
            &Two(Sub, 16, &Temporary(2), &Constant(16, 0)),
            &Constant(16, 0),
        ),
        simple: Temporary(2),
    },
    Row {
        given: Two(
            Or,
            8,
            &Two(And, 8, &Temporary(0), &Constant(8, 255)),
            &Two(Xor, 8, &Temporary(1), &Temporary(1)),
        ),
        simple: Temporary(0),
    },
    Row {
        given: Two(
            Sub,
            16,
            &Two(Mul, 16, &Constant(16, 1), &Temporary(2)),
            &Two(Shl, 16, &Temporary(2), &Constant(16, 0)),
        ),
        simple: Constant(16, 0),
    },
    Row {
        given: Two(And, 32, &Temporary(4), &Constant(32, 0xffffffff)),
        simple: Temporary(4),
    },
    Row {
        given: Two(And, 32, &Temporary(4), &Constant(32, 65535)),
        simple: Two(And, 32, &Temporary(4), &Constant(32, 65535)),
    },
    Row {
        given: Two(Or, 16, &Temporary(3), &Constant(16, 65535)),
        simple: Constant(16, 65535),
    },
    Row {
        given: Two(Sub, 16, &Constant(16, 0), &Temporary(2)),
        simple: Two(Sub, 16, &Constant(16, 0), &Temporary(2)),
    },
];

// Constants and sums.
const CONSTANTS: [Row; 12] = [
    Row {
        given: Two(Add, 16, &Constant(16, 65535), &Constant(16, 2)),
        simple: Constant(16, 1),
    },
    Row {
        given: Two(Sub, 8, &Constant(8, 1), &Constant(8, 2)),
        simple: Constant(8, 255),
    },
    Row {
        given: One(Not, 8, &One(Not, 8, &One(Neg, 8, &Constant(8, 1)))),
        simple: Constant(8, 255),
    },
    Row {
        given: Two(Sar, 8, &Constant(8, 128), &Constant(8, 7)),
        simple: Constant(8, 255),
    },
    Row {
        given: Two(Shl, 16, &Constant(16, 32769), &Constant(16, 16)),
        simple: Constant(16, 0),
    },
    Row {
        given: Two(LtS, 8, &Constant(8, 200), &Constant(8, 16)),
        simple: Constant(1, 1),
    },
    Row {
        given: Two(LtU, 8, &Constant(8, 200), &Constant(8, 16)),
        simple: Constant(1, 0),
    },
    Row {
        given: Two(
            Add,
            16,
            &Two(Add, 16, &Temporary(2), &Constant(16, 5)),
            &Constant(16, 65534),
        ),
        simple: Two(Add, 16, &Temporary(2), &Constant(16, 3)),
    },
    Row {
        given: Two(
            Sub,
            16,
            &Two(Add, 16, &Temporary(2), &Constant(16, 5)),
            &Constant(16, 8),
        ),
        simple: Two(Sub, 16, &Temporary(2), &Constant(16, 3)),
    },
    Row {
        given: Two(
            Sub,
            16,
            &Two(Add, 16, &Temporary(2), &Constant(16, 8)),
            &Constant(16, 5),
        ),
        simple: Two(Add, 16, &Temporary(2), &Constant(16, 3)),
    },
    Row {
        given: Two(
            Sub,
            8,
            &Two(Sub, 8, &Temporary(0), &Constant(8, 200)),
            &Constant(8, 100),
        ),
        simple: Two(Sub, 8, &Temporary(0), &Constant(8, 44)),
    },
    Row {
        given: One(
            IsZero,
            16,
            &Two(Mul, 16, &Constant(16, 256), &Constant(16, 256)),
        ),
        simple: Constant(1, 1),
    },
];

// Halves, widths and choices.
const HALVES: [Row; 10] = [
    Row {
        given: Halves(&Bits(8, 8, &Temporary(2)), &Bits(8, 0, &Temporary(2))),
        simple: Temporary(2),
    },
    Row {
        given: Bits(8, 0, &Halves(&Temporary(1), &Temporary(0))),
        simple: Temporary(0),
    },
    Row {
        given: Bits(8, 8, &Halves(&Temporary(1), &Temporary(0))),
        simple: Temporary(1),
    },
    Row {
        given: Bits(
            8,
            8,
            &Halves(&Bits(8, 8, &Temporary(2)), &Bits(8, 0, &Temporary(3))),
        ),
        simple: Bits(8, 8, &Temporary(2)),
    },
    Row {
        given: Wide(true, 16, &Bits(8, 0, &Constant(16, 4736))),
        simple: Constant(16, 65408),
    },
    Row {
        given: Halves(&Constant(8, 18), &Bits(8, 8, &Constant(16, 13398))),
        simple: Constant(16, 4660),
    },
    Row {
        given: Bits(16, 0, &Wide(true, 32, &Temporary(2))),
        simple: Temporary(2),
    },
    Row {
        given: Bits(8, 0, &Wide(true, 32, &Temporary(2))),
        simple: Bits(8, 0, &Wide(true, 32, &Temporary(2))),
    },
    Row {
        given: Choice(&Constant(1, 0), &Temporary(2), &Bits(16, 0, &Temporary(3))),
        simple: Temporary(3),
    },
    Row {
        given: Halves(&Bits(16, 16, &Temporary(4)), &Bits(16, 0, &Temporary(4))),
        simple: Temporary(4),
    },
];

#[test]
fn beside_are_simplified(rt: HostRuntime) -> Result<(), Fail> {
    let mut rules = RuleList::new(rt.alloc());
    rules.push(Rule::new(1, rule_1))?;
    rules.push(Rule::new(2, rule_2))?;
    rules.push(Rule::new(3, rule_3))?;
    rules.push(Rule::new(4, rule_4))?;
    rules.push(Rule::new(5, rule_5))?;
    rules.push(Rule::new(6, rule_6))?;
    rules.push(Rule::new(7, rule_7))?;
    rules.push(Rule::new(8, rule_8))?;
    rules.push(Rule::new(9, rule_9))?;
    rules.push(Rule::new(10, rule_10))?;
    rules.push(Rule::new(11, rule_11))?;
    rules.push(Rule::new(12, rule_12))?;
    rules.push(Rule::new(13, rule_13))?;
    rules.push(Rule::new(14, rule_14))?;
    rules.push(Rule::new(15, rule_15))?;
    rules.push(Rule::new(16, rule_16))?;
    rules.push(Rule::new(17, rule_17))?;
    rules.push(Rule::new(18, rule_18))?;
    assert_eq!(rt; rules.len(), 18);
    check(&rt, rt.alloc(), &rules, &BESIDE)
}

#[test]
fn constants_are_simplified(rt: HostRuntime) -> Result<(), Fail> {
    let mut rules = RuleList::new(rt.alloc());
    rules.push(Rule::new(19, rule_19))?;
    rules.push(Rule::new(20, rule_20))?;
    rules.push(Rule::new(21, rule_21))?;
    rules.push(Rule::new(22, rule_22))?;
    rules.push(Rule::new(23, rule_23))?;
    rules.push(Rule::new(24, rule_24))?;
    rules.push(Rule::new(25, rule_25))?;
    rules.push(Rule::new(26, rule_26))?;
    rules.push(Rule::new(27, rule_27))?;
    rules.push(Rule::new(28, rule_28))?;
    rules.push(Rule::new(29, rule_29))?;
    rules.push(Rule::new(30, rule_30))?;
    rules.push(Rule::new(31, rule_31))?;
    rules.push(Rule::new(32, rule_32))?;
    assert_eq!(rt; rules.len(), 14);
    check(&rt, rt.alloc(), &rules, &CONSTANTS)
}

#[test]
fn halves_are_simplified(rt: HostRuntime) -> Result<(), Fail> {
    let mut rules = RuleList::new(rt.alloc());
    rules.push(Rule::new(33, rule_33))?;
    rules.push(Rule::new(34, rule_34))?;
    rules.push(Rule::new(35, rule_35))?;
    rules.push(Rule::new(36, rule_36))?;
    rules.push(Rule::new(37, rule_37))?;
    rules.push(Rule::new(38, rule_38))?;
    rules.push(Rule::new(39, rule_39))?;
    rules.push(Rule::new(40, rule_40))?;
    assert_eq!(rt; rules.len(), 8);
    check(&rt, rt.alloc(), &rules, &HALVES)
}
