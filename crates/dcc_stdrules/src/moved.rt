//! Sums with two constants as sums with one.

ghost use Rattle.std.specs.Prelude.{◌≡◌};
ghost use Rattle.dcc_stdrules.specs.Sums.{outer_of, inner_of, IsMoved};

use crate::values::{limit, wrapped};
use dcc_ir::BinOp;

/// Which operators stand in a sum of a sum.
#[derive(Clone, Copy)]
pub enum Sums {
    /// A number is added to x, and another one to the sum.
    Added,
    /// A number is subtracted from x, and another one from the difference.
    Subtracted,
    /// A number is added to x, and another one subtracted from the sum.
    Mixed,
    /// A number is subtracted from x, and another one added to the difference.
    Returned,
}

/// An operator that adds or subtracts, and the number to its right.
#[derive(Clone, Copy)]
pub struct Moved {
    pub operator: BinOp,
    pub number: u32,
}

// Two numbers that are added, as one.
fn added(width: u8, c: u32, d: u32) -> Moved
    ensures { IsMoved Sums.Added width c d result }
{
    let sum = u64::from(c) + u64::from(d);
    Moved {
        operator: BinOp::Add,
        number: wrapped(width, sum).unwrap_or(0),
    }
}

// Two numbers that are subtracted, as one.
fn subtracted(width: u8, c: u32, d: u32) -> Moved
    ensures { IsMoved Sums.Subtracted width c d result }
{
    let sum = u64::from(c) + u64::from(d);
    Moved {
        operator: BinOp::Sub,
        number: wrapped(width, sum).unwrap_or(0),
    }
}

// A number that is added and one that is subtracted, as one: it is subtracted where it is negative.
fn mixed(width: u8, c: u32, d: u32) -> Moved
    ensures { IsMoved Sums.Mixed width c d result }
{
    let Some(limit) = limit(width) else {
        return Moved {
            operator: BinOp::Add,
            number: 0,
        };
    };
    let number = (u64::from(c) + limit).saturating_sub(u64::from(d)) % limit;
    if number > 0 && number >= limit / 2 {
        Moved {
            operator: BinOp::Sub,
            number: (limit - number) as u32,
        }
    } else {
        Moved {
            operator: BinOp::Add,
            number: number as u32,
        }
    }
}

// A number that is subtracted and one that is added, as one: as if the second came first.
fn returned(width: u8, c: u32, d: u32) -> Moved
    ensures { IsMoved Sums.Returned width c d result }
{
    mixed(width, d, c)
}

impl Sums {
    /// The operator of the sum.
    pub fn outer(self) -> BinOp
        ensures { result ≡ outer_of self }
    {
        match self {
            Sums::Added | Sums::Returned => BinOp::Add,
            Sums::Subtracted | Sums::Mixed => BinOp::Sub,
        }
    }

    /// The operator of the sum in it.
    pub fn inner(self) -> BinOp
        ensures { result ≡ inner_of self }
    {
        match self {
            Sums::Added | Sums::Mixed => BinOp::Add,
            Sums::Subtracted | Sums::Returned => BinOp::Sub,
        }
    }

    /// One operator and number that do at that width what both do with these numbers.
    pub fn moved(self, width: u8, c: u32, d: u32) -> Moved
        ensures { IsMoved self width c d result }
    {
        match self {
            Sums::Added => added(width, c, d),
            Sums::Subtracted => subtracted(width, c, d),
            Sums::Mixed => mixed(width, c, d),
            Sums::Returned => returned(width, c, d),
        }
    }
}
