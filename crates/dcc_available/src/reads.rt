//! How often a graph reads its temporaries, and which of them are read beside a number alone.

use dcc_ir::{BinOp, Block, End, Expr, Graph, Loc, Stmt, UnOp};
use std::alloc::{AllocError, Global};

/// For each temporary how often it is read, and whether a sum may stand in the place of each read.
#[derive(Drop)]
pub struct Reads {
    counts: Vec<usize>,
    takes_sum: Vec<bool>,
}

// Whether an expression is a number.
fn is_number(e: &Expr) -> bool {
    match e {
        Expr::Const(..) => true,
        _ => false,
    }
}

// The location that an expression is a read of.
fn read_by(e: &Expr) -> Option<Loc> {
    match e {
        Expr::Get(location) => Some(*location),
        _ => None,
    }
}

// The location that an expression reads beside a number, where the rules take a sum with another number in: in a sum, a
// difference or an equality with a number on the right, or in a test for zero.
fn read_beside_number(e: &Expr) -> Option<Loc> {
    match e {
        Expr::Bin(BinOp::Eq | BinOp::Add | BinOp::Sub, _, left, right) if is_number(right) => {
            read_by(left)
        }
        Expr::Un(UnOp::IsZero, _, operand) => read_by(operand),
        _ => None,
    }
}

// Whether an expression is the sum or the difference of what a temporary holds and a number.
fn is_sum(e: &Expr) -> bool {
    match e {
        Expr::Bin(BinOp::Add | BinOp::Sub, _, left, right) => match read_by(left) {
            Some(Loc::Temp(_)) => is_number(right),
            _ => false,
        },
        _ => false,
    }
}

impl Reads {
    // No reads of so many temporaries.
    fn new(alloc: Global, count: usize) -> Result<Reads, AllocError> {
        Ok(Reads {
            counts: vec![in alloc; 0; count]?,
            takes_sum: vec![in alloc; true; count]?,
        })
    }

    /// Whether a temporary is read just once.
    pub fn is_once(&self, temporary: u32) -> bool {
        match self.counts.get(temporary as usize) {
            Some(count) => *count == 1,
            None => false,
        }
    }

    /// Whether a temporary that was set to the expression may become it at each of its reads: it is a sum with a number,
    /// and each read takes one.
    pub fn takes(&self, temporary: u32, value: &Expr) -> bool {
        match self.takes_sum.get(temporary as usize) {
            Some(takes) => *takes && is_sum(value),
            None => false,
        }
    }

    /// Where these blocks, which stand for the graph's, still read a temporary that the graph sets to a sum which its
    /// reads take, they no longer take it. Tells whether there is one.
    pub fn keep_gone(
        &mut self,
        alloc: Global,
        g: &Graph,
        blocks: &Vec<Option<Block>>,
    ) -> Result<bool, AllocError> {
        let mut left = Reads::new(alloc, self.counts.len())?;
        for block in blocks {
            if let Some(block) = block {
                left.count_block(block);
            }
        }
        let mut some = false;
        for block in &g.blocks {
            for stmt in &block.stmts {
                some = self.take_none_left(&left, stmt) || some;
            }
        }
        Ok(some)
    }

    // Whether the statement sets a temporary to a sum that its reads take, and it is still read; it takes none any more.
    fn take_none_left(&mut self, left: &Reads, stmt: &Stmt) -> bool {
        let Stmt::Set { place, value } = stmt else {
            return false;
        };
        let Loc::Temp(temporary) = *place else {
            return false;
        };
        let some = self.takes(temporary, value) && !left.is_unread(temporary);
        if some {
            self.take_none(*place);
        }
        some
    }

    // Whether a temporary is never read.
    fn is_unread(&self, temporary: u32) -> bool {
        match self.counts.get(temporary as usize) {
            Some(count) => *count == 0,
            None => true,
        }
    }

    // Counts the reads of an expression; one that isn't beside a number takes no sum.
    fn count(&mut self, e: &Expr) {
        if let Some(location) = read_beside_number(e) {
            self.count_one(location);
            return;
        }
        match e {
            Expr::Const(..) | Expr::Address(_) => {}
            Expr::Get(location) => {
                self.count_one(*location);
                self.take_none(*location);
            }
            Expr::Load(_, a) | Expr::Un(_, _, a) | Expr::Widen(_, _, a) | Expr::Part(_, _, a) => {
                self.count(a);
            }
            Expr::Bin(_, _, a, b) | Expr::Join(a, b) => {
                self.count(a);
                self.count(b);
            }
            Expr::Choose(test, a, b) => {
                self.count(test);
                self.count(a);
                self.count(b);
            }
        }
    }

    fn count_one(&mut self, location: Loc) {
        if let Loc::Temp(temporary) = location {
            if let Some(count) = self.counts.get_mut(temporary as usize) {
                *count = count.saturating_add(1);
            }
        }
    }

    fn take_none(&mut self, location: Loc) {
        if let Loc::Temp(temporary) = location {
            if let Some(takes) = self.takes_sum.get_mut(temporary as usize) {
                *takes = false;
            }
        }
    }

    // What an expression reads takes no sum.
    fn take_none_in(&mut self, e: &Expr) {
        match e {
            Expr::Const(..) | Expr::Address(_) => {}
            Expr::Get(location) => self.take_none(*location),
            Expr::Load(_, a) | Expr::Un(_, _, a) | Expr::Widen(_, _, a) | Expr::Part(_, _, a) => {
                self.take_none_in(a);
            }
            Expr::Bin(_, _, a, b) | Expr::Join(a, b) => {
                self.take_none_in(a);
                self.take_none_in(b);
            }
            Expr::Choose(test, a, b) => {
                self.take_none_in(test);
                self.take_none_in(a);
                self.take_none_in(b);
            }
        }
    }

    fn count_all(&mut self, es: &[Expr]) {
        for e in es {
            self.count(e);
        }
    }

    fn count_stmt(&mut self, stmt: &Stmt) {
        match stmt {
            Stmt::Set { value, .. } => self.count(value),
            Stmt::Load { address, .. } => self.count(address),
            Stmt::Store { address, value, .. } => {
                self.count(address);
                self.count(value);
            }
            Stmt::Div { division, .. } => {
                self.count(division);
                self.take_none_in(division);
            }
            Stmt::Call { arguments, .. } => self.count_all(arguments.as_slice()),
            Stmt::Dos { argument, .. } => {
                if let Some(e) = argument {
                    self.count(e);
                }
            }
        }
    }

    fn count_block(&mut self, block: &Block) {
        for stmt in &block.stmts {
            self.count_stmt(stmt);
        }
        match &block.end {
            End::If { test, .. } => self.count(test),
            End::Switch { value, .. } => self.count(value),
            End::Ret(values) => self.count_all(values.as_slice()),
            End::Goto(_) | End::Stop => {}
        }
    }
}

/// How often a graph reads each of its temporaries, and whether its reads take sums.
pub fn count_reads(alloc: Global, g: &Graph) -> Result<Reads, AllocError> {
    let mut reads = Reads::new(alloc, g.bits.len())?;
    for block in &g.blocks {
        reads.count_block(block);
    }
    Ok(reads)
}
