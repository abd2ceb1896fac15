//! Which definition of a flag is known to reach a place.

ghost use Rattle.std.specs.Prelude.{◌≡◌};
ghost use Rattle.dcc_ir.specs.Views.{stmt_of};
ghost use Rattle.dcc_flags.specs.Sources as spec;

use crate::uses::{chooses, defines};
use dcc_ir::Stmt;
use dcc_num::FlagName;

/// Which definition of a flag is known to reach a place.
#[derive(Clone, Copy, PartialEq, Eq, Debug)]
pub enum Source {
    /// No definition so far.
    Nothing,
    /// The start of the graph alone.
    Start,
    /// A statement of a block alone.
    At { block: usize, stmt: usize },
    /// Two definitions or more.
    Several,
}

impl Source {
    // What is known where two sources come together.
    pub fn joined(self, other: Source) -> Source
        ensures { result ≡ spec.joined self other }
    {
        match self {
            Source::Nothing => other,
            Source::Start => match other {
                Source::Nothing | Source::Start => Source::Start,
                Source::At { .. } | Source::Several => Source::Several,
            },
            Source::At { block, stmt } => match other {
                Source::Nothing => self,
                Source::At { block: b, stmt: s } => {
                    if block == b && stmt == s {
                        self
                    } else {
                        Source::Several
                    }
                }
                Source::Start | Source::Several => Source::Several,
            },
            Source::Several => Source::Several,
        }
    }

    // What is known past a definition, which may let earlier ones through.
    pub fn defined(self, block: usize, stmt: usize, chooses: bool) -> Source
        ensures { result ≡ spec.defined self block stmt chooses }
    {
        let definition = Source::At { block, stmt };
        match self {
            Source::Nothing => Source::Nothing,
            Source::Start | Source::At { .. } | Source::Several => {
                if chooses {
                    self.joined(definition)
                } else {
                    definition
                }
            }
        }
    }

    // What is known past a statement, by the place of its block and its own.
    pub fn moved(self, f: FlagName, block: usize, place: usize, stmt: &Stmt) -> Source
        ensures { result ≡ spec.moved f self block place (stmt_of stmt.now) }
    {
        if defines(f, stmt) {
            self.defined(block, place, chooses(f, stmt))
        } else {
            self
        }
    }

    // How much is known, as a number that rises.
    pub fn rank(self) -> usize
        ensures { result ≡ spec.rank self }
    {
        match self {
            Source::Nothing => 0,
            Source::Start | Source::At { .. } => 1,
            Source::Several => 2,
        }
    }

    // Whether several definitions reach.
    pub fn is_mixed(self) -> bool
        ensures { result ≡ spec.is_mixed self }
    {
        match self {
            Source::Several => true,
            Source::Nothing | Source::Start | Source::At { .. } => false,
        }
    }
}
