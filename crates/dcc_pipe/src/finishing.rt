//! A text as `c` gives it.

ghost use Rattle.std.specs.Prelude.{IfOk};
ghost use Rattle.dcc_c.specs.Views.{tree_of};
ghost use Rattle.dcc_c.proofs.Writable.{IsWritable};
ghost use Rattle.dcc_pipe.specs.Finished.{IsFinishedFrom};

use dcc_c::Unit;
use dcc_casts::{needless_casts_may_go, without_casts};
use dcc_named::{accesses_may_be_named, named};
use dcc_print::number;
use dcc_respell::respelled_texts_run_alike;
use std::alloc::{AllocError, Global};

/// The text of a plain one: its accesses to memory by the names of its global variables, without needless casts, and with
/// its lines counted. It keeps what is told of the plain one.
pub(crate) fn finished(alloc: Global, plain: &Unit) -> Result<Unit, AllocError>
    requires { IsWritable (tree_of plain.now) }
    ensures { IfOk result (λ unit. IsFinishedFrom (tree_of plain.now) (tree_of unit)) }
{
    // The text runs as the plain one does, by the laws that are called here.
    accesses_may_be_named();
    needless_casts_may_go();
    respelled_texts_run_alike();
    let by_names = named(alloc, plain)?;
    let written = without_casts(alloc, &by_names)?;
    number(alloc, written)
}
