//! What the watch keeps of a procedure's frame.

ghost use Rattle.std.specs.Prelude.{◌≡◌, ◌+◌, pos, ◌-ℤ◌, IfOk};
ghost use Rattle.dcc_watch.specs.Shapes.{exposes, exposes_argument, shape_of, shapes_of};

use dcc_prog::{Exposed, Frame, Program};
use std::alloc::{AllocError, Global};

/// The arguments of a frame, and its bytes whose address may be computed.
#[derive(Clone, Copy)]
pub(crate) struct Shape {
    /// The number of argument words.
    pub(crate) args: u16,
    /// The exposed bytes.
    pub(crate) exposed: Exposed,
}

/// What stands for a procedure that there is not: no argument, and no exposed byte.
pub(crate) const NO_SHAPE: Shape = Shape {
    args: 0,
    exposed: Exposed {
        local: 0,
        arg: None,
    },
};

/// The number of offsets in a segment.
pub(crate) const OFFSETS: usize = 0x1_0000;

impl Shape {
    /// The shape of a frame.
    fn of(frame: &Frame) -> Shape
        ensures { result ≡ shape_of frame.now }
    {
        Shape {
            args: frame.args,
            exposed: frame.exposed,
        }
    }

    /// Whether a frame with this base exposes the byte at an offset.
    pub(crate) fn exposes(self, base: u32, offset: u16) -> bool
        ensures { result ≡ exposes self (pos (offset + 4) -ℤ pos base) }
    {
        let k = i64::from(offset) + 4 - i64::from(base);
        let below_bp = -i64::from(self.exposed.local) <= k && k < 0;
        below_bp || self.exposes_argument(k)
    }

    // Whether the byte at `k` bytes from BP is an exposed one of the arguments.
    fn exposes_argument(self, k: i64) -> bool
        ensures { result ≡ exposes_argument self k }
    {
        match self.exposed.arg {
            None => false,
            Some(least) => i64::from(least) <= k && k < 4 + 2 * i64::from(self.args),
        }
    }
}

/// For each offset the shape of the frame of the procedure that begins there.
pub(crate) fn shapes(alloc: Global, program: &Program) -> Result<Vec<Shape>, AllocError>
    ensures { IfOk result (λ shapes. shapes.items ≡ shapes_of program.now.procs.items program.now.cells.frames.items) }
{
    let mut shapes = Vec::with_capacity(alloc, OFFSETS)?;
    shapes.resize(OFFSETS, NO_SHAPE)?;
    let procs = program.procs.as_slice();
    let frames = program.cells.frames.as_slice();
    let mut left = procs.len().min(frames.len());
    while left > 0 {
        left -= 1;
        shapes[usize::from(procs[left].entry)] = Shape::of(&frames[left]);
    }
    Ok(shapes)
}
