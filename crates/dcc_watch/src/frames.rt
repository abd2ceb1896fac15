//! The frames that live.

ghost use Rattle.std.specs.Prelude.{◌≡◌, ◌+◌, ◌<◌, ◌≤◌, [], ◌∷◌, drop, length, IfOk, nat_le};
ghost use Rattle.dcc_watch.specs.Shapes.{end_of, exposed_in};
ghost use Rattle.dcc_watch.specs.Ordered.{AreOrdered, AreBelow};

use crate::shape::{NO_SHAPE, Shape};
use std::alloc::{AllocError, Global};
use std::marker::Model;

/// A procedure that has begun and has not returned.
#[derive(Clone, Copy)]
pub(crate) struct Live {
    /// The offset at which the procedure begins.
    pub(crate) entry: u16,
    /// The offset of the procedure's first argument in the data segment.
    pub(crate) base: u32,
    /// The shape of the procedure's frame.
    pub(crate) shape: Shape,
}

impl Live {
    // Whether the procedure's arguments end at an offset or below.
    fn ends_by(self, offset: u16) -> bool
        ensures { result ≡ nat_le (end_of self) offset }
    {
        u64::from(self.base) + 2 * u64::from(self.shape.args) <= u64::from(offset)
    }
}

// How many of the frames, which are in order, have arguments that end at an offset or below. They are the newest.
fn count_below(lives: &[Live], offset: u16) -> usize
    requires ordered { AreOrdered 0 lives.now }
    ensures few { result ≤ length lives.now }
    ensures below { AreBelow lives.now offset result }
{
    let (mut low, mut high) = (0, lives.len());
    while low < high {
        let middle = low + (high - low) / 2;
        if lives[middle].ends_by(offset) {
            low = middle + 1;
        } else {
            high = middle;
        }
    }
    low
}

/// The frames that live, the newest first, and how many there is room for.
#[derive(Drop)]
pub(crate) struct Frames {
    // The frames from index `newest` on live, the newest first.
    items: Vec<Live>,
    newest: usize,
}

impl Model for Frames {
    ghost use Rattle.std.specs.Prelude.{◌≤◌, drop, vec_len};
    ghost use Rattle.dcc_watch.specs.Kept.{Kept};

    ghost Value = { Kept };

    ghost view = { λ frames. record { room = vec_len frames.items; live = drop frames.newest frames.items.items } };

    ghost invariant = { λ frames. frames.newest ≤ vec_len frames.items };
}

impl Frames {
    /// No frame yet, and room for `room` of them.
    pub(crate) fn with_room(alloc: Global, room: usize) -> Result<Frames, AllocError>
        ensures { IfOk result (λ frames. frames ≡ record { room = room; live = [] }) }
    {
        let mut items = Vec::with_capacity(alloc, room)?;
        items.resize(
            room,
            Live {
                entry: 0,
                base: 0,
                shape: NO_SHAPE,
            },
        )?;
        Ok(Frames {
            items,
            newest: room,
        })
    }

    /// Begins a frame, which is the newest now.
    pub(crate) fn begin(&mut self, live: Live)
        requires { length self.old.live < self.old.room }
        ensures { self.new ≡ record { room = self.old.room; live = live ∷ self.old.live } }
    {
        self.newest -= 1;
        self.items[self.newest] = live;
    }

    /// Ends the newest frame, if there is one.
    pub(crate) fn end(&mut self)
        ensures { self.new ≡ record { room = self.old.room; live = drop 1 self.old.live } }
    {
        if self.newest < self.items.len() {
            self.newest += 1;
        }
    }

    /// Whether the newest frame whose part holds the byte at an offset exposes it; SP stands at the first offset. The
    /// frames are in order, so that one is found by halving.
    pub(crate) fn is_exposed(&self, top: u32, offset: u16) -> bool
        requires ordered { AreOrdered top self.now.live }
        ensures { result ≡ exposed_in top self.now.live offset }
    {
        let lives = &self.items[self.newest..];
        let place = count_below(lives, offset);
        let low = if place == 0 {
            top
        } else {
            lives[place - 1].base
        };
        if place == lives.len() || u32::from(offset) < low {
            return false;
        }
        let live = lives[place];
        live.shape.exposes(live.base, offset)
    }
}
