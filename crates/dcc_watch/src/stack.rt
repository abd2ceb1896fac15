//! What is kept of the stack beside the machine.

ghost use Rattle.std.specs.Prelude.{◌≡◌, ◌+◌, ◌<◌, ◌^◌, [], ◌∷◌, length, true};
ghost use Rattle.dcc_prog.specs.Clean.{top_in};
ghost use Rattle.dcc_step.specs.Core.{state_of};
ghost use Rattle.dcc_watch.specs.Watching.{AllHaveShapes};
ghost use Rattle.dcc_watch.specs.Following.{first_live, is_call, live_after, written_following};

use crate::accesses::Accesses;
use crate::frames::{Frames, Live};
use crate::marks::Marks;
use crate::places::mark_stored;
use crate::shape::Shape;
use crate::sp::top;
use dcc_machine::{Instr, Op};
use dcc_prog::Layout;
use dcc_step::Machine;

/// The frames that live, and the bytes of the stack that are written.
#[derive(Drop)]
pub(crate) struct Stack {
    /// The frames of procedures that live.
    pub(crate) frames: Frames,
    /// The bytes that are written, by their offsets in the data segment.
    pub(crate) written: Marks,
}

/// What is known of a step before it is made: its accesses, and where SP stands.
#[derive(Drop)]
pub(crate) struct Before {
    /// The accesses of the step.
    pub(crate) list: Accesses,
    /// The offset of SP in the data segment.
    pub(crate) top: u32,
}

impl Before {
    /// What is known before a step whose accesses are not told yet: where SP stands.
    pub(crate) fn at(machine: &Machine, layout: &Layout) -> Before
        ensures list { result.list ≡ [] }
        ensures top { result.top ≡ top_in layout.now (state_of machine.now) }
    {
        Before {
            list: Accesses::new(),
            top: top(machine, layout),
        }
    }
}

// A CALL begins a frame, and a RET ends one.
fn follow_frames(frames: &mut Frames, shapes: &[Shape], found: Option<Instr>, from: u32)
    requires table { length shapes.now ≡ 2 ^ 16 }
    requires room { is_call found ≡ true → length frames.old.live < frames.old.room }
    ensures follows { frames.new
        ≡ record { room = frames.old.room; live = live_after shapes.now found from frames.old.live } }
    ensures known { AllHaveShapes shapes.now frames.old.live → AllHaveShapes shapes.now frames.new.live }
{
    let Some(instr) = found else {
        return;
    };
    match instr.op {
        Op::Call(entry) => {
            let shape = shapes[usize::from(entry)];
            frames.begin(Live {
                entry,
                base: from,
                shape,
            });
        }
        Op::Ret(_) => frames.end(),
        _ => {}
    }
}

// Marks what a step stores as written, and takes the marks off what SP rises past.
fn follow_bytes(
    written: &mut Marks,
    layout: &Layout,
    found: Option<Instr>,
    before: &Before,
    to: u32,
)
    ensures { written.new ≡ written_following layout.now found before.now.list before.now.top to written.old }
{
    if found.is_some() {
        mark_stored(layout, &before.list, written);
        written.unmark(before.top, to);
    }
}

/// Begins the frame of the entry procedure, where the machine has come to it.
pub(crate) fn begin_first(stack: &mut Stack, shapes: &[Shape], layout: &Layout, machine: &Machine)
    requires table { length shapes.now ≡ 2 ^ 16 }
    requires room { length stack.old.frames.live < stack.old.frames.room }
    ensures frames { stack.new.frames ≡ record {
      room = stack.old.frames.room;
      live = first_live shapes.now layout.now (state_of machine.now) ∷ stack.old.frames.live;
    } }
    ensures written { stack.new.written ≡ stack.old.written }
    ensures known { AllHaveShapes shapes.now stack.old.frames.live → AllHaveShapes shapes.now stack.new.frames.live }
{
    let entry = layout.start_ip;
    let base = top(machine, layout) + 2;
    let shape = shapes[usize::from(entry)];
    stack.frames.begin(Live { entry, base, shape });
}

/// Follows the step of an instruction that was found, which the machine has made.
pub(crate) fn follow(
    stack: &mut Stack,
    shapes: &[Shape],
    layout: &Layout,
    machine: &Machine,
    found: Option<Instr>,
    before: &Before,
)
    requires table { length shapes.now ≡ 2 ^ 16 }
    requires room { is_call found ≡ true → length stack.old.frames.live < stack.old.frames.room }
    ensures frames { stack.new.frames ≡ record {
      room = stack.old.frames.room;
      live = live_after shapes.now found before.now.top stack.old.frames.live;
    } }
    ensures written { stack.new.written ≡ written_following layout.now found before.now.list before.now.top
        (top_in layout.now (state_of machine.now)) stack.old.written }
    ensures known { AllHaveShapes shapes.now stack.old.frames.live → AllHaveShapes shapes.now stack.new.frames.live }
{
    follow_frames(&mut stack.frames, shapes, found, before.top);
    follow_bytes(
        &mut stack.written,
        layout,
        found,
        before,
        top(machine, layout),
    );
}
