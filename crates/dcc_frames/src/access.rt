//! Accesses to a frame that it doesn't allow, and calls that find too few bytes.

ghost use Rattle.std.specs.Prelude.{◌≡◌, ℕ, ◌*◌, pos, ◌≤ℤ◌, true, nat_eq, All, IfErr, OnOk};
ghost use Rattle.indexmap.specs.IndexMap.{get};
ghost use Rattle.dcc_frames.specs.Inside.{is_inside, has_access_inside, has_start_inside, is_allowed, own_of};
ghost use Rattle.dcc_frames.specs.Inside.{fault_in, passed_of, has_words, IsToldOf};

use crate::body::Body;
use crate::bytes::Bytes;
use crate::memory::{access, start};
use crate::steps::Step;
use dcc_machine::Op;
use dcc_prog::{ConstructKind, FrameFault, Refusal};
use indexmap::IndexMap;

// Whether bytes lie wholly in the arguments, or wholly between SP and BP.
fn is_inside(args: u16, height: u16, bytes: Bytes) -> bool
    ensures { result ≡ is_inside args height bytes }
{
    bytes.is_between(4, 4 + 2 * i32::from(args)) || bytes.is_between(2 - i32::from(height), 0)
}

// Whether a direct access of the instruction lies inside the frame, if it makes one.
fn has_access_inside(framed: bool, args: u16, step: Step) -> bool
    ensures { result ≡ has_access_inside framed args step }
{
    match access(framed, step.op) {
        Some(bytes) => is_inside(args, step.height, bytes),
        None => true,
    }
}

// Whether a start of exposure lies inside the frame, if there is one; there is to be none where the frame's addresses
// can't be told.
fn has_start_inside(args: u16, lacks_addresses: bool, step: Step) -> bool
    ensures { result ≡ has_start_inside args lacks_addresses step }
{
    match start(step.op, step.height) {
        Some(first) => {
            let end = first + 1;
            !lacks_addresses && is_inside(args, step.height, Bytes { first, end })
        }
        None => true,
    }
}

// Whether the frame allows what the instruction accesses and exposes.
fn is_allowed(framed: bool, args: u16, lacks_addresses: bool, step: Step) -> bool
    ensures { result ≡ is_allowed framed args lacks_addresses step }
{
    has_access_inside(framed, args, step) && has_start_inside(args, lacks_addresses, step)
}

// What is at fault with an instruction that the frame doesn't allow.
fn fault_in(framed: bool, args: u16, lacks_addresses: bool, step: Step) -> FrameFault
    ensures { result ≡ fault_in framed args lacks_addresses step }
{
    if has_access_inside(framed, args, step) {
        if lacks_addresses {
            FrameFault::NoAddress
        } else {
            FrameFault::AddressOutside
        }
    } else {
        FrameFault::AccessOutside
    }
}

/// Refuses a procedure of which an instruction accesses or exposes bytes that its frame doesn't have.
pub(crate) fn check_accesses(body: &Body, lacks_addresses: bool) -> Result<(), Refusal>
    ensures allowed { OnOk result
        (All (λ step. is_allowed body.now.framed body.now.args lacks_addresses step ≡ true) body.now.steps.items) }
    ensures refused { IfErr result (IsToldOf body.now.steps.items
        (λ step. is_allowed body.now.framed body.now.args lacks_addresses step)
        (λ step. ConstructKind.FrameAccess (fault_in body.now.framed body.now.args lacks_addresses step))) }
{
    for step in &body.steps {
        if !is_allowed(body.framed, body.args, lacks_addresses, *step) {
            let fault = fault_in(body.framed, body.args, lacks_addresses, *step);
            return Err(Refusal::Construct {
                kind: ConstructKind::FrameAccess(fault),
                at: step.at,
            });
        }
    }
    Ok(())
}

// How many bytes of its own a frame has at a height: the saved BP isn't counted.
fn own_bytes(framed: bool, height: u16) -> i32
    ensures value { result ≡ own_of framed height }
{
    if framed {
        i32::from(height) - 2
    } else {
        i32::from(height)
    }
}

/// How many words of the stack an instruction passes to a procedure.
pub fn passed(counts: &IndexMap<u16, u16>, op: Op) -> u16
    ensures { result ≡ passed_of (λ entry. get nat_eq counts.now entry) op }
{
    match op {
        Op::Call(target) => counts.get(&target).copied().unwrap_or(0),
        _ => 0,
    }
}

// Whether the frame has the words that the instruction passes.
fn has_words(counts: &IndexMap<u16, u16>, framed: bool, step: Step) -> bool
    ensures { result ≡ has_words (λ entry. get nat_eq counts.now entry) framed step }
{
    let count = passed(counts, step.op);
    count == 0 || 2 * i32::from(count) <= own_bytes(framed, step.height)
}

/// Refuses a procedure of which a call finds fewer bytes of its own frame than the callee's arguments take.
pub(crate) fn check_calls(body: &Body, counts: &IndexMap<u16, u16>) -> Result<(), Refusal>
    ensures enough { let counted = λ (entry : ℕ). get nat_eq counts.now entry in
        OnOk result (All (λ step. has_words counted body.now.framed step ≡ true) body.now.steps.items) }
    ensures refused { let counted = λ (entry : ℕ). get nat_eq counts.now entry in
        IfErr result (IsToldOf body.now.steps.items (λ step. has_words counted body.now.framed step)
        (λ step. ConstructKind.ArgumentsShort)) }
{
    for step in &body.steps {
        if !has_words(counts, body.framed, *step) {
            return Err(Refusal::Construct {
                kind: ConstructKind::ArgumentsShort,
                at: step.at,
            });
        }
    }
    Ok(())
}
