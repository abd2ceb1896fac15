//! Whether a graph loses a location.

ghost use Rattle.std.specs.Prelude.{◌≡◌, ◌<◌, ◌↔◌, true, map, option_map, length, All, IfOk, OnOk};
ghost use Rattle.dcc_ir.specs.Views.{stmt_of, exit_of, graph_of};
ghost use Rattle.dcc_ir.specs.Flow.{targets};
ghost use Rattle.dcc_ir.specs.WellFormed.{IsGraph};
ghost use Rattle.dcc_modref.specs.States.{state_of, told_in, after_all};
ghost use Rattle.dcc_modref.specs.Losses.{GraphLoses};
ghost use Rattle.dcc_modref.specs.Tables.{states_of, first_states, AreFlowing};
ghost use Rattle.dcc_modref.specs.Flowing.{met, is_new, all_flowed, any_new, HasTurned, loses_at, Answers};

use crate::state::{State, Subject};
use crate::waiting::Waiting;
use dcc_ir::{End, Stmt};
use std::alloc::{AllocError, Global};

// A trail with that state comes to a block. The answer is whether that is new there.
fn meet(alloc: Global, begin: &mut Option<State>, state: &State) -> Result<bool, AllocError>
    ensures begin { OnOk result (option_map state_of begin.new
        ≡ met (option_map state_of begin.old) (state_of state.now)) }
    ensures new { IfOk result (λ new. new ≡ is_new (option_map state_of begin.old) (state_of state.now)) }
{
    match begin {
        Some(known) => known.join(alloc, state),
        None => {
            *begin = Some(state.copy()?);
            Ok(true)
        }
    }
}

// The state flows to these blocks. The answer is whether that is new at one of them.
fn flow(
    alloc: Global,
    begins: &mut Vec<Option<State>>,
    state: &State,
    blocks: &[u32],
) -> Result<bool, AllocError>
    requires { All (λ block. block < length begins.old.items) blocks.now }
    ensures begins { OnOk result (states_of begins.new.items
        ≡ all_flowed (states_of begins.old.items) (state_of state.now) blocks.now) }
    ensures new { IfOk result (λ new. new ≡ any_new (states_of begins.old.items) (state_of state.now) blocks.now) }
{
    let mut new = false;
    for block in blocks {
        new |= meet(alloc, &mut begins[*block as usize], state)?;
    }
    Ok(new)
}

// The state flows on from the end of a block.
fn flow_on(
    alloc: Global,
    begins: &mut Vec<Option<State>>,
    state: &State,
    end: &End,
) -> Result<bool, AllocError>
    requires { All (λ block. block < length begins.old.items) (targets (exit_of end.now)) }
    ensures begins { OnOk result (states_of begins.new.items
        ≡ all_flowed (states_of begins.old.items) (state_of state.now) (targets (exit_of end.now))) }
    ensures new { IfOk result (λ new. new
        ≡ any_new (states_of begins.old.items) (state_of state.now) (targets (exit_of end.now))) }
{
    match end {
        End::Goto(block) => flow(alloc, begins, state, &[*block]),
        End::If { one, other, .. } => flow(alloc, begins, state, &[*one, *other]),
        End::Switch { blocks, .. } => flow(alloc, begins, state, blocks.as_slice()),
        End::Ret(_) | End::Stop => Ok(false),
    }
}

// The state after the statements of a block, if it is reached.
fn after_block(
    alloc: Global,
    begin: &Option<State>,
    stmts: &[Stmt],
    subject: &Subject<'_>,
) -> Result<Option<State>, AllocError>
    ensures { IfOk result (λ after. option_map state_of after ≡ option_map (after_all (told_in subject.now.changed.now)
        subject.now.graph.now.pushed subject.now.location (map stmt_of stmts.now)) (option_map state_of begin.now)) }
{
    let Some(known) = begin else {
        return Ok(None);
    };
    let mut state = known.copy()?;
    state.pass_all(alloc, stmts, subject)?;
    Ok(Some(state))
}

// The state of a block flows on. The answer is whether that is new somewhere.
fn turn(
    alloc: Global,
    begins: &mut Vec<Option<State>>,
    at: usize,
    subject: &Subject<'_>,
) -> Result<bool, AllocError>
    requires graph { IsGraph (graph_of subject.now.graph.now) }
    requires at { at < length subject.now.graph.now.blocks.items }
    requires going { AreFlowing (told_in subject.now.changed.now) (graph_of subject.now.graph.now) subject.now.location
        (states_of begins.old.items) }
    ensures going { OnOk result (AreFlowing (told_in subject.now.changed.now) (graph_of subject.now.graph.now)
        subject.now.location (states_of begins.new.items)) }
    ensures turned { IfOk result (λ new. HasTurned (told_in subject.now.changed.now) (graph_of subject.now.graph.now)
        subject.now.location (states_of begins.old.items) (states_of begins.new.items) new (λ block. block ≡ at)) }
{
    let block = &subject.graph.blocks[at];
    match after_block(alloc, &begins[at], block.stmts.as_slice(), subject)? {
        Some(state) => {
            let new = flow_on(alloc, begins, &state, &block.end)?;
            Ok(new)
        }
        None => Ok(false),
    }
}

// Each block has a turn. The answer is whether something was new.
fn round(
    alloc: Global,
    begins: &mut Vec<Option<State>>,
    subject: &Subject<'_>,
) -> Result<bool, AllocError>
    requires graph { IsGraph (graph_of subject.now.graph.now) }
    requires going { AreFlowing (told_in subject.now.changed.now) (graph_of subject.now.graph.now) subject.now.location
        (states_of begins.old.items) }
    ensures going { OnOk result (AreFlowing (told_in subject.now.changed.now) (graph_of subject.now.graph.now)
        subject.now.location (states_of begins.new.items)) }
    ensures turned { IfOk result (λ new. HasTurned (told_in subject.now.changed.now) (graph_of subject.now.graph.now)
        subject.now.location (states_of begins.old.items) (states_of begins.new.items) new
        (λ block. block < length subject.now.graph.now.blocks.items)) }
{
    let mut new = false;
    for at in 0..subject.graph.blocks.len() {
        new |= turn(alloc, begins, at, subject)?;
    }
    Ok(new)
}

// A block that waited has a turn. Those after it wait for one if something was new.
fn turn_again(
    alloc: Global,
    begins: &mut Vec<Option<State>>,
    at: usize,
    waiting: &mut Waiting,
    subject: &Subject<'_>,
) -> Result<bool, AllocError>
    requires graph { IsGraph (graph_of subject.now.graph.now) }
    requires going { AreFlowing (told_in subject.now.changed.now) (graph_of subject.now.graph.now) subject.now.location
        (states_of begins.old.items) }
    ensures going { OnOk result (AreFlowing (told_in subject.now.changed.now) (graph_of subject.now.graph.now)
        subject.now.location (states_of begins.new.items)) }
    ensures turned { IfOk result (λ new. HasTurned (told_in subject.now.changed.now) (graph_of subject.now.graph.now)
        subject.now.location (states_of begins.old.items) (states_of begins.new.items) new (λ block. ⊥)) }
{
    waiting.begin(at);
    if at >= subject.graph.blocks.len() {
        return Ok(false);
    }
    let new = turn(alloc, begins, at, subject)?;
    if new {
        waiting.add_after(&subject.graph.blocks[at].end)?;
    }
    Ok(new)
}

// These blocks have a turn each. The answer is whether something was new.
fn turns(
    alloc: Global,
    begins: &mut Vec<Option<State>>,
    blocks: &[usize],
    waiting: &mut Waiting,
    subject: &Subject<'_>,
) -> Result<bool, AllocError>
    requires graph { IsGraph (graph_of subject.now.graph.now) }
    requires going { AreFlowing (told_in subject.now.changed.now) (graph_of subject.now.graph.now) subject.now.location
        (states_of begins.old.items) }
    ensures going { OnOk result (AreFlowing (told_in subject.now.changed.now) (graph_of subject.now.graph.now)
        subject.now.location (states_of begins.new.items)) }
    ensures turned { IfOk result (λ new. HasTurned (told_in subject.now.changed.now) (graph_of subject.now.graph.now)
        subject.now.location (states_of begins.old.items) (states_of begins.new.items) new (λ block. ⊥)) }
{
    let mut new = false;
    for at in blocks {
        new |= turn_again(alloc, begins, *at, waiting, subject)?;
    }
    Ok(new)
}

// States flow from the first block on, until no block waits.
fn spread(
    alloc: Global,
    begins: &mut Vec<Option<State>>,
    subject: &Subject<'_>,
) -> Result<(), AllocError>
    requires graph { IsGraph (graph_of subject.now.graph.now) }
    requires going { AreFlowing (told_in subject.now.changed.now) (graph_of subject.now.graph.now) subject.now.location
        (states_of begins.old.items) }
    ensures { OnOk result (AreFlowing (told_in subject.now.changed.now) (graph_of subject.now.graph.now)
        subject.now.location (states_of begins.new.items)) }
{
    let mut waiting = Waiting::new(alloc, subject.graph.blocks.len())?;
    let mut blocks = vec![in alloc; 0]?;
    while turns(alloc, begins, blocks.as_slice(), &mut waiting, subject)? {
        blocks = waiting.take(alloc);
    }
    Ok(())
}

// Only the first of so many blocks is reached.
fn entered(alloc: Global, count: usize) -> Result<Vec<Option<State>>, AllocError>
    requires { 0 < count }
    ensures { IfOk result (λ begins. states_of begins.items ≡ first_states count) }
{
    let mut begins = Vec::new(alloc);
    begins.push(Some(State::new(alloc)))?;
    for _ in 1..count {
        begins.push(None)?;
    }
    Ok(begins)
}

// Whether a block is reached, ends in a return and has lost the location there.
fn loses_at(
    alloc: Global,
    begins: &Vec<Option<State>>,
    at: usize,
    subject: &Subject<'_>,
) -> Result<bool, AllocError>
    requires at { at < length subject.now.graph.now.blocks.items }
    requires begins { length begins.now.items ≡ length subject.now.graph.now.blocks.items }
    ensures { IfOk result (λ b. b ≡ loses_at (told_in subject.now.changed.now) (graph_of subject.now.graph.now)
        subject.now.location (states_of begins.now.items) at) }
{
    let block = &subject.graph.blocks[at];
    let End::Ret(_) = &block.end else {
        return Ok(false);
    };
    match after_block(alloc, &begins[at], block.stmts.as_slice(), subject)? {
        Some(state) => Ok(state.lost),
        None => Ok(false),
    }
}

// Whether one of the blocks does.
fn any_loses(
    alloc: Global,
    begins: &Vec<Option<State>>,
    subject: &Subject<'_>,
) -> Result<bool, AllocError>
    requires { length begins.now.items ≡ length subject.now.graph.now.blocks.items }
    ensures { IfOk result (λ b. Answers (told_in subject.now.changed.now) (graph_of subject.now.graph.now)
        subject.now.location (states_of begins.now.items) b (length subject.now.graph.now.blocks.items)) }
{
    for at in 0..subject.graph.blocks.len() {
        if loses_at(alloc, begins, at, subject)? {
            return Ok(true);
        }
    }
    Ok(false)
}

/// Whether some trail to a return of the graph loses the location, where the procedures that are told of change it.
pub(crate) fn loses(alloc: Global, subject: &Subject<'_>) -> Result<bool, AllocError>
    requires { IsGraph (graph_of subject.now.graph.now) }
    ensures { IfOk result (λ b. (b ≡ true)
        ↔ GraphLoses (told_in subject.now.changed.now) (graph_of subject.now.graph.now) subject.now.location) }
{
    let mut begins = entered(alloc, subject.graph.blocks.len())?;
    spread(alloc, &mut begins, subject)?;
    while round(alloc, &mut begins, subject)? {}
    let lost = any_loses(alloc, &begins, subject)?;
    Ok(lost)
}
