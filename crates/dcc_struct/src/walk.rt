//! The walk that writes the plan of a graph, block by block.

ghost use Rattle.std.specs.Prelude.{◌<◌, IfSome};

use crate::edges::only_goes_to;
use crate::layout::Layout;
use crate::table::{Lists, Table};
use dcc_control::{Arm, Item};
use dcc_ir::{End, Graph};
use indexmap::IndexSet;
use std::alloc::{AllocError, Global};

// How long the longer side of a test is at least that a guard keeps from standing deeper: it has a test with a side, or
// a few statements.
const LONG: usize = 4;

/// Which blocks the text comes to behind a part, at `break` and at `continue`, where this is known.
#[derive(Clone, Copy, PartialEq, Eq, Debug)]
pub struct Context {
    /// The block that comes behind the part.
    pub next: Option<u32>,
    /// The block to which `break` leads.
    pub at_break: Option<u32>,
    /// The block to which `continue` leads.
    pub at_continue: Option<u32>,
}

/// The items at one depth, and the blocks that are to come there.
#[derive(Drop)]
pub struct Level {
    /// The items so far.
    pub items: Vec<Item>,
    // The blocks that are to come, the next one last.
    coming: Vec<u32>,
    // What comes behind all of these.
    at: Context,
}

impl Level {
    // No items.
    fn new(alloc: Global, at: Context) -> Level {
        Level {
            items: Vec::new(alloc),
            coming: Vec::new(alloc),
            at,
        }
    }

    // These blocks come next, in their order.
    fn put_before(&mut self, blocks: &[u32]) -> Result<(), AllocError> {
        for block in blocks.iter().rev() {
            self.coming.push(*block)?;
        }
        Ok(())
    }

    // What comes behind the items so far.
    fn context(&self) -> Context {
        let next = match self.coming.last() {
            Some(block) => Some(*block),
            None => self.at.next,
        };
        Context { next, ..self.at }
    }
}

// Appends the test at the end of a block with these sides: that for true first, unless they are turned round.
fn push_sides(
    items: &mut Vec<Item>,
    block: u32,
    turned: bool,
    one: Vec<Item>,
    other: Vec<Item>,
) -> Result<(), AllocError> {
    if turned {
        items.push(Item::If(block, other, one))?;
    } else {
        items.push(Item::If(block, one, other))?;
    }
    Ok(())
}

// `continue` alone.
fn continued(alloc: Global) -> Result<Vec<Item>, AllocError> {
    let mut items = Vec::new(alloc);
    items.push(Item::Continue)?;
    Ok(items)
}

// Appends items.
fn append(items: &mut Vec<Item>, more: Vec<Item>) -> Result<(), AllocError> {
    for item in more {
        items.push(item)?;
    }
    Ok(())
}

// Appends the statements of a block. That they are more than 32 bits can number is told as want of memory.
fn push_all(items: &mut Vec<Item>, block: u32, count: usize) -> Result<(), AllocError> {
    let count = u32::try_from(count).map_err(|_| AllocError)?;
    for place in 0..count {
        items.push(Item::Do(block, place))?;
    }
    Ok(())
}

// The targets of a choice, in the order of their first cases, and the cases of each. That it has more than 65,536 cases
// is told as want of memory.
#[derive(Drop)]
struct Targets {
    blocks: IndexSet<u32>,
    cases: Lists<u16>,
}

impl Targets {
    // The targets of a choice with these places.
    fn of(alloc: Global, places: &[u32]) -> Result<Targets, AllocError> {
        let mut targets = Targets {
            blocks: IndexSet::new(alloc),
            cases: Lists::new(alloc, places.len())?,
        };
        for (n, place) in places.iter().enumerate() {
            let case = u16::try_from(n).map_err(|_| AllocError)?;
            let (at, _) = targets.blocks.insert_full(*place)?;
            targets.cases.push(at, case)?;
        }
        Ok(targets)
    }
}

// How many items are left room for inside a block, where there is room for it: each block takes one at least.
fn room_inside(room: usize) -> Option<usize>
    ensures { IfSome result (λ left. left < room) }
{
    if room == 0 { None } else { Some(room - 1) }
}

/// A walk over the blocks of a graph, as they stand in its plan.
#[derive(Drop)]
pub struct Walk<'a> {
    alloc: Global,
    graph: &'a Graph,
    layout: &'a Layout,
    // Which blocks get a label.
    marked: &'a Table<bool>,
    // Which blocks stand in the plan.
    placed: Table<bool>,
    /// Which blocks the plan jumps to.
    pub jumped: Table<bool>,
    // The blocks for which no room was left, where they would stand.
    late: Vec<u32>,
}

impl<'a> Walk<'a> {
    /// A walk in which these blocks get a label.
    pub fn new(
        alloc: Global,
        graph: &'a Graph,
        layout: &'a Layout,
        marked: &'a Table<bool>,
    ) -> Result<Walk<'a>, AllocError> {
        let count = graph.blocks.len();
        Ok(Walk {
            alloc,
            graph,
            layout,
            marked,
            placed: Table::new(alloc, count, false)?,
            jumped: Table::new(alloc, count, false)?,
            late: Vec::new(alloc),
        })
    }

    // The block ends in a test or a choice.
    fn tests(&self, block: u32) -> bool {
        match self.graph.blocks.get(block as usize) {
            Some(block) => matches!(block.end, End::If { .. } | End::Switch { .. }),
            None => false,
        }
    }

    // A loop stands for the block that begins it, where so many items are left room for inside: the block's test or
    // choice stands in the loop and takes room too.
    fn has_loop(&self, block: u32, room: usize) -> bool {
        self.layout.loops.at(block as usize) && (0 < room || !self.tests(block))
    }

    // Appends a jump to a block.
    fn push_jump(&mut self, items: &mut Vec<Item>, block: u32) -> Result<(), AllocError> {
        self.jumped.put(block as usize, true);
        items.push(Item::Jump(block))?;
        Ok(())
    }

    // The block is known, and the text comes from it to this goal without an item.
    fn leads_to(&self, block: Option<u32>, goal: u32) -> bool {
        match block {
            Some(block) => self.layout.goals.at(block as usize) == goal,
            None => false,
        }
    }

    // Appends what leads to a block, where this needs an item.
    fn push_edge(&mut self, items: &mut Vec<Item>, to: u32, at: Context) -> Result<(), AllocError> {
        let goal = self.layout.goals.at(to as usize);
        if self.leads_to(at.next, goal) {
            return Ok(());
        }
        if self.leads_to(at.at_break, goal) {
            items.push(Item::Break)?;
            return Ok(());
        }
        if self.leads_to(at.at_continue, goal) {
            items.push(Item::Continue)?;
            return Ok(());
        }
        self.push_jump(items, goal)
    }

    // The block stands in the place of its edge from the other one.
    fn is_at_edge(&self, from: u32, to: u32) -> bool {
        self.layout.at_edge_of.at(to as usize) == Some(from)
    }

    // The text goes on from a block to another: this comes next, where it stands at the edge.
    fn push_way(&mut self, level: &mut Level, from: u32, to: u32) -> Result<(), AllocError> {
        let at = level.context();
        if self.is_at_edge(from, to) {
            level.coming.push(to)?;
            return Ok(());
        }
        self.push_edge(&mut level.items, to, at)
    }

    // How long the text is that stands in the place of an edge.
    fn length(&self, from: u32, to: u32) -> usize {
        if self.is_at_edge(from, to) {
            self.layout.lengths.at(to as usize)
        } else {
            0
        }
    }

    // On the short side of the test at the end of a block the next turn of the loop comes and nothing else, and the
    // other side is long.
    fn is_guard(&self, block: u32, short: u32, long: u32, at: Context) -> bool {
        let goal = self.layout.goals.at(short as usize);
        !self.is_at_edge(block, short)
            && LONG <= self.length(block, long)
            && self.leads_to(at.next, goal)
            && self.leads_to(at.at_continue, goal)
    }

    // At the edge of a block to another no text stands.
    fn is_bare(&self, from: u32, to: u32) -> bool {
        !self.is_at_edge(from, to) || self.layout.goals.at(to as usize) != to
    }

    // From the end of a block the text goes to the same block either way, and no text stands at these edges.
    fn is_one_way(&self, block: u32, one: u32, other: u32) -> bool {
        let goal = self.layout.goals.at(one as usize);
        self.is_bare(block, one)
            && self.is_bare(block, other)
            && self.layout.goals.at(other as usize) == goal
    }

    // Room is left for each block of the text that stands in the place of an edge: a block takes room for a loop and a
    // test or choice at most, and the text is no shorter than its blocks are many.
    fn surely_fits(&self, from: u32, to: u32, room: usize) -> bool {
        self.length(from, to) < room / 2
    }

    // No run comes past the statement, which is the last one of its block.
    fn stops_after(&self, block: u32, place: u32) -> bool {
        match self.graph.blocks.get(block as usize) {
            Some(block) => {
                matches!(block.end, End::Stop)
                    && block.stmts.len().saturating_sub(1) == place as usize
            }
            None => false,
        }
    }

    // The text never goes on behind the items.
    fn leaves(&self, items: &[Item]) -> bool {
        match items.last() {
            Some(Item::Break | Item::Continue | Item::Jump(_) | Item::Return(_)) => true,
            Some(Item::Do(block, place)) => self.stops_after(*block, *place),
            _ => false,
        }
    }

    // Appends the blocks that are to come. None comes twice, so they are no more than the graph has.
    #[cycle(walk)]
    fn push_coming(&mut self, level: &mut Level, room: usize) -> Result<(), AllocError> {
        for _ in 0..self.graph.blocks.len() {
            let Some(block) = level.coming.pop() else {
                return Ok(());
            };
            self.push_block(level, block, room)?;
        }
        Ok(())
    }

    // Goes on behind a block that the text passes, which takes no room.
    fn pass(&mut self, level: &mut Level, block: u32) -> Result<(), AllocError> {
        self.placed.put(block as usize, true);
        match only_goes_to(self.graph, block) {
            Some(to) => self.push_way(level, block, to),
            None => Ok(()),
        }
    }

    // Appends a block. Where no room is left for it a jump to it stands here, and it comes after all others. Where
    // there is room for it and none for its loop, jumps lead back to it. What stands behind its loop comes next.
    #[cycle(walk)]
    fn push_block(&mut self, level: &mut Level, block: u32, room: usize) -> Result<(), AllocError> {
        if self.placed.at(block as usize) {
            return self.push_jump(&mut level.items, block);
        }
        if self.layout.goals.at(block as usize) != block {
            return self.pass(level, block);
        }
        let Some(left) = room_inside(room) else {
            self.late.push(block)?;
            return self.push_jump(&mut level.items, block);
        };
        self.placed.put(block as usize, true);
        if self.marked.at(block as usize) {
            level.items.push(Item::Mark(block))?;
        }
        level.put_before(self.layout.behind.of(block as usize))?;
        if self.has_loop(block, left) {
            self.push_loop(level, block, left)
        } else {
            self.push_body(level, block, left)
        }
    }

    // Appends the loop that a block begins, in which so much room is left beside its test or choice.
    #[cycle(walk)]
    fn push_loop(&mut self, level: &mut Level, block: u32, room: usize) -> Result<(), AllocError> {
        let at = Context {
            next: Some(block),
            at_break: level.context().next,
            at_continue: Some(block),
        };
        let mut inside = Level::new(self.alloc, at);
        self.push_body(&mut inside, block, room.saturating_sub(1))?;
        self.push_coming(&mut inside, room)?;
        level.items.push(Item::For(block, inside.items))?;
        Ok(())
    }

    // Appends the statements and the end of a block. What stands after its end comes next.
    #[cycle(walk)]
    fn push_body(&mut self, level: &mut Level, block: u32, room: usize) -> Result<(), AllocError> {
        let graph = self.graph;
        let Some(whole) = graph.blocks.get(block as usize) else {
            return Ok(());
        };
        push_all(&mut level.items, block, whole.stmts.len())?;
        level.put_before(self.layout.after.of(block as usize))?;
        match &whole.end {
            End::Goto(to) => self.push_way(level, block, *to),
            End::If { one, other, .. } => self.push_test(level, block, *one, *other, room),
            End::Switch { blocks, .. } => {
                let arms = self.arms(block, blocks, level.context(), room)?;
                level.items.push(Item::Switch(block, arms))?;
                Ok(())
            }
            End::Ret(_) => {
                level.items.push(Item::Return(block))?;
                Ok(())
            }
            End::Stop => Ok(()),
        }
    }

    // Appends the test at the end of a block. Where both ways go to the same block, the way there follows a test that
    // has nothing on its sides.
    #[cycle(walk)]
    fn push_test(
        &mut self,
        level: &mut Level,
        block: u32,
        one: u32,
        other: u32,
        room: usize,
    ) -> Result<(), AllocError> {
        if self.is_one_way(block, one, other) {
            level.items.push(Item::If(block, Vec::new(self.alloc), Vec::new(self.alloc)))?;
            return self.push_way(level, block, one);
        }
        let turned = self.length(block, other) < self.length(block, one);
        let (short, long) = if turned { (other, one) } else { (one, other) };
        if self.is_guard(block, short, long, level.context()) {
            return self.push_guard(level, block, turned, long, room);
        }
        self.push_ways(level, block, turned, (short, long), room)
    }

    // Appends the test at the end of a block by its shorter and its longer side. Where the text never goes on behind
    // the shorter one, or behind the longer one alone, the other side follows the test. A shorter side in which no room
    // was left for a block stays where it is that deep.
    #[cycle(walk)]
    fn push_ways(
        &mut self,
        level: &mut Level,
        block: u32,
        turned: bool,
        (short, long): (u32, u32),
        room: usize,
    ) -> Result<(), AllocError> {
        let at = level.context();
        let waiting = self.late.len();
        let first = self.side(block, short, at, room)?;
        let none = Vec::new(self.alloc);
        if self.leaves(first.as_slice()) {
            push_sides(&mut level.items, block, turned, first, none)?;
            return self.push_way(level, block, long);
        }
        let found_room = self.late.len() == waiting;
        let second = self.side(block, long, at, room)?;
        if found_room && self.leaves(second.as_slice()) {
            push_sides(&mut level.items, block, turned, none, second)?;
            return append(&mut level.items, first);
        }
        push_sides(&mut level.items, block, turned, first, second)
    }

    // Appends the test at the end of a block on whose shorter side the next turn of the loop comes and nothing else.
    // Where the text never goes on behind the longer side, this side stands in the test. Else, and where room might be
    // wanting in it, `continue` stands in the test and the longer side follows, less deep.
    #[cycle(walk)]
    fn push_guard(
        &mut self,
        level: &mut Level,
        block: u32,
        turned: bool,
        long: u32,
        room: usize,
    ) -> Result<(), AllocError> {
        let none = Vec::new(self.alloc);
        if !self.surely_fits(block, long, room) {
            push_sides(
                &mut level.items,
                block,
                turned,
                continued(self.alloc)?,
                none,
            )?;
            return self.push_way(level, block, long);
        }
        let side = self.side(block, long, level.context(), room)?;
        if self.leaves(side.as_slice()) {
            return push_sides(&mut level.items, block, turned, none, side);
        }
        push_sides(
            &mut level.items,
            block,
            turned,
            continued(self.alloc)?,
            none,
        )?;
        append(&mut level.items, side)
    }

    // What stands in the place of the edge of a block to another.
    #[cycle(walk)]
    fn side(
        &mut self,
        from: u32,
        to: u32,
        at: Context,
        room: usize,
    ) -> Result<Vec<Item>, AllocError> {
        let mut level = Level::new(self.alloc, at);
        if self.is_at_edge(from, to) {
            level.coming.push(to)?;
            self.push_coming(&mut level, room)?;
        } else {
            self.push_edge(&mut level.items, to, at)?;
        }
        Ok(level.items)
    }

    // The arms of the choice at the end of a block: one for each target for which something stands there, in the order
    // of their first cases. Where no arm has its case, a choice goes on behind itself.
    #[cycle(walk)]
    fn arms(
        &mut self,
        from: u32,
        places: &[u32],
        at: Context,
        room: usize,
    ) -> Result<Vec<Arm>, AllocError> {
        let alloc = self.alloc;
        let at = Context {
            at_break: at.next,
            ..at
        };
        let targets = Targets::of(alloc, places)?;
        let mut arms = Vec::new(alloc);
        for (turn, target) in targets.blocks.as_slice().iter().enumerate() {
            let body = self.side(from, *target, at, room)?;
            if !body.is_empty() {
                let cases = targets.cases.of(turn).to_vec(alloc)?;
                arms.push(Arm { cases, body })?;
            }
        }
        Ok(arms)
    }

    /// The plan of all blocks that are reached, in which at most so many items stand around each other. A block that
    /// found no room comes after the others.
    pub fn whole(&mut self, room: usize) -> Result<Vec<Item>, AllocError> {
        let nowhere = Context {
            next: None,
            at_break: None,
            at_continue: None,
        };
        let mut level = Level::new(self.alloc, nowhere);
        level.coming.push(0)?;
        self.push_coming(&mut level, room)?;
        for turn in 0..self.graph.blocks.len() {
            let Some(block) = self.late.get(turn) else {
                return Ok(level.items);
            };
            level.coming.push(*block)?;
            self.push_coming(&mut level, room)?;
        }
        Ok(level.items)
    }
}
