//! How intervals grow.

ghost use Rattle.std.specs.Prelude.{◌≡◌, ◌≤◌, ◌<◌, ◌+◌, ℕ, true, false, [], length, get_or, All, IfOk, OnOk};
ghost use Rattle.dcc_flow.specs.Edges.{rows, AreWithin, leads};
ghost use Rattle.dcc_interval.specs.Intervals.{AreIntervals, IsInterval, intervals_in};
ghost use Rattle.dcc_interval.specs.Noted.{noted_of};
ghost use Rattle.dcc_interval.specs.Reaching.{AreTurned};
ghost use Rattle.dcc_interval.specs.Growing.{is_held, joined, all_joined, IsReady, growing_of, IsGrown, entry_of};
ghost use Rattle.dcc_interval.specs.Growing.{IsParted};

use crate::interval::Interval;
use crate::noted::Noted;
use crate::reach::{reached, sources};
use std::alloc::{AllocError, Global};

/// What is known while the intervals of a graph are found.
#[derive(Drop)]
pub struct Parting {
    /// The intervals that are done, one for each header from the first on.
    pub intervals: Vec<Interval>,
    /// The headers. Marked are these, and the nodes in intervals.
    pub heads: Noted,
    /// Which reached nodes are in no interval.
    pub free: Vec<bool>,
    /// Of the nodes before each, how many from the first on are known not to be free.
    pub checked: Vec<usize>,
}

// The first place from this one on with a node that is free, or the end.
fn first_free(nodes: &[u32], from: usize, free: &Vec<bool>) -> usize
    requires { All (λ node. node < length free.now.items) nodes.now }
    ensures within { result ≤ length nodes.now }
    ensures passed { (k : ℕ) → from ≤ k → k < result → get_or free.now.items (get_or nodes.now k 0) false ≡ false }
    ensures stops { result < length nodes.now → get_or free.now.items (get_or nodes.now result 0) false ≡ true }
{
    for turn in from..nodes.len() {
        if free[nodes[turn] as usize] {
            return turn;
        }
    }
    nodes.len()
}

impl Parting {
    // Whether a node before this one is free.
    fn is_held(&mut self, sources: &Vec<Vec<u32>>, node: u32) -> bool
        requires node { node < length sources.now.items }
        requires within { AreWithin (rows sources.now.items) }
        requires ready { IsReady (rows sources.now.items) self.old }
        ensures held { result ≡ is_held self.old.free.items (get_or (rows sources.now.items) node []) }
        ensures ready { IsReady (rows sources.now.items) self.new }
        ensures same { self.new ≡ record self.old { checked = self.new.checked } }
    {
        let before = sources[node as usize].as_slice();
        let checked = first_free(before, self.checked[node as usize], &self.free);
        self.checked[node as usize] = checked;
        checked < before.len()
    }

    // A node joins the interval that grows, unless it is claimed or held.
    fn join(
        &mut self,
        sources: &Vec<Vec<u32>>,
        node: u32,
        members: &mut Vec<u32>,
    ) -> Result<(), AllocError>
        requires node { node < length sources.now.items }
        requires within { AreWithin (rows sources.now.items) }
        requires ready { IsReady (rows sources.now.items) self.old }
        ensures grown { OnOk result (growing_of self.new members.new.items
            ≡ joined (rows sources.now.items) (growing_of self.old members.old.items) node) }
        ensures ready { OnOk result (IsReady (rows sources.now.items) self.new) }
        ensures intervals { self.new.intervals ≡ self.old.intervals }
        ensures list { self.new.heads.list ≡ self.old.heads.list }
    {
        if self.heads.marks[node as usize] {
            return Ok(());
        }
        if self.is_held(sources, node) {
            return Ok(());
        }
        self.free[node as usize] = false;
        self.heads.marks[node as usize] = true;
        members.push(node)?;
        Ok(())
    }

    // Each of these nodes joins, unless it is claimed or held.
    fn join_all(
        &mut self,
        sources: &Vec<Vec<u32>>,
        nodes: &[u32],
        members: &mut Vec<u32>,
    ) -> Result<(), AllocError>
        requires nodes { All (λ node. node < length sources.now.items) nodes.now }
        requires within { AreWithin (rows sources.now.items) }
        requires ready { IsReady (rows sources.now.items) self.old }
        ensures grown { OnOk result (growing_of self.new members.new.items
            ≡ all_joined (rows sources.now.items) (growing_of self.old members.old.items) nodes.now) }
        ensures ready { OnOk result (IsReady (rows sources.now.items) self.new) }
        ensures intervals { self.new.intervals ≡ self.old.intervals }
        ensures list { self.new.heads.list ≡ self.old.heads.list }
    {
        for node in nodes {
            self.join(sources, *node, members)?;
        }
        Ok(())
    }

    // The nodes of the interval of a header.
    fn grow(
        &mut self,
        alloc: Global,
        next: &Vec<Vec<u32>>,
        sources: &Vec<Vec<u32>>,
        header: u32,
    ) -> Result<Vec<u32>, AllocError>
        requires turned { AreTurned (rows next.now.items) (entry_of self.old) (rows sources.now.items) }
        requires within { AreWithin (rows sources.now.items) }
        requires ready { IsReady (rows sources.now.items) self.old }
        requires parted { IsParted (rows next.now.items) (entry_of self.old) self.old }
        requires left { length self.old.intervals.items < length self.old.heads.list.items }
        requires header { header ≡ get_or self.old.heads.list.items (length self.old.intervals.items) 0 }
        ensures grown { IfOk result (λ members. IsGrown (rows next.now.items) (entry_of self.old)
            (intervals_in self.old.intervals.items) self.old.heads.list.items header
            (growing_of self.new members.items)) }
        ensures whole { IfOk result (λ members. IsInterval (leads (rows next.now.items)) (entry_of self.old)
            (record { header = header; members = members.items })) }
        ensures ready { OnOk result (IsReady (rows sources.now.items) self.new) }
        ensures intervals { self.new.intervals ≡ self.old.intervals }
        ensures list { self.new.heads.list ≡ self.old.heads.list }
    {
        self.free[header as usize] = false;
        let mut members = vec![in alloc; header]?;
        let mut turn = 0;
        while turn < members.len() {
            let node = members[turn];
            self.join_all(sources, next[node as usize].as_slice(), &mut members)?;
            turn += 1;
        }
        Ok(members)
    }

    // The interval of the next header is found, and the headers after it are noted.
    fn find_next(
        &mut self,
        alloc: Global,
        next: &Vec<Vec<u32>>,
        sources: &Vec<Vec<u32>>,
    ) -> Result<(), AllocError>
        requires turned { AreTurned (rows next.now.items) (entry_of self.old) (rows sources.now.items) }
        requires within { AreWithin (rows sources.now.items) }
        requires ready { IsReady (rows sources.now.items) self.old }
        requires parted { IsParted (rows next.now.items) (entry_of self.old) self.old }
        requires left { length self.old.intervals.items < length self.old.heads.list.items }
        ensures ready { OnOk result (IsReady (rows sources.now.items) self.new) }
        ensures parted { OnOk result (IsParted (rows next.now.items) (entry_of self.old) self.new) }
        ensures one_more { OnOk result (length self.new.intervals.items ≡ length self.old.intervals.items + 1) }
    {
        let header = self.heads.list[self.intervals.len()];
        let members = self.grow(alloc, next, sources, header)?;
        self.heads.note_followers(next, members.as_slice())?;
        self.intervals.push(Interval { header, members })?;
        Ok(())
    }
}

/// The intervals of the graph in which these nodes follow each node, entered at this one: that of the entry first.
pub fn intervals(
    alloc: Global,
    next: &Vec<Vec<u32>>,
    entry: u32,
) -> Result<Vec<Interval>, AllocError>
    requires within { AreWithin (rows next.now.items) }
    requires entry { entry < length next.now.items }
    ensures { IfOk result (λ list. AreIntervals (leads (rows next.now.items)) entry (intervals_in list.items)) }
{
    let found = reached(alloc, next, entry)?;
    let sources = sources(alloc, next, found.list.as_slice())?;
    let mut heads = Noted::new(alloc, next.len())?;
    heads.note(entry)?;
    let mut parting = Parting {
        intervals: Vec::new(alloc),
        heads,
        free: found.marks,
        checked: vec![in alloc; 0; next.len()]?,
    };
    while parting.intervals.len() < parting.heads.list.len() {
        parting.find_next(alloc, next, &sources)?;
    }
    Ok(parting.intervals)
}
