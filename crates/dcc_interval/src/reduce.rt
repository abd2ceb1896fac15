//! How a graph is reduced (M. S. Hecht, J. D. Ullman, Flow graph reducibility, 1972): regions are joined until no more
//! can be.

ghost use Rattle.std.specs.Prelude.{◌≡◌, ◌<◌, ◌≤◌, ◌==◌, ◌||◌, ℕ, true, false, length, get_or, replicate, All, IfOk};
ghost use Rattle.std.specs.Prelude.{IfSome, IfNone, OnOk};
ghost use Rattle.std.specs.List.{list_all};
ghost use Rattle.dcc_flow.specs.Edges.{rows, AreWithin, leads};
ghost use Rattle.dcc_interval.specs.Graphs.{IsReached};
ghost use Rattle.dcc_interval.specs.Reduction.{IsReduced};
ghost use Rattle.dcc_interval.specs.Reducing.{regions_of, AreAlone, AreRegions, may_join, comes_to, at_in};
ghost use Rattle.dcc_interval.specs.Reducing.{marked_in, IsReducing, AreLeft, IsDone, AreDone};

use crate::reach::{reached, sources};
use crate::regions::Regions;
use std::alloc::{AllocError, Global};

/// A region was joined into another one. A region is named by its node that it is entered at.
#[derive(Clone, Copy)]
pub struct Joining {
    /// The region that was joined.
    pub region: usize,
    /// The region that it was joined into.
    pub into: usize,
}

/// How a graph is reduced.
#[derive(Drop)]
pub struct Reduction {
    /// The joinings, in their order.
    pub joinings: Vec<Joining>,
    /// Which nodes are loop headers.
    pub headers: Vec<bool>,
    /// Whether one region remains.
    pub ends_in_one: bool,
}

/// The regions of a graph while they are joined.
#[derive(Drop)]
pub struct Reducing {
    /// The regions so far.
    pub regions: Regions,
    /// The joinings so far.
    pub joinings: Vec<Joining>,
    /// Which nodes had an edge to them from their own region when their region was last looked at.
    pub headers: Vec<bool>,
}

impl Reducing {
    // Each of so many nodes is a region.
    fn new(alloc: Global, count: usize) -> Result<Reducing, AllocError>
        ensures regions { IfOk result (λ r. AreAlone count (regions_of r.regions)) }
        ensures headers { IfOk result (λ r. r.headers.items ≡ replicate count false) }
    {
        Ok(Reducing {
            regions: Regions::new(alloc, count)?,
            joinings: Vec::new(alloc),
            headers: vec![in alloc; false; count]?,
        })
    }

    // The region that this one may be joined into, where edges lead to its node from these.
    fn only_before(&self, sources: &[u32], region: usize) -> Option<usize>
        requires whole { AreRegions (length self.now.regions.numbers.items) (regions_of self.now.regions) }
        requires sources { All (λ n. n < length self.now.regions.numbers.items) sources.now }
        ensures some { IfSome result (λ into. may_join (at_in self.now) sources.now region into ≡ true) }
        ensures none { IfNone result ((into : ℕ) → may_join (at_in self.now) sources.now region into ≡ false) }
    {
        let into = self.regions.first_other(sources, region)?;
        if self.regions.have_all(sources, region, into) {
            Some(into)
        } else {
            None
        }
    }

    // Joins the region of the node, if it may be. Whether the node is in another region then.
    fn join(
        &mut self,
        alloc: Global,
        sources: &Vec<Vec<u32>>,
        entry: u32,
        node: u32,
    ) -> Result<bool, AllocError>
        requires within { AreWithin (rows sources.now.items) }
        requires entry { entry < length sources.now.items }
        requires reached { IsReached (comes_to (rows sources.now.items)) entry node }
        requires reducing { IsReducing (rows sources.now.items) entry self.old }
        ensures reducing { OnOk result (IsReducing (rows sources.now.items) entry self.new) }
        ensures gone { IfOk result (λ gone. gone ≡ true → ¬ (at_in self.new node ≡ node)) }
        ensures fewer { OnOk result ((n : ℕ) → IsReached (comes_to (rows sources.now.items)) entry n
            → at_in self.new n ≡ n → at_in self.old n ≡ n) }
        ensures same { IfOk result (λ gone. gone ≡ false → (n : ℕ) → ¬ (n ≡ node)
            → IsDone (comes_to (rows sources.now.items)) entry (at_in self.old) (marked_in self.old) n
            → IsDone (comes_to (rows sources.now.items)) entry (at_in self.new) (marked_in self.new) n) }
        ensures done { IfOk result (λ gone. gone ≡ false
            → IsDone (comes_to (rows sources.now.items)) entry (at_in self.new) (marked_in self.new) node) }
    {
        let place = node as usize;
        let before = sources[place].as_slice();
        if self.regions.of(place) != place {
            return Ok(true);
        }
        self.headers[place] = self.regions.has_one(before, place);
        if node == entry {
            return Ok(false);
        }
        let Some(into) = self.only_before(before, place) else {
            return Ok(false);
        };
        self.regions.join(alloc, place, into)?;
        self.joinings.push(Joining {
            region: place,
            into,
        })?;
        Ok(true)
    }

    // Goes over the nodes from the last to the first, and joins the region of each that may be. Gives those that are in
    // their own region still.
    fn pass(
        &mut self,
        alloc: Global,
        sources: &Vec<Vec<u32>>,
        entry: u32,
        nodes: Vec<u32>,
    ) -> Result<Vec<u32>, AllocError>
        requires within { AreWithin (rows sources.now.items) }
        requires entry { entry < length sources.now.items }
        requires reducing { IsReducing (rows sources.now.items) entry self.old }
        requires left { AreLeft (rows sources.now.items) entry self.old nodes.items }
        ensures reducing { OnOk result (IsReducing (rows sources.now.items) entry self.new) }
        ensures left { IfOk result (λ kept. AreLeft (rows sources.now.items) entry self.new kept.items) }
        ensures few { IfOk result (λ kept. length kept.items ≤ length nodes.items) }
        ensures done { IfOk result (λ kept. length nodes.items ≤ length kept.items
            → AreDone (rows sources.now.items) entry self.new) }
    {
        let mut rest = nodes;
        let mut kept = Vec::new(alloc);
        while let Some(node) = rest.pop() {
            if !self.join(alloc, sources, entry, node)? {
                kept.push(node)?;
            }
        }
        Ok(kept)
    }

    // Joins regions until none may be joined any more. Gives the nodes that are in their own region then.
    fn finish(
        &mut self,
        alloc: Global,
        sources: &Vec<Vec<u32>>,
        entry: u32,
        nodes: Vec<u32>,
    ) -> Result<Vec<u32>, AllocError>
        requires within { AreWithin (rows sources.now.items) }
        requires entry { entry < length sources.now.items }
        requires reducing { IsReducing (rows sources.now.items) entry self.old }
        requires left { AreLeft (rows sources.now.items) entry self.old nodes.items }
        ensures reducing { OnOk result (IsReducing (rows sources.now.items) entry self.new) }
        ensures left { IfOk result (λ left. AreLeft (rows sources.now.items) entry self.new left.items) }
        ensures done { OnOk result (AreDone (rows sources.now.items) entry self.new) }
    {
        let mut count = nodes.len();
        let mut left = self.pass(alloc, sources, entry, nodes)?;
        while left.len() < count {
            count = left.len();
            left = self.pass(alloc, sources, entry, left)?;
        }
        Ok(left)
    }
}

// What is told when no region may be joined any more, and these nodes are in their own region.
fn reduction_of(reducing: Reducing, entry: u32, left: &[u32]) -> Reduction
    requires whole { AreRegions (length reducing.regions.numbers.items) (regions_of reducing.regions) }
    requires left { All (λ n. n < length reducing.regions.numbers.items) left.now }
    ensures headers { result.headers ≡ reducing.headers }
    ensures one { result.ends_in_one
        ≡ list_all (λ n. at_in reducing n == entry || at_in reducing n == entry) left.now }
{
    let entry = entry as usize;
    let ends_in_one = reducing.regions.have_all(left, entry, entry);
    Reduction {
        joinings: reducing.joinings,
        headers: reducing.headers,
        ends_in_one,
    }
}

/// Reduces the graph in which these nodes follow each node, entered at this one. At first each reached node is a
/// region. A region but the entry's is joined into another one where the edges to its node come from these two, and
/// some from the other one.
pub fn reduced(alloc: Global, next: &Vec<Vec<u32>>, entry: u32) -> Result<Reduction, AllocError>
    requires within { AreWithin (rows next.now.items) }
    requires entry { entry < length next.now.items }
    ensures { IfOk result (λ r. IsReduced (leads (rows next.now.items)) entry
        (λ n. get_or r.headers.items n false) r.ends_in_one) }
{
    let found = reached(alloc, next, entry)?;
    let sources = sources(alloc, next, found.list.as_slice())?;
    let mut reducing = Reducing::new(alloc, next.len())?;
    let left = reducing.finish(alloc, &sources, entry, found.list)?;
    Ok(reduction_of(reducing, entry, left.as_slice()))
}
