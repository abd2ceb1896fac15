//! The procedures.

ghost use Rattle.std.specs.Prelude.{◌≡◌, ◌≤◌, ◌<◌, ◌+◌, length, IfOk, IfErr, OnOk};
ghost use Rattle.dcc_machine.specs.MzImage.{IsLoaded};
ghost use Rattle.dcc_prog.specs.Layout.{HasLayout};
ghost use Rattle.dcc_prog.specs.Trail.{IsEntry};
ghost use Rattle.dcc_prog.specs.Found.{AreFound};
ghost use Rattle.dcc_prog.specs.Refused.{IsRefusedByTrails};
ghost use Rattle.dcc_procs.specs.Search.{work_of, IsFresh};
ghost use Rattle.dcc_procs.specs.Procedures.{calls_of, IsProcedure, IsFinding, AreReached};

use crate::collect::collect;
use crate::division::{Ready, UNREADY, check_divisions};
use crate::entries::Entries;
use crate::search::Search;
use dcc_machine::{Image, Op};
use dcc_prog::{Layout, LimitName, Node, Proc, Refusal};
use indexmap::IndexMap;
use std::alloc::{AllocError, Global};

// The number of offsets in a segment.
const OFFSETS: usize = 65536;

// The greatest number of instructions over all procedures.
const MOST_INSTRUCTIONS: usize = 32768;

// The targets of the calls among the nodes.
fn callees(alloc: Global, nodes: &IndexMap<u16, Node>) -> Result<Vec<u16>, AllocError>
    ensures { IfOk result (λ targets. targets.items ≡ calls_of nodes.now.entries) }
{
    let mut targets = Vec::new(alloc);
    for (_at, node) in nodes.iter() {
        if let Op::Call(target) = node.instr.op {
            targets.push(target)?;
        }
    }
    Ok(targets)
}

/// The procedures that are found so far, and those that are reached by calls.
#[derive(Drop)]
pub struct Finder {
    /// The search, which has seen nothing between two procedures.
    pub search: Search,
    /// Room for what divisions need, for each offset.
    pub ready: Vec<Ready>,
    /// The entries of the procedures that are reached.
    pub entries: Entries,
    /// The procedures of the first entries.
    pub procs: Vec<Proc>,
    /// The number of instructions of the procedures found so far.
    pub total: usize,
}

// Finds the procedure with that entry, by a search that has seen nothing and is emptied after.
fn procedure(
    alloc: Global,
    image: &Image,
    layout: &Layout,
    entry: u16,
    search: &mut Search,
    ready: &mut [Ready],
) -> Result<Proc, Refusal>
    requires loaded { IsLoaded image.now }
    requires layout { HasLayout image.now layout.now }
    requires entry { IsEntry image.now layout.now entry }
    requires fresh { IsFresh (work_of search.old) }
    requires length { length ready.old ≡ 65536 }
    ensures found { IfOk result (IsProcedure image.now layout.now entry) }
    ensures fresh { OnOk result (IsFresh (work_of search.new)) }
    ensures length { length ready.new ≡ 65536 }
    ensures refused { IfErr result (IsRefusedByTrails image.now layout.now) }
{
    search.run(image, layout, entry)?;
    check_divisions(image, layout, entry, &search.seen, &search.order, ready)?;
    search.order.sort()?;
    let proc = collect(alloc, image, layout, entry, &search.seen, &search.order)?;
    search.clear();
    Ok(proc)
}

impl Finder {
    // A finder that has found nothing yet; the procedure with the entry is to be found first.
    fn new(alloc: Global, image: &Image, layout: &Layout) -> Result<Finder, Refusal>
        requires loaded { IsLoaded image.now }
        requires layout { HasLayout image.now layout.now }
        ensures finding { IfOk result (IsFinding image.now layout.now) }
        ensures refused { IfErr result (IsRefusedByTrails image.now layout.now) }
    {
        let mut entries = Entries::new(alloc)?;
        entries.add(layout.start_ip)?;
        Ok(Finder {
            search: Search::new(alloc)?,
            ready: vec![in alloc; UNREADY; OFFSETS]?,
            entries,
            procs: Vec::new(alloc),
            total: 0,
        })
    }

    // Finds the next procedure, and notes those that it calls.
    fn next(&mut self, alloc: Global, image: &Image, layout: &Layout) -> Result<(), Refusal>
        requires loaded { IsLoaded image.now }
        requires layout { HasLayout image.now layout.now }
        requires finding { IsFinding image.now layout.now self.old }
        requires more { length self.old.procs.items < length self.old.entries.order.items }
        ensures finding { OnOk result (IsFinding image.now layout.now self.new) }
        ensures one { OnOk result (length self.new.procs.items ≡ length self.old.procs.items + 1) }
        ensures refused { IfErr result (IsRefusedByTrails image.now layout.now) }
    {
        let entry = self.entries.order[self.procs.len()];
        let proc = procedure(
            alloc,
            image,
            layout,
            entry,
            &mut self.search,
            &mut self.ready,
        )?;
        self.total += proc.nodes.len();
        if self.total > MOST_INSTRUCTIONS {
            return Err(Refusal::Limit {
                what: LimitName::Total,
                count: 32769,
            });
        }
        let targets = callees(alloc, &proc.nodes)?;
        self.entries.add_all(&targets)?;
        self.procs.push(proc)?;
        Ok(())
    }
}

// All procedures, in the order in which they were reached.
fn procedures(alloc: Global, image: &Image, layout: &Layout) -> Result<Vec<Proc>, Refusal>
    requires loaded { IsLoaded image.now }
    requires layout { HasLayout image.now layout.now }
    ensures reached { IfOk result (λ procs. AreReached image.now layout.now procs.items) }
    ensures refused { IfErr result (IsRefusedByTrails image.now layout.now) }
{
    let mut finder = Finder::new(alloc, image, layout)?;
    while finder.procs.len() < finder.entries.order.len() {
        finder.next(alloc, image, layout)?;
    }
    Ok(finder.procs)
}

/// The procedures of a loaded program with its layout: the one that begins after the prelude, and
/// then the others in ascending order of their entries. Each has the instructions that its trails
/// reach, in ascending order of offsets, each with its successors, and INT 21h with the number of
/// its DOS call.
///
/// A program is refused for a construct of the kinds 2 to 5, 11 and 12, which then stands at the
/// named offset; and for more than 4,096 instructions of one procedure, 32,768 instructions over all
/// procedures, 512 procedures or 256 entries of a table. Where the answer is Ok, no construct that
/// trails tell stands anywhere, and no such count is too great.
pub fn find(alloc: Global, image: &Image, layout: &Layout) -> Result<Vec<Proc>, Refusal>
    requires loaded { IsLoaded image.now }
    requires layout { HasLayout image.now layout.now }
    ensures found { IfOk result (λ procs. AreFound image.now layout.now procs.items) }
    ensures refused { IfErr result (IsRefusedByTrails image.now layout.now) }
{
    let mut procs = procedures(alloc, image, layout)?;
    let start = procs.remove(0);
    procs.sort_by_key(|proc| proc.entry)?;
    procs.insert(0, start)?;
    Ok(procs)
}
