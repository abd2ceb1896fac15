//! The loops of a graph. Blocks are named by their numbers in the reverse post order, and loops by their headers.

ghost use Rattle.std.specs.Prelude.{◌<◌, ◌≤◌, IfSome};

use crate::edges::Edges;
use crate::table::Table;
use dcc_interval::Reduction;
use std::alloc::{AllocError, Global};

/// The loops of a graph. A block with an edge back from the region that is entered at it begins a loop. The loop has
/// this header, and the blocks of the region from which such an edge is reached without passing it.
#[derive(Drop)]
pub struct Loops {
    /// Which blocks are headers of loops.
    pub headers: Table<bool>,
    // For each block the innermost loop that holds it, its own left out.
    holders: Table<Option<usize>>,
}

impl Loops {
    /// The innermost loop that holds the block, its own left out.
    pub fn around(&self, block: usize) -> Option<usize>
        ensures { IfSome result (λ header. header < block) }
    {
        match self.holders.at(block) {
            Some(header) if header < block => Some(header),
            _ => None,
        }
    }

    /// The innermost loop that holds the block.
    pub fn innermost(&self, block: usize) -> Option<usize> {
        if self.headers.at(block) {
            Some(block)
        } else {
            self.around(block)
        }
    }

    /// A number for the innermost loop that holds the block, its own left out: greater for a loop that stands in
    /// another, and 0 where there is none.
    pub fn loop_number(&self, block: usize) -> usize {
        match self.around(block) {
            Some(header) => header.saturating_add(1),
            None => 0,
        }
    }

    /// The one block begins a loop that does not hold the other, which stands below it.
    pub fn leaves_out(&self, header: usize, block: usize) -> bool {
        self.headers.at(header) && self.around(block) != Some(header)
    }

    // The innermost loop around the block, itself among them, whose header has no greater number than this.
    fn held_by(&self, block: Option<usize>, limit: usize) -> Option<usize> {
        let mut at = block?;
        while limit < at {
            at = self.around(at)?;
        }
        Some(at)
    }

    /// The outermost loop that holds the one block and not the other; else the one block.
    pub fn out_of(&self, one: usize, other: usize) -> usize {
        let mut at = one;
        let mut here = self.innermost(one);
        let mut there = self.innermost(other);
        while let Some(header) = here {
            there = self.held_by(there, header);
            if there == Some(header) {
                return at;
            }
            at = header;
            here = self.around(header);
        }
        at
    }
}

// Blocks that stand below others of lower numbers.
#[derive(Drop)]
struct Forest {
    // For each block one that it stands below; itself where there is none.
    above: Table<usize>,
}

impl Forest {
    // None of so many blocks stands below another.
    fn new(alloc: Global, count: usize) -> Result<Forest, AllocError> {
        let mut above = Table::new(alloc, count, 0)?;
        for block in 0..count {
            above.put(block, block);
        }
        Ok(Forest { above })
    }

    // A block that this one stands below; itself where there is none.
    fn above(&self, block: usize) -> usize
        ensures { result ≤ block }
    {
        block.min(self.above.at(block))
    }

    // The block stands below none.
    fn is_root(&self, block: usize) -> bool {
        self.above(block) == block
    }

    // The block stands below the other one from now on.
    fn put_below(&mut self, block: usize, above: usize) {
        self.above.put(block, above);
    }

    // The block below none that this one is or stands below. What is passed is put nearer to it.
    fn root(&mut self, block: usize) -> usize {
        let mut at = block;
        let mut next = self.above(at);
        while next < at {
            let far = self.above(next);
            self.put_below(at, far);
            at = far;
            next = self.above(at);
        }
        at
    }
}

// Loops as they are found, region by region.
#[derive(Drop)]
struct Finding<'a> {
    edges: &'a Edges,
    loops: Loops,
    // Each block stands below that at which its region is entered.
    regions: Forest,
    // Each block stands below the headers of the loops that hold it, its own left out.
    outermost: Forest,
}

impl Finding<'_> {
    // The blocks with an edge back to a block from its region.
    fn edges_back(&mut self, alloc: Global, header: usize) -> Result<Vec<usize>, AllocError> {
        let edges = self.edges;
        let mut back = Vec::new(alloc);
        for source in edges.sources.of(header) {
            if self.regions.root(*source) == header {
                back.push(*source)?;
            }
        }
        Ok(back)
    }

    // The blocks from which an edge leads to the outermost loop around a block, which comes into that of the header. An
    // inner loop comes in whole, and is entered at its header alone.
    fn come_in(
        &mut self,
        header: usize,
        block: usize,
        work: &mut Vec<usize>,
    ) -> Result<(), AllocError> {
        let outer = self.outermost.root(block);
        if header < outer {
            self.loops.holders.put(outer, Some(header));
            self.outermost.put_below(outer, header);
            for source in self.edges.sources.of(outer) {
                work.push(*source)?;
            }
        }
        Ok(())
    }

    // Finds the loop of the block at which a region is entered, once no other region will be joined into it: no edge
    // is followed twice.
    fn find(&mut self, alloc: Global, header: usize) -> Result<(), AllocError> {
        let mut work = self.edges_back(alloc, header)?;
        self.loops.headers.put(header, !work.is_empty());
        for _ in 0..self.edges.entries {
            let Some(block) = work.pop() else {
                return Ok(());
            };
            self.come_in(header, block, &mut work)?;
        }
        Ok(())
    }
}

/// The loops of a graph with these edges that is reduced so.
pub(crate) fn loops_of(
    alloc: Global,
    edges: &Edges,
    reduction: &Reduction,
) -> Result<Loops, AllocError> {
    let mut finding = Finding {
        edges,
        loops: Loops {
            headers: Table::new(alloc, edges.count(), false)?,
            holders: Table::new(alloc, edges.count(), None)?,
        },
        regions: Forest::new(alloc, edges.count())?,
        outermost: Forest::new(alloc, edges.count())?,
    };
    for joining in &reduction.joinings {
        let block = edges.numbers.at(joining.region);
        finding.find(alloc, block)?;
        finding
            .regions
            .put_below(block, edges.numbers.at(joining.into));
    }
    for block in 0..edges.count() {
        if finding.regions.is_root(block) {
            finding.find(alloc, block)?;
        }
    }
    Ok(finding.loops)
}
