//! Numbers of the webs of all blocks, and which of them are one web.

ghost use Rattle.std.specs.Prelude.{◌≡◌, ◌<◌, ◌+◌, [], ◌∷◌, ◌++◌, length, map, IfOk, OnOk};
ghost use Rattle.dcc_flow.specs.Access.{access_in};
ghost use Rattle.dcc_webs.specs.Names as spec;
ghost use Rattle.dcc_webs.specs.Names.{names_of};
ghost use Rattle.dcc_webs.specs.Walk.{facts_of, AreWhole, begin_names, origins_before, AreBases};
ghost use Rattle.dcc_webs.specs.Walk.{link_of, links_along, edge_links, block_links, all_links, last_names};
ghost use Rattle.dcc_webs.specs.Classes.{AreInOrder, JoinMore};
ghost use Rattle.dcc_flow.specs.Edges.{rows};

use crate::classes::Classes;
use crate::names::Names;
use dcc_flow::{Access, BlockAccess};
use dcc_ir::Loc;
use std::alloc::{AllocError, Global};

/// What is known of a graph: for each block what it reads and writes, what is live at its end and the blocks before it;
/// and the locations that take arguments.
#[derive(Drop)]
pub struct Facts<'a> {
    pub accesses: &'a Vec<BlockAccess>,
    pub at_end: &'a Vec<Vec<Loc>>,
    pub preds: &'a Vec<Vec<usize>>,
    pub params: &'a [Loc],
}

/// Where the numbers of each block begin among those of all, and the location of each number.
#[derive(Drop)]
pub struct Numbers {
    pub bases: Vec<usize>,
    pub origins: Vec<Loc>,
}

// From the numbers after statements to those before them.
fn pass_all(names: &mut Names, accesses: &[Access]) -> Result<(), AllocError>
    ensures { OnOk result (names_of names.new ≡ spec.before_all (map access_in accesses.now) (names_of names.old)) }
{
    let mut at = accesses.len();
    while at > 0 {
        at -= 1;
        names.pass(&accesses[at])?;
    }
    Ok(())
}

/// The numbers after the statements of a block.
pub fn begin_at(names: &mut Names, at_end: &[Loc], last: &[Loc]) -> Result<(), AllocError>
    ensures { OnOk result (names_of names.new ≡ spec.at_exit at_end.now last.now) }
{
    names.clear();
    names.put_all(at_end)?;
    names.name_all(last)
}

// The number is in one web with what stands for the location where an edge ends, if anything does.
fn join_one(
    classes: &mut Classes,
    number: Option<u32>,
    begin: usize,
    i: usize,
    end: usize,
) -> Result<(), AllocError>
    requires { AreInOrder classes.old.class.items (rows classes.old.others.items) }
    ensures order { OnOk result (AreInOrder classes.new.class.items (rows classes.new.others.items)) }
    ensures joins { OnOk result (JoinMore classes.old.class.items (link_of number (begin + i) end)
        classes.new.class.items) }
{
    match number {
        Some(number) => classes.join_at(begin, i, end, number as usize),
        None => Ok(()),
    }
}

// What is live where an edge begins, from that number on, is in one web with what stands for it where the edge ends.
fn join_edge(
    classes: &mut Classes,
    names: &Names,
    at_end: &[Loc],
    begin: usize,
    end: usize,
) -> Result<(), AllocError>
    requires { AreInOrder classes.old.class.items (rows classes.old.others.items) }
    ensures order { OnOk result (AreInOrder classes.new.class.items (rows classes.new.others.items)) }
    ensures joins { OnOk result (JoinMore classes.old.class.items
        (links_along (names_of names.now) begin end at_end.now) classes.new.class.items) }
{
    for i in 0..at_end.len() {
        join_one(classes, names.get(at_end[i]), begin, i, end)?;
    }
    Ok(())
}

// Notes where the numbers of a block begin, and their locations.
fn note_block(
    bases: &mut Vec<usize>,
    origins: &mut Vec<Loc>,
    names: &Names,
) -> Result<(), AllocError>
    ensures bases { OnOk result (bases.new.items ≡ bases.old.items ++ length origins.old.items ∷ []) }
    ensures origins { OnOk result (origins.new.items ≡ origins.old.items ++ (names_of names.now).origins) }
{
    bases.push(origins.len())?;
    origins.extend_from_slice(names.origins.as_slice())
}

impl Facts<'_> {
    // The numbers before a block.
    fn pass_block(&self, names: &mut Names, place: usize) -> Result<(), AllocError>
        requires whole { AreWhole (facts_of self.now) }
        requires place { place < length self.now.accesses.now.items }
        ensures { OnOk result (names_of names.new ≡ begin_names (facts_of self.now) place) }
    {
        let block = &self.accesses[place];
        begin_at(names, self.at_end[place].as_slice(), block.last.as_slice())?;
        pass_all(names, block.stmts.as_slice())
    }

    // The numbers that a block gives.
    fn name_block(&self, names: &mut Names, place: usize) -> Result<(), AllocError>
        requires whole { AreWhole (facts_of self.now) }
        requires place { place < length self.now.accesses.now.items }
        ensures { OnOk result (names_of names.new ≡ last_names (facts_of self.now) place) }
    {
        self.pass_block(names, place)?;
        if place == 0 {
            names.name_all(self.params)?;
        }
        Ok(())
    }

    /// The numbers that the blocks give.
    pub fn numbers(&self, alloc: Global) -> Result<Numbers, AllocError>
        requires { AreWhole (facts_of self.now) }
        ensures bases { IfOk result (λ n. AreBases (facts_of self.now) n.bases.items) }
        ensures origins { IfOk result (λ n. n.origins.items
            ≡ origins_before (facts_of self.now) (length self.now.accesses.now.items)) }
    {
        let mut names = Names::new(alloc);
        let mut bases = Vec::new(alloc);
        let mut origins: Vec<Loc> = Vec::new(alloc);
        for place in 0..self.accesses.len() {
            self.name_block(&mut names, place)?;
            note_block(&mut bases, &mut origins, &names)?;
        }
        Ok(Numbers { bases, origins })
    }

    // Joins along the edge between two blocks, by the numbers before the second one.
    fn join_from(
        &self,
        classes: &mut Classes,
        names: &Names,
        bases: &[usize],
        from: usize,
        to: usize,
    ) -> Result<(), AllocError>
        requires whole { AreWhole (facts_of self.now) }
        requires from { from < length self.now.accesses.now.items }
        requires to { to < length self.now.accesses.now.items }
        requires bases { AreBases (facts_of self.now) bases.now }
        requires names { names_of names.now ≡ begin_names (facts_of self.now) to }
        requires order { AreInOrder classes.old.class.items (rows classes.old.others.items) }
        ensures order { OnOk result (AreInOrder classes.new.class.items (rows classes.new.others.items)) }
        ensures joins { OnOk result (JoinMore classes.old.class.items (edge_links (facts_of self.now) to from)
            classes.new.class.items) }
    {
        let at_end = self.at_end[from].as_slice();
        join_edge(classes, names, at_end, bases[from], bases[to])
    }

    // Joins along the edges to a block.
    fn join_block(
        &self,
        classes: &mut Classes,
        names: &mut Names,
        bases: &[usize],
        place: usize,
    ) -> Result<(), AllocError>
        requires whole { AreWhole (facts_of self.now) }
        requires place { place < length self.now.accesses.now.items }
        requires bases { AreBases (facts_of self.now) bases.now }
        requires order { AreInOrder classes.old.class.items (rows classes.old.others.items) }
        ensures order { OnOk result (AreInOrder classes.new.class.items (rows classes.new.others.items)) }
        ensures joins { OnOk result (JoinMore classes.old.class.items (block_links (facts_of self.now) place)
            classes.new.class.items) }
    {
        self.pass_block(names, place)?;
        let sources = self.preds[place].as_slice();
        for i in 0..sources.len() {
            self.join_from(classes, names, bases, sources[i], place)?;
        }
        Ok(())
    }

    /// Joins along all edges.
    pub fn join_all(
        &self,
        alloc: Global,
        classes: &mut Classes,
        bases: &[usize],
    ) -> Result<(), AllocError>
        requires whole { AreWhole (facts_of self.now) }
        requires bases { AreBases (facts_of self.now) bases.now }
        requires order { AreInOrder classes.old.class.items (rows classes.old.others.items) }
        ensures order { OnOk result (AreInOrder classes.new.class.items (rows classes.new.others.items)) }
        ensures joins { OnOk result (JoinMore classes.old.class.items (all_links (facts_of self.now))
            classes.new.class.items) }
    {
        let mut names = Names::new(alloc);
        for place in 0..self.accesses.len() {
            self.join_block(classes, &mut names, bases, place)?;
        }
        Ok(())
    }
}
