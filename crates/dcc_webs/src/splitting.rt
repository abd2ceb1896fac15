//! The graph in which each web has a temporary of its own.

ghost use Rattle.std.specs.Prelude.{◌≡◌, ◌<◌, ◌++◌, length, map, get_or, IfOk, OnOk};
ghost use Rattle.dcc_ir.specs.Joinable.{places_of};
ghost use Rattle.dcc_ir.specs.Measure.{deepest};
ghost use Rattle.dcc_ir.specs.Use.{graph_exprs};
ghost use Rattle.dcc_ir.specs.Views.{stmt_of, exit_of, block_of, graph_of};
ghost use Rattle.dcc_ir.specs.WellFormed.{IsGraph};
ghost use Rattle.dcc_passes.specs.Replaced.{StandsFor};
ghost use Rattle.dcc_passes.specs.Tidied.{IsTidied};
ghost use Rattle.dcc_passes.specs.Renaming.{renamed_exit, renamed_param, param_places};
ghost use Rattle.dcc_flow.specs.Access.{access_in, access_of, block_access_of, accesses_of};
ghost use Rattle.dcc_webs.specs.Names.{names_of, before_one, before_all, at_exit};
ghost use Rattle.dcc_webs.specs.Walk.{facts_of, AreWhole, AreBases, begin_names, live_at, no_access};
ghost use Rattle.dcc_webs.specs.Walk.{all_links};
ghost use Rattle.dcc_webs.specs.Split.{stmt_over, stmts_over, block_over, blocks_over};
ghost use Rattle.dcc_webs.specs.Split.{temp_by, with_reads, with_writes, AreTempsOf, IsSplitBy};
ghost use Rattle.dcc_webs.specs.Temporaries.{HasTempsAlone, TellsApart};

use crate::classes::{Classes, Temps, number_classes};
use crate::names::Names;
use crate::renaming::Renamer;
use crate::walk::{Facts, Numbers, begin_at};
use dcc_flow::{Access, accesses, preds};
use dcc_ir::{Block, End, Graph, Loc, Param, Put, Stmt, Sums};
use dcc_live::live;
use std::alloc::{AllocError, Global};

// Replaces the locations that a statement writes, by the numbers after it.
fn rename_writes(names: &Names, base: usize, temps: &[u32], stmt: &mut Stmt)
    ensures { stmt_of stmt.new ≡ with_writes (temp_by temps.now base (names_of names.now)) (stmt_of stmt.old) }
{
    let renamer = Renamer {
        names: &*names,
        base,
        temps: &*temps,
    };
    renamer.rename_writes(stmt);
}

// Replaces the locations that a statement reads, by the numbers before it.
fn rename_reads(names: &Names, base: usize, temps: &[u32], stmt: &mut Stmt)
    ensures { stmt_of stmt.new ≡ with_reads (temp_by temps.now base (names_of names.now)) (stmt_of stmt.old) }
{
    let renamer = Renamer {
        names: &*names,
        base,
        temps: &*temps,
    };
    renamer.rename_reads(stmt);
}

// Replaces the locations that the end of a block reads, by the numbers before it.
fn rename_end(names: &Names, base: usize, temps: &[u32], end: &mut End)
    ensures { exit_of end.new ≡ renamed_exit (temp_by temps.now base (names_of names.now)) (exit_of end.old) }
{
    let renamer = Renamer {
        names: &*names,
        base,
        temps: &*temps,
    };
    renamer.rename_end(end);
}

// Replaces the locations of a statement; the numbers are those after it, and then those before it.
fn rename_stmt(
    names: &mut Names,
    base: usize,
    temps: &[u32],
    access: &Access,
    stmt: &mut Stmt,
) -> Result<(), AllocError>
    requires { access_in access.now ≡ access_of (stmt_of stmt.old) }
    ensures stmt { OnOk result (stmt_of stmt.new ≡ stmt_over temps.now base (names_of names.old) (stmt_of stmt.old)) }
    ensures names { OnOk result (names_of names.new ≡ before_one (access_in access.now) (names_of names.old)) }
{
    names.name_all(access.writes.as_slice())?;
    rename_writes(&*names, base, temps, stmt);
    names.remove_all(access.writes.as_slice());
    names.name_all(access.reads.as_slice())?;
    rename_reads(&*names, base, temps, stmt);
    Ok(())
}

// Replaces the locations of statements, from the last one on; the numbers are those after them, and then those before
// them.
fn rename_stmts(
    names: &mut Names,
    base: usize,
    temps: &[u32],
    accesses: &[Access],
    stmts: &mut Vec<Stmt>,
) -> Result<(), AllocError>
    requires { map access_in accesses.now ≡ map access_of (map stmt_of stmts.old.items) }
    ensures stmts { OnOk result (map stmt_of stmts.new.items
        ≡ stmts_over temps.now base (names_of names.old) (map stmt_of stmts.old.items)) }
    ensures names { OnOk result (names_of names.new ≡ before_all (map access_in accesses.now) (names_of names.old)) }
{
    let mut at = stmts.len();
    while at > 0 {
        at -= 1;
        rename_stmt(names, base, temps, &accesses[at], &mut stmts[at])?;
    }
    Ok(())
}

impl Facts<'_> {
    // Replaces the locations of the block at a place, and leaves the numbers before it.
    fn rename_block(
        &self,
        names: &mut Names,
        place: usize,
        base: usize,
        temps: &[u32],
        block: &mut Block,
    ) -> Result<(), AllocError>
        requires whole { AreWhole (facts_of self.now) }
        requires place { place < length self.now.accesses.now.items }
        requires access { get_or (facts_of self.now).accesses place no_access ≡ block_access_of (block_of block.old) }
        ensures block { OnOk result (block_of block.new
            ≡ block_over temps.now base (live_at (facts_of self.now) place) (block_of block.old)) }
        ensures names { OnOk result (names_of names.new ≡ begin_names (facts_of self.now) place) }
    {
        let access = &self.accesses[place];
        begin_at(names, self.at_end[place].as_slice(), access.last.as_slice())?;
        rename_end(&*names, base, temps, &mut block.end);
        rename_stmts(
            names,
            base,
            temps,
            access.stmts.as_slice(),
            &mut block.stmts,
        )
    }

    // Replaces the locations of all blocks, and leaves the numbers before the first one.
    fn rename_blocks(
        &self,
        names: &mut Names,
        bases: &[usize],
        temps: &[u32],
        blocks: &mut Vec<Block>,
    ) -> Result<(), AllocError>
        requires whole { AreWhole (facts_of self.now) }
        requires bases { AreBases (facts_of self.now) bases.now }
        requires some { 0 < length blocks.old.items }
        requires accesses { (facts_of self.now).accesses ≡ map block_access_of (map block_of blocks.old.items) }
        ensures renamed { OnOk result (map block_of blocks.new.items
            ≡ blocks_over temps.now (facts_of self.now) 0 (map block_of blocks.old.items)) }
        ensures names { OnOk result (names_of names.new ≡ begin_names (facts_of self.now) 0) }
    {
        let mut place = blocks.len();
        while place > 0 {
            place -= 1;
            self.rename_block(names, place, bases[place], temps, &mut blocks[place])?;
        }
        Ok(())
    }
}

// Puts the locations of a put at the end of a list.
fn add_places(places: &mut Vec<Loc>, put: Put) -> Result<(), AllocError>
    ensures { OnOk result (places.new.items ≡ places.old.items ++ places_of put) }
{
    match put {
        Put::Memory => {}
        Put::One(location) => places.push(location)?,
        Put::Two(low, high) => {
            places.push(low)?;
            places.push(high)?;
        }
    }
    Ok(())
}

// The locations that take arguments.
fn param_places(alloc: Global, params: &[Param]) -> Result<Vec<Loc>, AllocError>
    ensures { IfOk result (λ places. places.items ≡ param_places params.now) }
{
    let mut places = Vec::new(alloc);
    for param in params {
        add_places(&mut places, param.put)?;
    }
    Ok(places)
}

// The temporary of each number.
fn temps_of(
    alloc: Global,
    facts: &Facts<'_>,
    numbers: &Numbers,
    bits: &[u8],
) -> Result<Temps, AllocError>
    requires whole { AreWhole (facts_of facts.now) }
    requires bases { AreBases (facts_of facts.now) numbers.now.bases.items }
    ensures { IfOk result (AreTempsOf bits.now numbers.now.origins.items (all_links (facts_of facts.now))) }
{
    let mut classes = Classes::new(alloc, numbers.origins.len())?;
    facts.join_all(alloc, &mut classes, numbers.bases.as_slice())?;
    let class = classes.class.as_slice();
    let temps = number_classes(alloc, class, numbers.origins.as_slice(), bits)?;
    Ok(temps)
}

// The params over temporaries, by the numbers before the first block.
fn rename_params(names: &Names, temps: &[u32], params: &mut Vec<Param>)
    ensures { params.new.items ≡ map (renamed_param (temp_by temps.now 0 (names_of names.now))) params.old.items }
{
    let renamer = Renamer {
        names: &*names,
        base: 0,
        temps: &*temps,
    };
    renamer.rename_params(params);
}

// The graph over temporaries, by what is known of it.
fn split_by(alloc: Global, facts: &Facts<'_>, g: Graph) -> Result<Graph, AllocError>
    requires whole { AreWhole (facts_of facts.now) }
    requires accesses { (facts_of facts.now).accesses ≡ accesses_of (graph_of g) }
    requires some { 0 < length g.blocks.items }
    ensures { IfOk result (IsSplitBy (facts_of facts.now) (graph_of g)) }
{
    let numbers = facts.numbers(alloc)?;
    let temps = temps_of(alloc, facts, &numbers, g.bits.as_slice())?;
    let mut names = Names::new(alloc);
    let mut blocks = g.blocks;
    facts.rename_blocks(
        &mut names,
        numbers.bases.as_slice(),
        temps.of.as_slice(),
        &mut blocks,
    )?;
    names.name_all(facts.params)?;
    let mut params = g.params;
    rename_params(&names, temps.of.as_slice(), &mut params);
    Ok(Graph {
        blocks,
        params,
        bits: temps.bits,
        ..g
    })
}

/// The graph over temporaries alone, one for each web: the definitions of a location that reach one read have one, and
/// those that no reads link have two.
pub fn split(alloc: Global, g: Graph) -> Result<Graph, AllocError>
    requires { IsGraph (graph_of g) }
    ensures formed { IfOk result (λ after. IsGraph (graph_of after)) }
    ensures temps { IfOk result (λ after. HasTempsAlone (graph_of after)) }
    ensures told { IfOk result (λ after. TellsApart (graph_of g) (graph_of after)) }
    ensures stands { IfOk result (λ after. StandsFor (graph_of g) (graph_of after)) }
    ensures tidied { IfOk result (λ after. IsTidied (graph_of g) (graph_of after)) }
    ensures depth { IfOk result (λ after. deepest (graph_exprs (graph_of after)) ≡ deepest (graph_exprs (graph_of g))) }
{
    let no_sums = Sums {
        of: Vec::new(alloc),
    };
    let live = live(alloc, &g, &no_sums)?;
    let accesses = accesses(alloc, &g)?;
    let preds = preds(alloc, &g)?;
    let params = param_places(alloc, g.params.as_slice())?;
    let facts = Facts {
        accesses: &accesses,
        at_end: &live.at_end,
        preds: &preds,
        params: params.as_slice(),
    };
    let after = split_by(alloc, &facts, g)?;
    Ok(after)
}
