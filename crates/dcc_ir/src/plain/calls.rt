//! Calls, returns and the ends of blocks.

ghost use Rattle.std.specs.Prelude.{◌≡◌, ℕ, List, OnOk, IfOk, map, option_map};
ghost use Rattle.dcc_ir.specs.Views.{expr_of, stmt_of, exit_of};
ghost use Rattle.dcc_ir.specs.Plain.{state_of, shared_block_of, shared_graph_of};
ghost use Rattle.dcc_ir.specs.Run as inner;

use super::state::{Activation, PlainRun, Refused, Waiting, store};
use crate::syntax::{Block, End as BlockEnd, Expr, Graph, Loc, Param, Put};
use std::alloc::Global;
use std::mem;

impl<'p> PlainRun<'p> {
    // The running activation comes to that block, where there is one.
    fn enter(&mut self, block: Option<&'p Block>)
        ensures after { state_of self.new
            ≡ inner.entering (option_map shared_block_of block.entry) (state_of self.old) }
        ensures fill { self.new.fill ≡ self.old.fill }
    {
        match block {
            Some(block) => {
                self.running.block = Some(block);
                self.running.rest = &block.stmts;
                self.running.begins = true;
            }
            None => self.stop(),
        }
    }

    /// The running activation comes to the block at that place of its graph.
    pub fn go_to(&mut self, place: u32)
        ensures after { state_of self.new ≡ inner.going_to place (state_of self.old) }
        ensures fill { self.new.fill ≡ self.old.fill }
    {
        let graph = self.running.graph;
        self.enter(graph.blocks.get(place as usize));
    }

    // One argument, the one at place `j`, goes where its param says.
    fn put(&mut self, j: u32, put: Put, n: u32) -> Result<(), Refused>
        ensures after { OnOk result (state_of self.new ≡ inner.putting j put n (state_of self.old)) }
        ensures fill { self.new.fill ≡ self.old.fill }
    {
        match put {
            Put::Memory => {
                if j >= 0x1000_0000 {
                    return Err(Refused::Wide);
                }
                let address = u32::from(self.running.base) + 2 * j;
                store(&mut self.memory, 16, address, n)
            }
            Put::One(at) => self.set(at, n),
            Put::Two(low, high) => {
                self.set(low, n % 256)?;
                self.set(high, n / 256)
            }
        }
    }

    /// The values of some expressions.
    pub fn values(&self, alloc: Global, es: &[Expr]) -> Result<Vec<u32>, Refused>
        ensures { IfOk result (λ v. v.items ≡ map (inner.value_in (state_of self.now)) (map expr_of es.now)) }
    {
        let mut values = Vec::new(alloc);
        for e in es {
            values.push(self.value(e)?)?;
        }
        Ok(values)
    }

    // The arguments go where the params say.
    fn pass(&mut self, params: &[Param], arguments: &[u32]) -> Result<(), Refused>
        ensures after { OnOk result (state_of self.new ≡ inner.passing 0 params.now arguments.now (state_of self.old)) }
        ensures fill { self.new.fill ≡ self.old.fill }
    {
        let count = params.len().min(arguments.len());
        for j in 0..count {
            let place = u32::try_from(j).map_err(|_| Refused::Wide)?;
            self.put(place, params[j].put, arguments[j])?;
        }
        Ok(())
    }

    // The values go to the places of the results.
    fn give(&mut self, results: &[Loc], values: &[u32]) -> Result<(), Refused>
        ensures after { OnOk result (state_of self.new ≡ inner.giving results.now values.now (state_of self.old)) }
        ensures fill { self.new.fill ≡ self.old.fill }
    {
        let count = results.len().min(values.len());
        for k in 0..count {
            self.set(results[k], values[k])?;
        }
        Ok(())
    }

    // The values go back to the innermost activation that waits.
    fn give_back(&mut self, values: &[u32]) -> Result<(), Refused>
        ensures after { OnOk result (state_of self.new
            ≡ inner.returning values.now (state_of self.old).waiting (state_of self.old)) }
        ensures fill { self.new.fill ≡ self.old.fill }
    {
        match self.waiting.pop() {
            Some(waiting) => {
                self.running = waiting.caller;
                self.give(waiting.results, values)
            }
            None => {
                self.stop();
                Ok(())
            }
        }
    }

    /// The graph is called: the caller waits, and the callee begins with its arguments.
    pub fn call(
        &mut self,
        alloc: Global,
        graph: Option<&'p Graph>,
        results: &'p [Loc],
        arguments: &[u32],
        depth: u16,
    ) -> Result<(), Refused>
        ensures after { OnOk result (state_of self.new
            ≡ inner.calling self.old.fill results.entry.now depth arguments.now
            (option_map shared_graph_of graph.entry) (state_of self.old)) }
        ensures fill { self.new.fill ≡ self.old.fill }
    {
        let Some(graph) = graph else {
            self.stop();
            return Ok(());
        };
        let callee = Activation {
            graph,
            block: None,
            rest: &self.running.rest[..0],
            begins: false,
            held: Vec::new(alloc),
            base: self.running.base.wrapping_sub(depth),
        };
        let caller = mem::replace(&mut self.running, callee);
        self.waiting.push(Waiting { caller, results })?;
        self.pass(&graph.params, arguments)?;
        self.go_to(0);
        Ok(())
    }

    /// What follows the statements of a block.
    pub fn leave(&mut self, alloc: Global, end: &BlockEnd) -> Result<(), Refused>
        ensures after { OnOk result (state_of self.new ≡ inner.exit_step (exit_of end.now) (state_of self.old)) }
        ensures fill { self.new.fill ≡ self.old.fill }
    {
        match end {
            BlockEnd::Goto(place) => self.go_to(*place),
            BlockEnd::If { test, one, other } => {
                let place = if self.value(test)? == 1 { *one } else { *other };
                self.go_to(place);
            }
            BlockEnd::Switch { value, blocks } => match blocks.get(self.value(value)? as usize) {
                Some(place) => self.go_to(*place),
                None => self.stop(),
            },
            BlockEnd::Ret(values) => {
                let values = self.values(alloc, values)?;
                self.give_back(&values)?;
            }
            BlockEnd::Stop => self.stop(),
        }
        Ok(())
    }
}
