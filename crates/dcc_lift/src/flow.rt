//! The instructions of a procedure, and which join the block of the one before.

ghost use Rattle.std.specs.Prelude.{◌≡◌, ◌<◌, is_some, option_map, IfOk, IfSome};
ghost use Rattle.std.specs.Option.{option_copied};
ghost use Rattle.dcc_lift.specs.Blocks as spec;
ghost use Rattle.dcc_lift.specs.Known.{nodes_of, KnowsEdges};

use crate::edges::{Incoming, edges_of};
use dcc_machine::Op;
use dcc_prog::Node;
use indexmap::IndexMap;
use std::alloc::{AllocError, Global};

/// The instructions of a procedure, and the edges to each.
#[derive(Drop)]
pub struct Instructions<'a> {
    pub nodes: &'a IndexMap<u16, Node>,
    /// The offset at which the procedure begins.
    pub start: u16,
    /// The edges to each instruction, by offset.
    pub incoming: Vec<Incoming>,
}

impl<'a> Instructions<'a> {
    /// The instructions of a procedure that begins at `start`, with their edges.
    pub fn new(
        alloc: Global,
        nodes: &'a IndexMap<u16, Node>,
        start: u16,
    ) -> Result<Instructions<'a>, AllocError>
        ensures nodes { IfOk result (λ instructions. nodes_of instructions ≡ nodes.entry.now.entries) }
        ensures start { IfOk result (λ instructions. instructions.start ≡ start) }
        ensures edges { IfOk result KnowsEdges }
    {
        let incoming = edges_of(alloc, nodes)?;
        Ok(Instructions {
            nodes,
            start,
            incoming,
        })
    }

    /// The instruction at an offset.
    pub fn at(&self, at: u16) -> Option<&'a Node>
        ensures { option_copied result ≡ spec.node_in (nodes_of self.now) at }
    {
        self.nodes.get(&at)
    }

    // Whether the instruction at an offset is a CALL.
    fn calls(&self, at: u16) -> bool
        ensures { result ≡ spec.calls_in (spec.node_in (nodes_of self.now) at) }
    {
        match self.at(at) {
            Some(node) => matches!(node.instr.op, Op::Call(_)),
            None => false,
        }
    }

    // Whether the instruction at an offset is a jump through a table.
    fn jumps_by_table(&self, at: u16) -> bool
        ensures { result ≡ spec.jumps_by_table_in (spec.node_in (nodes_of self.now) at) }
    {
        match self.at(at) {
            Some(node) => matches!(node.instr.op, Op::Table(..)),
            None => false,
        }
    }

    // Whether the instruction at an offset goes on at one place alone.
    fn goes_one_way(&self, at: u16) -> bool
        ensures { result ≡ spec.is_one (spec.successors_in (spec.node_in (nodes_of self.now) at)) }
    {
        match self.at(at) {
            Some(node) => matches!(node.succ.as_slice(), [_]),
            None => false,
        }
    }

    /// Whether the instruction at an offset joins the block of the one before it.
    pub fn joins(&self, at: u16) -> bool
        requires { KnowsEdges self.now }
        ensures { result ≡ spec.joins (nodes_of self.now) self.now.start at }
    {
        match self.incoming[usize::from(at)] {
            Incoming::From(from) => {
                at != self.start
                    && from < at
                    && self.goes_one_way(from)
                    && !self.calls(from)
                    && !self.jumps_by_table(from)
                    && !self.calls(at)
            }
            _ => false,
        }
    }

    /// The next instruction of the block.
    pub fn onward(&self, at: u16) -> Option<u16>
        requires { KnowsEdges self.now }
        ensures onward { result ≡ spec.onward (nodes_of self.now) self.now.start at }
        ensures ascends { IfSome result (λ next. at < next) }
    {
        match self.at(at)?.succ.as_slice() {
            [next] if self.joins(*next) => Some(*next),
            _ => None,
        }
    }

    /// The offsets at which blocks begin: the procedure's first, then the others in ascending order.
    pub fn leaders(&self, alloc: Global) -> Result<Vec<u16>, AllocError>
        requires { KnowsEdges self.now }
        ensures { IfOk result (λ leaders. leaders.items ≡ spec.leaders (nodes_of self.now) self.now.start) }
    {
        let mut leaders = Vec::new(alloc);
        leaders.push(self.start)?;
        for at in self.nodes.keys() {
            if self.start != *at && !self.joins(*at) {
                leaders.push(*at)?;
            }
        }
        Ok(leaders)
    }
}
