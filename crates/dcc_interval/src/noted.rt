//! Nodes that are listed and marked as they come.

ghost use Rattle.std.specs.Prelude.{◌≡◌, ◌<◌, false, [], length, replicate, All, IfOk, OnOk};
ghost use Rattle.dcc_flow.specs.Edges.{rows, AreWithin};
ghost use Rattle.dcc_interval.specs.Noted.{noted_of, with_noted, with_all_noted, followers, all_cleared};

use std::alloc::{AllocError, Global};
use std::mem;

/// Nodes in the order in which they came, each once.
#[derive(Drop)]
pub struct Noted {
    /// Which nodes are marked.
    pub marks: Vec<bool>,
    /// The nodes that were noted.
    pub list: Vec<u32>,
}

impl Noted {
    /// Of so many nodes none is noted.
    pub fn new(alloc: Global, count: usize) -> Result<Noted, AllocError>
        ensures { IfOk result (λ s. noted_of s ≡ record { marks = replicate count false; list = [] }) }
    {
        Ok(Noted {
            marks: vec![in alloc; false; count]?,
            list: Vec::new(alloc),
        })
    }

    /// A node is noted, unless it is marked.
    pub fn note(&mut self, node: u32) -> Result<(), AllocError>
        requires { node < length self.old.marks.items }
        ensures { OnOk result (noted_of self.new ≡ with_noted (noted_of self.old) node) }
    {
        if !self.marks[node as usize] {
            self.marks[node as usize] = true;
            self.list.push(node)?;
        }
        Ok(())
    }

    /// Each of these nodes is noted.
    pub fn note_all(&mut self, nodes: &[u32]) -> Result<(), AllocError>
        requires { All (λ node. node < length self.old.marks.items) nodes.now }
        ensures { OnOk result (noted_of self.new ≡ with_all_noted (noted_of self.old) nodes.now) }
    {
        for node in nodes {
            self.note(*node)?;
        }
        Ok(())
    }

    /// Each node that follows one of these is noted.
    pub fn note_followers(&mut self, next: &Vec<Vec<u32>>, nodes: &[u32]) -> Result<(), AllocError>
        requires within { AreWithin (rows next.now.items) }
        requires nodes { All (λ node. node < length next.now.items) nodes.now }
        requires count { length self.old.marks.items ≡ length next.now.items }
        ensures { OnOk result (noted_of self.new
            ≡ with_all_noted (noted_of self.old) (followers (rows next.now.items) nodes.now)) }
    {
        for node in nodes {
            self.note_all(next[*node as usize].as_slice())?;
        }
        Ok(())
    }

    /// The list is taken, and its nodes are not marked any more.
    pub fn take(&mut self, alloc: Global) -> Vec<u32>
        requires { All (λ node. node < length self.old.marks.items) self.old.list.items }
        ensures list { result.items ≡ self.old.list.items }
        ensures rest { noted_of self.new
            ≡ record { marks = all_cleared self.old.marks.items self.old.list.items; list = [] } }
    {
        let list = mem::replace(&mut self.list, Vec::new(alloc));
        for node in &list {
            self.marks[*node as usize] = false;
        }
        list
    }
}
