//! Which graphs call which procedures.

use crate::waiting::Waiting;
use dcc_ir::{Graph, IrProgram, Stmt};
use std::alloc::{AllocError, Global};

/// The calls of a program, and the places of the graphs that wait to be looked at.
#[derive(Drop)]
pub struct Calls {
    // For each entry the places of the graphs that call the procedure there.
    callers: Vec<Vec<usize>>,
    pub waiting: Waiting,
}

// No procedure is called.
fn no_callers(alloc: Global) -> Result<Vec<Vec<usize>>, AllocError> {
    let mut callers = Vec::new(alloc);
    for _ in 0..0x10000 {
        callers.push(Vec::new(alloc))?;
    }
    Ok(callers)
}

// Notes the calls of the graph at that place.
fn note(callers: &mut Vec<Vec<usize>>, at: usize, graph: &Graph) -> Result<(), AllocError> {
    for block in &graph.blocks {
        for stmt in &block.stmts {
            if let Stmt::Call { entry, .. } = stmt {
                let entry = *entry as usize;
                if entry < callers.len() {
                    callers[entry].push(at)?;
                }
            }
        }
    }
    Ok(())
}

impl Calls {
    /// The calls of a program.
    pub fn new(alloc: Global, p: &IrProgram) -> Result<Calls, AllocError> {
        let mut callers = no_callers(alloc)?;
        for at in 0..p.graphs.len() {
            note(&mut callers, at, &p.graphs[at])?;
        }
        let waiting = Waiting::new(alloc, p.graphs.len())?;
        Ok(Calls { callers, waiting })
    }

    /// The graphs that call the procedure of that entry wait.
    pub fn add_callers(&mut self, entry: u16) -> Result<(), AllocError> {
        let entry = entry as usize;
        if entry < self.callers.len() {
            self.waiting.add_all(self.callers[entry].as_slice())?;
        }
        Ok(())
    }
}
