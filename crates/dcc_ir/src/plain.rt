//! The plain run of a program: slow, and close to what a program means.

ghost use Rattle.std.specs.List.{range_with_len};
ghost use Rattle.std.specs.Prelude.{◌≡◌, OnOk, IfOk, map, option_map};
ghost use Rattle.dcc_run.specs.System.{events_after, end_after};
ghost use Rattle.dcc_run.specs.End.{is_over};
ghost use Rattle.dcc_ir.specs.Views.{stmt_of, graph_of, program_of};
ghost use Rattle.dcc_ir.specs.Plain.{first_byte, end_of, event_of, state_of, shared_graph_of};
ghost use Rattle.dcc_ir.specs.Run as inner;

mod calls;
pub mod scene;
pub mod state;
pub mod values;

use crate::syntax::{Graph, IrProgram, Stmt};
pub use scene::{Held, View};
pub use state::{Activation, End, Event, PlainRun, Refused, Waiting};
use std::alloc::{AllocError, Global};

// The graph with that entry.
fn graph_at(graphs: &[Graph], entry: u16) -> Option<&Graph>
    ensures { option_map shared_graph_of result ≡ inner.graph_at (map graph_of graphs.now) entry }
{
    for graph in graphs {
        if graph.entry == entry {
            return Some(graph);
        }
    }
    None
}

/// What has happened at the console, the oldest first, and how the run has ended.
#[derive(Drop)]
pub struct Outcome {
    pub events: Vec<Event>,
    pub end: End,
}

// The memory at the start: the low byte of the fill from `lo` to below `hi`, elsewhere the image and zeros above
// it.
fn first_memory(alloc: Global, program: &IrProgram, fill: u16) -> Result<Vec<u8>, AllocError>
    ensures { IfOk result (λ memory. memory.items ≡ inner.first_memory (program_of program.now) fill) }
{
    first_bytes(alloc, &program.image, program.lo, program.hi, fill, 65_536)
}

// The first `len` bytes of the memory at the start.
fn first_bytes(
    alloc: Global,
    image: &[u8],
    lo: u16,
    hi: u16,
    fill: u16,
    len: u32,
) -> Result<Vec<u8>, AllocError>
    ensures { IfOk result (λ bytes. bytes.items ≡ map (first_byte image.now lo hi fill) (range_with_len 0 len)) }
{
    (0..len)
        .map(|at| if u32::from(lo) <= at && at < u32::from(hi) {
            (fill % 256) as u8
        } else {
            image.get(at as usize).copied().unwrap_or(0)
        })
        .collect(alloc)
}

impl<'p> PlainRun<'p> {
    /// The state in which the first graph begins.
    pub fn new(
        alloc: Global,
        program: &'p IrProgram,
        input: &[u8],
        fill: u16,
    ) -> Result<PlainRun<'p>, Refused>
        ensures state { IfOk result (λ run.
            state_of run ≡ inner.first_state (program_of program.entry.now) fill input.now) }
        ensures fill { IfOk result (λ run. run.fill ≡ fill) }
    {
        let Some(graph) = program.graphs.first() else {
            return Err(Refused::Empty);
        };
        let mut run = PlainRun {
            running: Activation {
                graph,
                block: None,
                rest: &[],
                begins: false,
                held: Vec::new(alloc),
                base: program.hi.wrapping_add(2),
            },
            waiting: Vec::new(alloc),
            memory: first_memory(alloc, program, fill)?,
            input: input.to_vec(alloc)?,
            taken: 0,
            events: Vec::new(alloc),
            end: End::Running,
            fill,
        };
        run.go_to(0);
        Ok(run)
    }

    /// Whether the run is over.
    pub fn is_over(&self) -> bool
        ensures { result ≡ is_over (end_of self.now.end) }
    {
        self.end != End::Running
    }

    // The block from these statements on, up to its next call, return or end.
    fn go_on(
        &mut self,
        alloc: Global,
        program: &'p IrProgram,
        stmts: &'p [Stmt],
    ) -> Result<(), Refused>
        ensures after { OnOk result (state_of self.new
            ≡ inner.block_step (map graph_of program.entry.now.graphs.items) self.old.fill
            (map stmt_of stmts.entry.now) (state_of self.old)) }
        ensures fill { self.new.fill ≡ self.old.fill }
    {
        for i in 0..stmts.len() {
            if let Stmt::Call {
                results,
                entry,
                arguments,
                depth,
            } = &stmts[i]
            {
                let values = self.values(alloc, arguments)?;
                self.running.rest = &stmts[i + 1..];
                self.running.begins = false;
                let graph = graph_at(&program.graphs, *entry);
                return self.call(alloc, graph, results, &values, *depth);
            }
            self.execute(alloc, &stmts[i])?;
            if self.is_over() {
                return Ok(());
            }
        }
        match self.running.block {
            Some(block) => self.leave(alloc, &block.end),
            None => {
                self.stop();
                Ok(())
            }
        }
    }

    /// One step: a block up to its next call, return or end. A run that is over stays as it is.
    pub fn step(&mut self, alloc: Global, program: &'p IrProgram) -> Result<(), Refused>
        ensures after { OnOk result (state_of self.new
            ≡ inner.step (program_of program.entry.now) self.old.fill (state_of self.old)) }
        ensures fill { self.new.fill ≡ self.old.fill }
    {
        if self.is_over() {
            return Ok(());
        }
        self.go_on(alloc, program, self.running.rest)
    }
}

/// The first `steps` steps of a program.
pub fn run(
    alloc: Global,
    program: &IrProgram,
    input: &[u8],
    fill: u16,
    steps: u64,
) -> Result<Outcome, Refused>
    ensures events { IfOk result (λ outcome. map event_of outcome.events.items
        ≡ events_after (inner.inner_system (program_of program.now) fill) steps
        (inner.first_state (program_of program.now) fill input.now)) }
    ensures end { IfOk result (λ outcome. end_of outcome.end
        ≡ end_after (inner.inner_system (program_of program.now) fill) steps
        (inner.first_state (program_of program.now) fill input.now)) }
{
    let mut run = PlainRun::new(alloc, program, input, fill)?;
    let mut done = 0;
    while done < steps && !run.is_over() {
        run.step(alloc, program)?;
        done += 1;
    }
    Ok(Outcome {
        events: run.events,
        end: run.end,
    })
}
