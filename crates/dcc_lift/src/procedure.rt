//! Procedures with their frames: where the bytes of a frame stand.

ghost use Rattle.std.specs.Prelude.{◌≡◌, ◌≤◌, ℕ, ◌&&◌, if◌then◌else◌, map, filter, length, All, IfOk};
ghost use Rattle.std.specs.List.{list_any, range_with_len};
ghost use Rattle.std.specs.Ordering.{int_eq};
ghost use Rattle.dcc_prog.specs.Clean.{exposes};
ghost use Rattle.dcc_prog.specs.Analysed.{bytes_of};
ghost use Rattle.dcc_prog.specs.Frame.{argument_word};
ghost use Rattle.dcc_prog.specs.declared.procedure.Node.{Node};
ghost use Rattle.dcc_stack.specs.Slots.{is_placed, is_within, exposes_of, slots_of, gives_back, writes_directly};
ghost use Rattle.dcc_ops.specs.Placing.{place_of};
ghost use Rattle.dcc_simulation.specs.Procedures as spec;
ghost use Rattle.dcc_lift.specs.KnownProcedures.{span_of_bytes, exposes_argument, is_in_exposed_slot, procedure_of};
ghost use Rattle.dcc_lift.specs.KnownProcedures.{KnowsProcedure, KnowsProcedures};

use crate::access::{Bytes, has_access, writes_directly};
use dcc_ir::Loc;
use dcc_num::{Half, Width};
use dcc_ops::{Computed, OperandPlace};
use dcc_prog::{Cell, Cells, Frame, Layout, Proc};
use std::alloc::{AllocError, Global};

/// A procedure with its frame.
#[derive(Drop)]
pub struct Procedure<'a> {
    pub proc: &'a Proc,
    pub frame: &'a Frame,
    /// By how many bytes the stack segment begins above the data segment.
    pub delta: u16,
    /// The cells in the order of their numbers.
    pub cells: Vec<Cell>,
    /// The number of the first cell that pushes, pops and calls alone use.
    pub pushed: u16,
    /// The numbers of the arguments that are given back, in ascending order.
    pub given_back: Vec<u16>,
}

/// The distance of an offset from the frame's base, as a word.
pub(crate) fn distance_of(k: i32) -> u16
    ensures { result ≡ spec.distance_of k }
{
    (i64::from(k) - 4).rem_euclid(65536) as u16
}

// The bytes of a cell.
fn bytes_of(cell: Cell) -> Bytes
    ensures { span_of_bytes result ≡ bytes_of cell }
{
    Bytes {
        first: cell.first,
        size: cell.size,
    }
}

// The word of an argument.
fn argument_word(number: u16) -> Bytes
    ensures { span_of_bytes result ≡ argument_word number }
{
    Bytes {
        first: 4 + 2 * i32::from(number),
        size: 2,
    }
}

// Whether the frame exposes a byte of its arguments.
fn exposes_argument(frame: &Frame, k: i64) -> bool
    ensures { result ≡ exposes_argument frame.now k }
{
    match frame.exposed.arg {
        None => false,
        Some(least) => i64::from(least) <= k && k < 4 + 2 * i64::from(frame.args),
    }
}

// Whether the frame exposes a byte.
fn exposes(frame: &Frame, k: i64) -> bool
    ensures { result ≡ exposes frame.now k }
{
    let below_bp = -i64::from(frame.exposed.local) <= k && k < 0;
    below_bp || exposes_argument(frame, k)
}

// Whether the frame exposes one of the bytes, of which there are two at most.
fn exposes_one_of(frame: &Frame, bytes: Bytes) -> bool
    ensures { result ≡ exposes_of frame.now (span_of_bytes bytes) }
{
    let first = i64::from(bytes.first);
    let second = first + 1;
    exposes(frame, first) || (second < bytes.end() && exposes(frame, second))
}

// Whether the byte is one of the given ones, and the frame exposes one of them.
fn is_exposed_with(frame: &Frame, bytes: Bytes, k: i32) -> bool
    ensures { result ≡ (is_within k (span_of_bytes bytes) && exposes_of frame.now (span_of_bytes bytes)) }
{
    bytes.hold(k) && exposes_one_of(frame, bytes)
}

// Whether the byte is in a cell of which the frame exposes a byte.
fn is_in_exposed_cell(frame: &Frame, k: i32) -> bool
    ensures { result ≡ list_any (is_in_exposed_slot frame.now k) (map bytes_of frame.now.cells.items) }
{
    frame
        .cells
        .iter()
        .any(|cell| is_exposed_with(frame, bytes_of(*cell), k))
}

// Whether the byte is in an argument word of which the frame exposes a byte.
fn is_in_exposed_argument(frame: &Frame, k: i32) -> bool
    ensures { result ≡ list_any (is_in_exposed_slot frame.now k) (map argument_word (range_with_len 0 frame.now.args)) }
{
    (0..frame.args).any(|number| is_exposed_with(frame, argument_word(number), k))
}

// Whether the byte is in a cell or an argument word of which the frame exposes a byte.
#[tactic(auto, using(crate::proofs::ListLaws::any_append))]
fn is_with_exposed(frame: &Frame, k: i32) -> bool
    ensures { result ≡ list_any (is_in_exposed_slot frame.now k) (slots_of frame.now) }
{
    is_in_exposed_cell(frame, k) || is_in_exposed_argument(frame, k)
}

// Whether the byte stands in memory: the frame exposes it, or another one of its cell or argument word.
fn is_placed(frame: &Frame, k: i32) -> bool
    ensures { result ≡ is_placed frame.now k }
{
    exposes(frame, i64::from(k)) || is_with_exposed(frame, k)
}

// Whether a direct access of the procedure touches one of the bytes.
fn is_accessed(proc: &Proc, frame: &Frame, bytes: Bytes) -> bool
    ensures { result ≡ spec.is_accessed proc.now frame.now (span_of_bytes bytes) }
{
    frame.framed
        && proc
            .nodes
            .values()
            .any(|node| has_access(node.instr.op, bytes))
}

// Whether the procedure writes one of the bytes by a direct access.
fn is_written(proc: &Proc, frame: &Frame, bytes: Bytes) -> bool
    ensures { result ≡ (frame.now.framed
        && list_any (λ (node : ℕ × Node). writes_directly node.1.instr.op (span_of_bytes bytes))
        proc.now.nodes.entries) }
{
    frame.framed
        && proc
            .nodes
            .values()
            .any(|node| writes_directly(node.instr.op, bytes))
}

// The cells that direct accesses of the procedure have.
fn accessed_cells(alloc: Global, proc: &Proc, frame: &Frame) -> Result<Vec<Cell>, AllocError>
    ensures { IfOk result (λ cells. cells.items ≡ spec.accessed_cells proc.now frame.now) }
{
    let mut cells = Vec::new(alloc);
    for cell in &frame.cells {
        if is_accessed(proc, frame, bytes_of(*cell)) {
            cells.push(*cell)?;
        }
    }
    Ok(cells)
}

// The cells that pushes, pops and calls alone use.
fn other_cells(alloc: Global, proc: &Proc, frame: &Frame) -> Result<Vec<Cell>, AllocError>
    ensures { IfOk result (λ cells. cells.items ≡ spec.other_cells proc.now frame.now) }
{
    let mut cells = Vec::new(alloc);
    for cell in &frame.cells {
        if !is_accessed(proc, frame, bytes_of(*cell)) {
            cells.push(*cell)?;
        }
    }
    Ok(cells)
}

// Whether an argument is given back: the procedure exposes its word or writes it.
fn gives_back(proc: &Proc, frame: &Frame, number: u16) -> bool
    ensures { result ≡ gives_back proc.now frame.now number }
{
    let word = argument_word(number);
    exposes_one_of(frame, word) || is_written(proc, frame, word)
}

// The numbers of the arguments that are given back.
fn given_back(alloc: Global, proc: &Proc, frame: &Frame) -> Result<Vec<u16>, AllocError>
    ensures { IfOk result (λ numbers. numbers.items
        ≡ filter (gives_back proc.now frame.now) (range_with_len 0 frame.now.args)) }
{
    let mut numbers = Vec::new(alloc);
    for number in 0..frame.args {
        if gives_back(proc, frame, number) {
            numbers.push(number)?;
        }
    }
    Ok(numbers)
}

// The half of a cell at an offset: the low one where the cell begins.
fn half_at(cell: Cell, k: i32) -> Half
    ensures { result ≡ (if int_eq k cell.first then Half.Low else Half.High) }
{
    if k == cell.first {
        Half::Low
    } else {
        Half::High
    }
}

// A byte or a word of the cell of that number, from an offset on.
fn within_cell(number: u16, cell: Cell, width: Width, k: i32) -> OperandPlace
    ensures { place_of result ≡ spec.within_cell number cell width k }
{
    match width {
        Width::Byte => OperandPlace::Byte(Loc::Cell(number, half_at(cell, k))),
        Width::Word => OperandPlace::Word(
            Loc::Cell(number, Half::Low),
            Loc::Cell(number, Half::High),
        ),
    }
}

impl<'a> Procedure<'a> {
    /// The procedure as it is found, with its frame.
    pub fn new(
        alloc: Global,
        layout: &Layout,
        proc: &'a Proc,
        frame: &'a Frame,
    ) -> Result<Procedure<'a>, AllocError>
        requires few_cells { length frame.now.cells.items ≤ 512 }
        requires few_arguments { frame.now.args ≤ 32 }
        ensures procedure { IfOk result (λ procedure. procedure_of procedure
            ≡ record { proc = proc.entry.now; frame = frame.entry.now; delta = layout.now.delta }) }
        ensures known { IfOk result KnowsProcedure }
    {
        let mut cells = accessed_cells(alloc, proc, frame)?;
        let pushed = cells.len() as u16;
        cells.extend_from_slice(&other_cells(alloc, proc, frame)?)?;
        Ok(Procedure {
            proc,
            frame,
            delta: layout.delta,
            cells,
            pushed,
            given_back: given_back(alloc, proc, frame)?,
        })
    }

    // Where a byte or a word of a cell stands, from an offset on.
    fn cell_place(&self, width: Width, k: i32) -> OperandPlace
        requires { KnowsProcedure self.now }
        ensures { place_of result ≡ spec.cell_place 0 (spec.cells_of (procedure_of self.now)) width k }
    {
        for number in 0..self.cells.len() {
            let cell = self.cells[number];
            if bytes_of(cell).hold(k) {
                return within_cell(number as u16, cell, width, k);
            }
        }
        OperandPlace::Constant(width, 0)
    }

    /// Where a byte or a word of the frame stands, from an offset on.
    pub fn frame_place(&self, width: Width, k: i32) -> OperandPlace
        requires { KnowsProcedure self.now }
        ensures { place_of result ≡ spec.frame_place (procedure_of self.now) width k }
    {
        if is_placed(self.frame, k) {
            let at = Computed {
                frame: Some(distance_of(k)),
                base: None,
                index: None,
                number: 0,
            };
            return OperandPlace::Memory(width, at);
        }
        self.cell_place(width, k)
    }
}

/// The procedures with their frames, in their order.
pub(crate) fn procedures_of<'a>(
    alloc: Global,
    layout: &Layout,
    procs: &'a Vec<Proc>,
    cells: &'a Cells,
) -> Result<Vec<Procedure<'a>>, AllocError>
    requires few { All (λ (frame : Frame). (length frame.cells.items ≤ 512) × (frame.args ≤ 32))
        cells.now.frames.items }
    ensures known { IfOk result (λ procedures. KnowsProcedures procedures.items) }
    ensures procedures { IfOk result (λ procedures. map procedure_of procedures.items
        ≡ spec.procedures_of layout.now procs.entry.now.items cells.entry.now.frames.items) }
{
    let mut procedures = Vec::new(alloc);
    for number in 0..procs.len().min(cells.frames.len()) {
        let (proc, frame) = (&procs[number], &cells.frames[number]);
        procedures.push(Procedure::new(alloc, layout, proc, frame)?)?;
    }
    Ok(procedures)
}
