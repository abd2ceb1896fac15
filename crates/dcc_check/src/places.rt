//! Sizes and places of variables.

ghost use Rattle.std.specs.Prelude.{◌≡◌, ◌+◌, ◌<◌, ◌≤◌, ◌^◌, ◌&&◌, ◌||◌, ℕ, Bool, true, false, not, nat_le, nat_lt};
ghost use Rattle.std.specs.Prelude.{List, [], ◌∷◌, ◌++◌, length, map, option_map, IfOk, OnOk, slice_get, if◌then◌else◌};
ghost use Rattle.std.proofs.Common.{get_or};
ghost use Rattle.std.specs.List.{list_all};
ghost use Rattle.dcc_c.specs.Kinds.{of_place, offence, earlier};
ghost use Rattle.dcc_c.specs.Partial as partial;
ghost use Rattle.dcc_c.specs.ReadingText as reading;
ghost use Rattle.dcc_c.specs.TextOffences as offences;
ghost use Rattle.dcc_reader.specs.PartialViews.{number_of, variable_of};
ghost use Rattle.dcc_check.specs.Places.{earlier_of, in_stack, IsOccupied, misplaced_here, earlier_with, is_covered};
ghost use Rattle.dcc_reader.specs.Told.{told, Tells};

use dcc_reader::{First, NumberAt, ParseKind, PartialVariable};
use std::alloc::{AllocError, Global};

// How many bytes a memory has.
const MEMORY: u64 = 65536;

// How many elements a variable has.
fn element_count(size: Option<NumberAt>) -> u64
    ensures value { result ≡ offences.element_count (option_map number_of size) }
    ensures small { result ≤ 4294967295 }
{
    match size {
        Some(number) => u64::from(number.value),
        None => 1,
    }
}

// How many bytes a variable takes.
fn size_in_bytes(variable: &PartialVariable) -> u64
    ensures value { result ≡ reading.size_in_bytes (variable_of variable.now) }
    ensures small { result ≤ 17179869180 }
{
    match variable.ty {
        Some(ty) => u64::from(ty.size()) * element_count(variable.size),
        None => 0,
    }
}

// Tells a size of no element.
fn tell_size(size: Option<NumberAt>, first: &mut First)
    ensures { Tells first.old first.new (offences.size_offences (option_map number_of size)) }
{
    if let Some(number) = size {
        first.tell_if(number.value == 0, ParseKind::Place, number.at);
    }
}

/// Tells the sizes of no element.
pub(crate) fn tell_sizes(variables: &[PartialVariable], first: &mut First)
    ensures { Tells first.old first.new (offences.sizes_of (map variable_of variables.now)) }
{
    for variable in variables {
        tell_size(variable.size, first);
    }
}

// Tells the first initial value for which there is no element.
fn tell_surplus(variable: &PartialVariable, first: &mut First)
    ensures { Tells first.old first.new (offences.surplus (variable_of variable.now)) }
{
    let count = element_count(variable.size) as usize;
    if count < variable.init.len() {
        let number = variable.init[count];
        first.tell(ParseKind::Place, number.at);
    }
}

// Whether the variable ends at the address or below it.
fn ends_by(variable: &PartialVariable, address: u64) -> bool
    ensures { result ≡ nat_le (offences.end_of (variable_of variable.now)) address }
{
    match address.checked_sub(variable.address) {
        Some(room) => size_in_bytes(variable) <= room,
        None => false,
    }
}

// Whether the two variables take no byte in common.
fn stand_apart(a: &PartialVariable, b: &PartialVariable) -> bool
    ensures { result ≡ offences.stand_apart (variable_of a.now) (variable_of b.now) }
{
    ends_by(a, b.address) || ends_by(b, a.address)
}

// Whether the variable has been read to its end, and takes a byte.
fn takes_bytes(variable: &PartialVariable) -> bool
    ensures { result ≡ offences.takes_bytes (variable_of variable.now) }
{
    variable.done && 0 < size_in_bytes(variable)
}

/// The addresses of the stack: from the first one up to the second.
#[derive(Clone, Copy)]
pub struct Stack {
    /// The lowest address of the stack.
    pub lo: u64,
    /// The address after the stack.
    pub hi: u64,
}

// Whether a variable, which has a byte, has one in the stack.
fn is_in_stack(stack: Stack, variable: &PartialVariable) -> bool
    ensures { result ≡ in_stack stack.lo stack.hi (variable_of variable.now) }
{
    !(stack.hi <= stack.lo || ends_by(variable, stack.lo) || stack.hi <= variable.address)
}

// The bytes that variables take.
#[derive(Drop)]
struct Occupied {
    /// Whether each byte of memory is taken.
    marks: Vec<bool>,
    /// Whether the marks are those of all variables so far. This holds up to the first variable that is misplaced or
    /// whose place needs no test.
    complete: bool,
}

// Whether none of the bytes from one address up to another is taken.
fn is_free(marks: &[bool], from: usize, to: usize) -> bool
    requires { to ≤ length marks.now }
    ensures free { result ≡ true → (k : ℕ) → from ≤ k → k < to → get_or marks.now k false ≡ false }
    ensures taken { result ≡ false → (k : ℕ) × (from ≤ k) × (k < to) × (get_or marks.now k false ≡ true) }
{
    for k in from..to {
        if marks[k] {
            return false;
        }
    }
    true
}

// Marks the bytes from one address up to another.
fn mark(marks: &mut [bool], from: usize, to: usize)
    requires order { from ≤ to }
    requires within { to ≤ length marks.old }
    ensures { (k : ℕ) → k < length marks.old →
        get_or marks.new k false ≡ (nat_le from k && nat_lt k to) || get_or marks.old k false }
{
    for k in from..to {
        marks[k] = true;
    }
}

// Whether the variable has a byte in an earlier one.
fn clashes(earlier: &[PartialVariable], variable: &PartialVariable) -> bool
    ensures { result ≡ not
        (list_all (offences.stand_apart (variable_of variable.now)) (earlier_of (map variable_of earlier.now))) }
{
    for other in earlier {
        if takes_bytes(other) && !stand_apart(variable, other) {
            return true;
        }
    }
    false
}

// Whether an offence at the place may be the first.
fn may_be_first(first: &First, at: u32) -> bool
    ensures { result ≡ false → earlier (told first.now) (offence of_place at) ≡ told first.now }
{
    match first.offence {
        Some(known) => at <= known.at,
        None => true,
    }
}

// Whether the variable, which takes a byte and ends in memory, has a byte in an earlier one.
fn overlaps(occupied: &Occupied, earlier: &[PartialVariable], variable: &PartialVariable) -> bool
    requires held { IsOccupied occupied.now.marks.items occupied.now.complete
        (earlier_of (map variable_of earlier.now)) }
    requires has_byte { nat_lt 0 (reading.size_in_bytes (variable_of variable.now)) ≡ true }
    requires within { nat_le (offences.end_of (variable_of variable.now)) 65536 ≡ true }
    ensures { result ≡ not
        (list_all (offences.stand_apart (variable_of variable.now)) (earlier_of (map variable_of earlier.now))) }
{
    if !occupied.complete {
        return clashes(earlier, variable);
    }
    let from = variable.address as usize;
    let to = from + size_in_bytes(variable) as usize;
    !is_free(&occupied.marks, from, to)
}

// Whether the variable takes a byte beyond memory, in the stack or in an earlier variable.
fn is_misplaced(
    occupied: &Occupied,
    stack: Stack,
    earlier: &[PartialVariable],
    variable: &PartialVariable,
) -> bool
    requires held { IsOccupied occupied.now.marks.items occupied.now.complete
        (earlier_of (map variable_of earlier.now)) }
    ensures { result ≡ offences.is_misplaced stack.lo stack.hi (earlier_of (map variable_of earlier.now))
        (variable_of variable.now) }
{
    if size_in_bytes(variable) == 0 {
        return false;
    }
    if !ends_by(variable, MEMORY) {
        return true;
    }
    if is_in_stack(stack, variable) {
        return true;
    }
    overlaps(occupied, earlier, variable)
}

// Marks the bytes of a variable that is not misplaced.
fn take(occupied: &mut Occupied, variable: &PartialVariable)
    requires whole { length occupied.old.marks.items ≡ 65536 }
    requires within { nat_le (offences.end_of (variable_of variable.now)) 65536 ≡ true }
    ensures { (earlier : List partial.PartialVariable) →
        IsOccupied occupied.old.marks.items occupied.old.complete earlier →
        IsOccupied occupied.new.marks.items occupied.new.complete (variable_of variable.now ∷ earlier) }
{
    if occupied.complete {
        let from = variable.address as usize;
        let to = from + size_in_bytes(variable) as usize;
        mark(&mut occupied.marks, from, to);
    }
}

// Tells that a variable is misplaced.
fn tell_place(
    occupied: &mut Occupied,
    stack: Stack,
    earlier: &[PartialVariable],
    variable: &PartialVariable,
    first: &mut First,
)
    requires held { IsOccupied occupied.old.marks.items occupied.old.complete
        (earlier_of (map variable_of earlier.now)) }
    ensures tells { Tells first.old first.new
        (misplaced_here stack.lo stack.hi (earlier_of (map variable_of earlier.now)) (variable_of variable.now)) }
    ensures held { IsOccupied occupied.new.marks.items occupied.new.complete
        (earlier_with (variable_of variable.now) (earlier_of (map variable_of earlier.now))) }
{
    if !takes_bytes(variable) {
        return;
    }
    let Some(name) = &variable.name else {
        occupied.complete = false;
        return;
    };
    // Names of later variables stand at later places, so that none of them needs a test either, nor marks.
    if !may_be_first(first, name.at) {
        occupied.complete = false;
        return;
    }
    if is_misplaced(occupied, stack, earlier, variable) {
        first.tell(ParseKind::Place, name.at);
        occupied.complete = false;
        return;
    }
    take(occupied, variable);
}

// Marks for `count` bytes, none of which is taken.
fn unmarked(alloc: Global, count: usize) -> Result<Vec<bool>, AllocError>
    ensures whole { IfOk result (λ marks. length marks.items ≡ count) }
    ensures free { IfOk result (λ marks. (k : ℕ) → k < count → get_or marks.items k false ≡ false) }
{
    let marks = vec![in alloc; false; count]?;
    Ok(marks)
}

/// Tells the sizes, the surplus initial values and the places of global variables.
pub(crate) fn tell_globals(
    alloc: Global,
    stack: Stack,
    globals: &[PartialVariable],
    first: &mut First,
) -> Result<(), AllocError>
    ensures { OnOk result
        (Tells first.old first.new (offences.globals_places stack.lo stack.hi [] (map variable_of globals.now))) }
{
    let mut occupied = Occupied {
        marks: unmarked(alloc, 65536)?,
        complete: true,
    };
    for i in 0..globals.len() {
        let variable = &globals[i];
        tell_size(variable.size, first);
        tell_surplus(variable, first);
        tell_place(&mut occupied, stack, &globals[..i], variable, first);
    }
    Ok(())
}
