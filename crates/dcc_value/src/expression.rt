//! Expressions whose names are resolved to places of variables, their values, and where assignments go.

ghost use Rattle.std.specs.Prelude.{◌≡◌, List, map, slice_get, Some};
ghost use Rattle.dcc_c.specs.Tree.{Word};
ghost use Rattle.dcc_c.specs.Typing.{Declared};
ghost use Rattle.dcc_c.specs.Value.{given, declared_by, Unplaced, converted, after_assignment};
ghost use Rattle.dcc_value.specs.Evaluation.{typed, outcome_of, itself, unnamed, binding_named, bindings_named};
ghost use Rattle.dcc_value.specs.Resolved.{contents_of, slot_in, evaluated, slot_target, address_target, targeted};
ghost use Rattle.dcc_value.specs.Resolved.{target_named, index_named, IsAlone, IsTargetIn, variables_after};
ghost use Rattle.dcc_value.specs.Resolved.{memory_after};

use crate::value::memory::store;
use crate::value::{NoValue, Value, both_values, converted, is_zero, truth_value, unary_value};
use crate::variable::{Binding, Contents, address_value, pointed_value, variable_value};
use dcc_c::{CBin, CType, CUn};

/// The place of a variable.
#[derive(Clone, Copy, PartialEq, Eq, Debug)]
pub enum Slot {
    /// A variable of the call, by its place.
    Local(usize),
    /// A global variable, by its place.
    Global(usize),
}

/// A resolved expression.
#[derive(Drop)]
pub enum Resolved {
    /// A number.
    Constant(Value),
    /// The value of a variable.
    Variable(Slot),
    /// The address of a variable.
    AddressOf(Slot),
    /// What stands at an address.
    Load(Box<Resolved>),
    /// A unary operator on a number.
    Unary(CUn, Box<Resolved>),
    /// `||`.
    Either(Box<Resolved>, Box<Resolved>),
    /// `&&`.
    Both(Box<Resolved>, Box<Resolved>),
    /// An operator that takes the values of both operands.
    Binary(CBin, Box<Resolved>, Box<Resolved>),
    /// `?:` with the common type of its last two operands, where they have one.
    Choose(Option<CType>, Box<Resolved>, Box<Resolved>, Box<Resolved>),
    /// A type and what is converted to it.
    Cast(CType, Box<Resolved>),
    /// An expression that has no meaning.
    Meaningless,
}

/// Where a value goes.
#[derive(Clone, Copy, PartialEq, Eq, Debug)]
pub enum Target {
    /// The value goes to the variable of the call at the place, which is kept by itself.
    Local(usize),
    /// The value goes into memory, as one of the type, from the address on.
    Memory(CType, u32),
}

// The variable at a place.
fn slot_binding(scene: &Contents<'_>, slot: Slot) -> Result<Binding, NoValue>
    ensures { outcome_of unnamed result ≡ given (slot_in (contents_of scene.now) slot) }
{
    let b = match slot {
        Slot::Local(i) => scene.frame.get(i),
        Slot::Global(i) => scene.globals.get(i),
    };
    b.copied().ok_or(NoValue::Undefined)
}

impl Resolved {
    /// The value of the expression.
    pub fn evaluate(&self, scene: &Contents<'_>) -> Result<Value, NoValue>
        ensures { outcome_of typed result ≡ evaluated (contents_of scene.now) self.now }
    {
        match self {
            Resolved::Constant(v) => Ok(*v),
            Resolved::Variable(slot) => variable_value(scene.memory, slot_binding(scene, *slot)?),
            Resolved::AddressOf(slot) => address_value(slot_binding(scene, *slot)?),
            Resolved::Load(a) => pointed_value(scene.memory, a.evaluate(scene)?),
            Resolved::Unary(operator, a) => unary_value(*operator, a.evaluate(scene)?),
            Resolved::Either(a, b) => {
                let first = truth_value(a.evaluate(scene)?)?;
                if is_zero(first) {
                    truth_value(b.evaluate(scene)?)
                } else {
                    Ok(first)
                }
            }
            Resolved::Both(a, b) => {
                let first = truth_value(a.evaluate(scene)?)?;
                if is_zero(first) {
                    Ok(first)
                } else {
                    truth_value(b.evaluate(scene)?)
                }
            }
            Resolved::Binary(operator, a, b) => {
                let first = a.evaluate(scene)?;
                both_values(*operator, first, b.evaluate(scene)?)
            }
            Resolved::Choose(ty, a, b, c) => {
                let test = a.evaluate(scene)?;
                match ty {
                    Some(ty) if !test.ty.pointer => {
                        let chosen = if is_zero(test) { c } else { b };
                        Ok(converted(*ty, chosen.evaluate(scene)?))
                    }
                    _ => Err(NoValue::Undefined),
                }
            }
            Resolved::Cast(ty, a) => Ok(converted(*ty, a.evaluate(scene)?)),
            Resolved::Meaningless => Err(NoValue::Undefined),
        }
    }

    /// Where an assignment to the expression goes.
    pub fn target(&self, scene: &Contents<'_>) -> Result<Target, NoValue>
        ensures { outcome_of itself result ≡ targeted (contents_of scene.now) self.now }
    {
        match self {
            Resolved::Variable(slot) => variable_target(*slot, slot_binding(scene, *slot)?),
            Resolved::Load(a) => pointed_target(a.evaluate(scene)?),
            _ => Err(NoValue::Undefined),
        }
    }
}

// Where an assignment to a variable goes.
fn variable_target(slot: Slot, b: Binding) -> Result<Target, NoValue>
    ensures { outcome_of itself result ≡ slot_target slot (unnamed b) }
{
    if b.is_array {
        return Err(NoValue::Undefined);
    }
    match (b.is_placed, slot) {
        (true, _) => Ok(Target::Memory(b.ty, b.bits)),
        (false, Slot::Local(i)) => Ok(Target::Local(i)),
        (false, Slot::Global(_)) => Err(NoValue::Undefined),
    }
}

// Where an assignment by a pointer goes.
fn pointed_target(v: Value) -> Result<Target, NoValue>
    ensures { outcome_of itself result ≡ address_target (typed v) }
{
    if v.ty.pointer {
        Ok(Target::Memory(CType::plain(v.ty.base), v.bits))
    } else {
        Err(NoValue::Undefined)
    }
}

// A variable that is kept by itself, after it has taken the value, converted to its type.
fn with_value(b: Binding, v: Value) -> Binding
    ensures { (word : Word) → binding_named word result
        ≡ record (binding_named word b) { storage = Unplaced (converted b.ty (typed v)).bits } }
{
    Binding {
        ty: b.ty,
        is_array: b.is_array,
        is_placed: false,
        bits: converted(b.ty, v).bits,
    }
}

// Gives the variable of the call at a place the value, converted to its type.
fn assign(frame: &mut [Binding], i: usize, v: Value)
    ensures variables { (names : List Declared) (word : Word) → index_named names word ≡ Some i →
        bindings_named names frame.new ≡ after_assignment (bindings_named names frame.old) word (typed v) }
    ensures declared { (names : List Declared) → IsAlone (slice_get names i) →
        map declared_by (bindings_named names frame.old) ≡ names →
        map declared_by (bindings_named names frame.new) ≡ names }
{
    if i < frame.len() {
        frame[i] = with_value(frame[i], v);
    }
}

/// Gives the target the value, converted to its type.
pub fn take(target: Target, v: Value, frame: &mut [Binding], memory: &mut [u8])
    ensures variables { (names : List Declared) → IsTargetIn names target → bindings_named names frame.new
        ≡ variables_after (target_named names target) (typed v) (bindings_named names frame.old) }
    ensures memory { (names : List Declared) →
        memory.new ≡ memory_after (target_named names target) (typed v) memory.old }
    ensures declared { (names : List Declared) → IsTargetIn names target →
        map declared_by (bindings_named names frame.old) ≡ names →
        map declared_by (bindings_named names frame.new) ≡ names }
{
    match target {
        Target::Local(i) => assign(frame, i, v),
        Target::Memory(ty, at) => store(memory, ty, at, converted(ty, v).bits),
    }
}
