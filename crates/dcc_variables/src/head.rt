//! The head of a graph's function: its name, parameters, variables and result.

ghost use Rattle.std.specs.Prelude.{◌≡◌, ℕ, ◌+◌, ◌^◌, ◌<◌, ◌++◌, true, IfOk, OnOk, IfSome, filter, length, map};
ghost use Rattle.std.specs.Prelude.{option_map, string_bytes};
ghost use Rattle.dcc_ir.specs.Value.{width_of};
ghost use Rattle.dcc_ir.specs.Views.{expr_of, graph_of};
ghost use Rattle.dcc_ir.specs.WellFormed as formed;
ghost use Rattle.dcc_c.specs.Views.{variable_of};
ghost use Rattle.dcc_text.specs.Views.{placed_of};
ghost use Rattle.dcc_variables.specs.Variables as shapes;
ghost use Rattle.dcc_variables.specs.Variables.{variable};
ghost use Rattle.dcc_variables.specs.Views.{shape_in};
ghost use Rattle.dcc_variables.specs.Functions as spec;
ghost use Rattle.dcc_variables.specs.FunctionLaws.{HasFewNames};

use crate::addresses::{frame_bytes, is_told_from};
use crate::variables::Variables;
use dcc_c::{Base, CType, Class, Var};
use dcc_ir::plain::scene::{same_location, width_of};
use dcc_ir::{End, Expr, Graph, Loc, Param, Put};
use dcc_text::hex::name_at;
use dcc_text::way::unsigned_type;
use dcc_text::{NamedAddress, Spells};
use std::alloc::{AllocError, Global};

/// The name of the function of a graph with this entry, which is not the first.
pub fn function_name(alloc: Global, entry: u16) -> Result<String, AllocError>
    ensures { IfOk result (λ name. string_bytes name ≡ spec.function_name entry) }
{
    name_at(alloc, "f_", entry)
}

/// The name of the parameter at a place.
pub(crate) fn parameter_name(alloc: Global, place: usize) -> Result<String, AllocError>
    requires { place + 1 < 2 ^ 64 }
    ensures { IfOk result (λ name. string_bytes name ≡ spec.parameter_name place) }
{
    let number = place + 1;
    format!(in alloc; "p{number}")
}

// What stands for an address that is told from the parameter at a place.
fn argument_place(
    alloc: Global,
    told: Option<usize>,
    distance: u16,
) -> Result<Option<NamedAddress>, AllocError>
    requires { shapes.is_told_from told distance ≡ true }
    ensures { IfOk result (λ place. option_map placed_of place
        ≡ option_map (λ place. spec.argument_place place distance) told) }
{
    let Some(place) = told else {
        return Ok(None);
    };
    Ok(Some(NamedAddress {
        name: parameter_name(alloc, place)?,
        is_array: false,
        above: distance - 2 * place as u16,
    }))
}

// Whether a location takes all bits of an argument.
fn is_taken_whole(put: Put, location: Loc) -> bool
    ensures { result ≡ spec.is_taken_whole put location }
{
    match put {
        Put::One(other) => same_location(location, other),
        Put::Memory | Put::Two(..) => false,
    }
}

// The place of the first argument of the stack that is kept in memory.
fn memory_place(params: &[Param]) -> Option<usize>
    ensures place { result ≡ spec.memory_from 0 params.now }
    ensures within { IfSome result (λ place. place < length params.now) }
{
    for (place, p) in params.iter().enumerate() {
        if p.stack && matches!(p.put, Put::Memory) {
            return Some(place);
        }
    }
    None
}

// How the parameter of a param is stored.
fn parameter_class(p: Param) -> Class
    ensures { result ≡ spec.parameter_class p }
{
    if !p.stack {
        return Class::Register;
    }
    match p.put {
        Put::Memory => Class::Auto,
        Put::One(_) | Put::Two(..) => Class::Plain,
    }
}

// The type of what a Ret gives with these values.
fn type_for(bits: &[u8], values: &[Expr]) -> Result<Option<CType>, AllocError>
    ensures { IfOk result (λ ty. ty ≡ spec.type_for (map (width_of bits.now) (map expr_of values.now))) }
{
    let Some(value) = values.first() else {
        return Ok(None);
    };
    let Some(width) = width_of(bits, value) else {
        return Err(AllocError);
    };
    Ok(Some(CType::plain(unsigned_type(u32::from(width)))))
}

/// The type of what the Rets of a graph give; None where they give nothing, or there is none. That an expression has
/// more bits than 8 bits can number is told as want of memory.
pub fn result_type(graph: &Graph) -> Result<Option<CType>, AllocError>
    ensures { IfOk result (λ ty. ty ≡ spec.result_type (graph_of graph.now)) }
{
    for block in &graph.blocks {
        if let End::Ret(values) = &block.end {
            return type_for(graph.bits.as_slice(), values.as_slice());
        }
    }
    Ok(None)
}

/// The head of a graph's function. It spells the graph.
#[derive(Drop)]
pub struct Head {
    /// The variables of the graph.
    pub variables: Variables,
    /// The params of the graph.
    pub params: Vec<Param>,
}

impl Head {
    /// The head of a graph's function. That there are more temporaries or params than 32 bits can number is told as
    /// want of memory.
    pub fn of(alloc: Global, graph: &Graph) -> Result<Self, AllocError>
        ensures shape { IfOk result (λ h. shape_in h.variables ≡ spec.function_shape (graph_of graph.now)) }
        ensures params { IfOk result (λ h. h.params.items ≡ (graph_of graph.now).params) }
        ensures few { OnOk result (HasFewNames (graph_of graph.now)) }
    {
        if u32::try_from(graph.params.len()).is_err() {
            return Err(AllocError);
        }
        let params = graph.params.clone()?;
        let frame = frame_bytes(memory_place(params.as_slice()), graph);
        let variables = Variables::of(alloc, graph)?;
        Ok(Head {
            variables: Variables { frame, ..variables },
            params,
        })
    }

    // The place of the param that a location is.
    fn place_of(&self, location: Loc) -> Option<usize>
        ensures place { result ≡ spec.place_from 0 self.now.params.items location }
        ensures within { IfSome result (λ place. place < length self.now.params.items) }
    {
        for (place, p) in self.params.iter().enumerate() {
            if is_taken_whole(p.put, location) {
                return Some(place);
            }
        }
        None
    }

    // How many bits an argument has.
    fn argument_width(&self, put: Put) -> u8
        ensures { result ≡ formed.put_width (shape_in self.now.variables).bits put }
    {
        match put {
            Put::One(location) => self.variables.width(location),
            Put::Memory | Put::Two(..) => 16,
        }
    }

    // The parameter of a param at a place.
    fn parameter(&self, alloc: Global, place: usize, p: Param) -> Result<Var, AllocError>
        requires { place + 1 < 2 ^ 64 }
        ensures { IfOk result (λ v. variable_of v
            ≡ spec.parameter (shape_in self.now.variables).bits place p) }
    {
        let width = u32::from(self.argument_width(p.put));
        Ok(Var {
            name: parameter_name(alloc, place)?,
            ty: CType::plain(unsigned_type(width)),
            len: None,
            class: parameter_class(p),
        })
    }

    /// The parameters of the function, in their order.
    pub fn parameters(&self, alloc: Global) -> Result<Vec<Var>, AllocError>
        ensures { IfOk result (λ vs. map variable_of vs.items
            ≡ spec.parameters_from (shape_in self.now.variables).bits 0 self.now.params.items) }
    {
        let mut list = Vec::new(alloc);
        for (place, p) in self.params.iter().enumerate() {
            list.push(self.parameter(alloc, place, *p)?)?;
        }
        Ok(list)
    }

    // The declaration of a location's variable.
    fn variable(&self, alloc: Global, location: Loc) -> Result<Var, AllocError>
        ensures { IfOk result (λ v. variable_of v ≡ variable (shape_in self.now.variables) location) }
    {
        Ok(Var {
            name: self.variables.name(alloc, location)?,
            ty: self.variables.type_of(location),
            len: None,
            class: Class::Plain,
        })
    }

    // Appends the variables of the locations that are no parameters.
    fn push_variables(&self, alloc: Global, list: &mut Vec<Var>) -> Result<(), AllocError>
        ensures { OnOk result (map variable_of list.new.items ≡ map variable_of list.old.items
            ++ map (variable (shape_in self.now.variables))
            (filter (spec.is_no_parameter self.now.params.items) (shape_in self.now.variables).locations)) }
    {
        for location in &self.variables.locations {
            if self.place_of(*location).is_none() {
                list.push(self.variable(alloc, *location)?)?;
            }
        }
        Ok(())
    }

    /// The declarations of the variables of locations that are no parameters, and after them the array of the frame's
    /// bytes, where there are any.
    pub fn declarations(&self, alloc: Global) -> Result<Vec<Var>, AllocError>
        ensures { IfOk result (λ vs. map variable_of vs.items
            ≡ spec.own_by (shape_in self.now.variables) self.now.params.items) }
    {
        let mut list = Vec::new(alloc);
        self.push_variables(alloc, &mut list)?;
        if let Some(array) = self.variables.place(alloc, 0)? {
            list.push(Var {
                name: array.name,
                ty: CType::plain(Base::Uchar),
                len: Some(u32::from(self.variables.frame)),
                class: Class::Auto,
            })?;
        }
        Ok(list)
    }
}

impl Spells for Head {
    ghost use Rattle.dcc_variables.specs.Views.{spelling_in};

    ghost spelling = { λ h. spelling_in h };

    fn width(&self, location: Loc) -> u8 {
        self.variables.width(location)
    }

    fn name(&self, alloc: Global, location: Loc) -> Result<String, AllocError> {
        match self.place_of(location) {
            Some(place) => parameter_name(alloc, place),
            None => self.variables.name(alloc, location),
        }
    }

    fn type_of(&self, location: Loc) -> CType {
        self.variables.type_of(location)
    }

    fn is_settled(&self, location: Loc) -> bool {
        self.variables.is_settled(location)
    }

    fn place(&self, alloc: Global, distance: u16) -> Result<Option<NamedAddress>, AllocError> {
        let told = memory_place(self.params.as_slice());
        if !is_told_from(told, distance) {
            return self.variables.place(alloc, distance);
        }
        argument_place(alloc, told, distance)
    }

    fn function(&self, alloc: Global, entry: u16) -> Result<String, AllocError> {
        function_name(alloc, entry)
    }
}
