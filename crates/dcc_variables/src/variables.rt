//! The variables of a graph's text: names, types, and the array of the frame's bytes.

ghost use Rattle.std.specs.Prelude.{◌≡◌, ◌+◌, ◌≤◌, ◌++◌, IfOk, OnOk, map, string_bytes};
ghost use Rattle.std.specs.List.{range_with_len, flat_map};
ghost use Rattle.dcc_ir.specs.declared.syntax.Loc.TheVariants.{Temp};
ghost use Rattle.dcc_ir.specs.Location.{location_width};
ghost use Rattle.dcc_ir.specs.Views.{graph_of};
ghost use Rattle.dcc_c.specs.Views.{variable_of};
ghost use Rattle.dcc_variables.specs.Variables as spec;
ghost use Rattle.dcc_variables.specs.Laws.{AreFew};
ghost use Rattle.dcc_variables.specs.Views.{shape_in};

use crate::addresses::frame_bytes;
use dcc_c::{Base, CType, Class, Var};
use dcc_flow::{all_mentioned, mentioned};
use dcc_ir::{Graph, Loc, PASSED_LOCATIONS};
use dcc_num::{FlagName, Half, Reg};
use dcc_text::way::unsigned_type;
use dcc_text::{NamedAddress, Spells};
use std::alloc::{AllocError, Global};

// The halves of SP and BP.
const STACK_LOCATIONS: [Loc; 4] = [
    Loc::Half(Reg::Sp, Half::Low),
    Loc::Half(Reg::Sp, Half::High),
    Loc::Half(Reg::Bp, Half::Low),
    Loc::Half(Reg::Bp, Half::High),
];

// How many cells there are up to a location.
fn cells_to(location: Loc) -> u32
    ensures cells { result ≡ spec.cells_to location }
    ensures few { result ≤ 65536 }
{
    match location {
        Loc::Cell(n, _) => u32::from(n) + 1,
        _ => 0,
    }
}

// How many cells there are up to the last cell of a list of locations.
fn cells_among(mentions: &[Loc]) -> u32
    ensures cells { result ≡ spec.cells_among mentions.now }
    ensures few { result ≤ 65536 }
{
    let mut cells = 0;
    for location in mentions {
        cells = cells_to(*location).max(cells);
    }
    cells
}

// Appends `count` temporaries.
fn push_temporaries(list: &mut Vec<Loc>, count: u32) -> Result<(), AllocError>
    ensures { OnOk result (list.new.items ≡ list.old.items ++ map Temp (range_with_len 0 count)) }
{
    for n in 0..count {
        list.push(Loc::Temp(n))?;
    }
    Ok(())
}

// Appends the halves of a cell.
fn push_cell(list: &mut Vec<Loc>, n: u16) -> Result<(), AllocError>
    ensures { OnOk result (list.new.items ≡ list.old.items ++ spec.cell_halves n) }
{
    list.push(Loc::Cell(n, Half::Low))?;
    list.push(Loc::Cell(n, Half::High))?;
    Ok(())
}

// Appends the halves of `count` cells.
fn push_cells(list: &mut Vec<Loc>, count: u32) -> Result<(), AllocError>
    requires { count ≤ 65536 }
    ensures { OnOk result (list.new.items ≡ list.old.items ++ flat_map spec.cell_halves (range_with_len 0 count)) }
{
    for n in 0..count {
        push_cell(list, n as u16)?;
    }
    Ok(())
}

// The locations that may have variables, in the variables' order.
#[tactic(auto, unfolding(crate::specs::Variables::named_locations, crate::specs::Variables::stack_locations))]
fn all_locations(alloc: Global, temporaries: u32, cells: u32) -> Result<Vec<Loc>, AllocError>
    requires { cells ≤ 65536 }
    ensures { IfOk result (λ list. list.items ≡ spec.all_locations temporaries cells) }
{
    let mut list = PASSED_LOCATIONS.to_vec(alloc)?;
    push_temporaries(&mut list, temporaries)?;
    push_cells(&mut list, cells)?;
    list.extend_from_slice(&STACK_LOCATIONS)?;
    Ok(list)
}

// The name with a number.
fn numbered_name(alloc: Global, n: u64) -> Result<String, AllocError>
    ensures { IfOk result (λ name. string_bytes name ≡ spec.numbered_name n) }
{
    format!(in alloc; "v{n}")
}

// The place of a half in its register.
fn half_number(half: Half) -> u64
    ensures { result ≡ Rattle.dcc_ir.specs.Location.half_number half }
{
    match half {
        Half::Low => 0,
        Half::High => 1,
    }
}

/// The variables of a graph's text, in the order of their numbers. They spell the graph.
#[derive(Drop)]
pub struct Variables {
    /// The bits of each temporary, by its number.
    pub bits: Vec<u8>,
    /// The locations that have variables.
    pub locations: Vec<Loc>,
    /// How many cells there are up to the last that has a variable.
    pub cells: u32,
    /// How many bytes the array of the frame has.
    pub frame: u16,
}

impl Variables {
    /// The variables of a graph: one for each location that it reads or writes. That there are more temporaries than 32
    /// bits can number is told as want of memory.
    pub fn of(alloc: Global, graph: &Graph) -> Result<Self, AllocError>
        ensures shape { IfOk result (λ v. shape_in v ≡ spec.shape_of (graph_of graph.now)) }
        ensures few { OnOk result (AreFew (spec.shape_of (graph_of graph.now))) }
    {
        let Ok(temporaries) = u32::try_from(graph.bits.len()) else {
            return Err(AllocError);
        };
        let mentions = all_mentioned(alloc, graph)?;
        let cells = cells_among(mentions.as_slice());
        let all = all_locations(alloc, temporaries, cells)?;
        Ok(Variables {
            bits: graph.bits.clone()?,
            locations: mentioned(alloc, graph, all.as_slice())?,
            cells,
            frame: frame_bytes(None, graph),
        })
    }

    // The number of the first variable of a cell.
    fn first_cell(&self) -> u64
        ensures { result ≡ spec.first_cell (shape_in self.now) }
    {
        18 + self.bits.len() as u64
    }

    // The number of the variable of a register's lower half.
    fn register_first(&self, r: Reg) -> u64
        ensures { result ≡ spec.register_first (shape_in self.now) r }
    {
        match r {
            Reg::Ax => 1,
            Reg::Cx => 3,
            Reg::Dx => 5,
            Reg::Bx => 7,
            Reg::Si => 9,
            Reg::Di => 11,
            Reg::Sp => self.first_cell() + 2 * u64::from(self.cells),
            Reg::Bp => self.first_cell() + 2 * u64::from(self.cells) + 2,
        }
    }

    // The number of a location's variable.
    fn number(&self, location: Loc) -> u64
        ensures { result ≡ spec.variable_number (shape_in self.now) location }
    {
        match location {
            Loc::Half(r, half) => self.register_first(r) + half_number(half),
            Loc::Flag(FlagName::Cf) => 13,
            Loc::Flag(FlagName::Zf) => 14,
            Loc::Flag(FlagName::Sf) => 15,
            Loc::Flag(FlagName::Of) => 16,
            Loc::Temp(n) => 18 + u64::from(n),
            Loc::Cell(n, half) => self.first_cell() + (2 * u64::from(n) + half_number(half)),
        }
    }

    // The declaration of a location's variable.
    fn variable(&self, alloc: Global, location: Loc) -> Result<Var, AllocError>
        ensures { IfOk result (λ v. variable_of v ≡ spec.variable (shape_in self.now) location) }
    {
        Ok(Var {
            name: self.name(alloc, location)?,
            ty: self.type_of(location),
            len: None,
            class: Class::Plain,
        })
    }

    /// The declarations of the variables, and after them the array of the frame's bytes, where there are any.
    pub fn declarations(&self, alloc: Global) -> Result<Vec<Var>, AllocError>
        ensures { IfOk result (λ vs. map variable_of vs.items ≡ spec.declarations (shape_in self.now)) }
    {
        let mut list = Vec::new(alloc);
        for location in &self.locations {
            list.push(self.variable(alloc, *location)?)?;
        }
        if self.frame != 0 {
            list.push(Var {
                name: numbered_name(alloc, 17)?,
                ty: CType::plain(Base::Uchar),
                len: Some(u32::from(self.frame)),
                class: Class::Auto,
            })?;
        }
        Ok(list)
    }
}

impl Spells for Variables {
    ghost use Rattle.dcc_variables.specs.Variables.{spelling_of};
    ghost use Rattle.dcc_variables.specs.Views.{shape_in};

    ghost spelling = { λ v. spelling_of (shape_in v) };

    fn width(&self, location: Loc) -> u8 {
        match location {
            Loc::Half(_, _) | Loc::Cell(_, _) => 8,
            Loc::Flag(_) => 1,
            Loc::Temp(n) => match self.bits.get(n as usize) {
                Some(width) => *width,
                None => 0,
            },
        }
    }

    fn name(&self, alloc: Global, location: Loc) -> Result<String, AllocError> {
        numbered_name(alloc, self.number(location))
    }

    fn type_of(&self, location: Loc) -> CType {
        CType::plain(unsigned_type(u32::from(self.width(location))))
    }

    fn is_settled(&self, _location: Loc) -> bool {
        false
    }

    fn place(&self, alloc: Global, distance: u16) -> Result<Option<NamedAddress>, AllocError> {
        if self.frame == 0 {
            return Ok(None);
        }
        let above = (u32::from(distance) + (4 + u32::from(self.frame))) % 65536;
        Ok(Some(NamedAddress {
            name: numbered_name(alloc, 17)?,
            is_array: true,
            above: above as u16,
        }))
    }

    fn function(&self, alloc: Global, _entry: u16) -> Result<String, AllocError> {
        String::from_str(alloc, "start")
    }
}
