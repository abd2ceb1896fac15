//! The points of a function while they are made.

ghost use Rattle.std.specs.Prelude.{◌≡◌, ℕ, ◌++◌, ◌∷◌, [], length, map, option_map, string_bytes, Option, Some, None};
ghost use Rattle.std.specs.Prelude.{IfOk, OnOk, slice_set, if◌then◌else◌};
ghost use Rattle.dcc_c.specs.Token.{same_bytes};
ghost use Rattle.dcc_c.specs.Tree.{Word};
ghost use Rattle.dcc_c.specs.Views.{expr_of};
ghost use Rattle.dcc_value.specs.Resolved.{names_of};
ghost use Rattle.dcc_value.specs.Places.{AreFirst};
ghost use Rattle.dcc_prepare.specs.Points.{StandsIf, StandAll, label_words, label_named, point_named};

use crate::program::{Action, Label, Row};
use dcc_c::CExpr;
use dcc_value::expression::Resolved;
use dcc_value::places::{add_place, place_of};
use dcc_value::resolve::resolve;
use dcc_value::variable::Names;
use std::alloc::{AllocError, Global};
use std::collections::BTreeMap;

/// The points of a function that are made so far.
#[derive(Drop)]
pub struct Code<'a> {
    /// The points.
    pub rows: Vec<Row>,
    /// The labels.
    pub labels: Vec<Label>,
    // The number of the label with each name.
    places: BTreeMap<&'a str, usize>,
    ghost first: { AreFirst places (label_words labels.items) },
}

/// What the points of a function are made with: what its statements may name, and memory.
#[derive(Clone, Copy)]
pub struct Context<'a, 'l, 'g> {
    /// Where the points are allocated.
    pub alloc: Global,
    /// The variables.
    pub names: &'a Names<'a, 'l, 'g>,
    /// The numbers of the functions of the text.
    pub functions: &'a BTreeMap<&'g str, usize>,
}

impl<'a> Code<'a> {
    ghost use Rattle.dcc_prepare.specs.Emission.{KeepNumbers};

    /// A code without points.
    pub fn new(alloc: Global) -> Code<'a>
        ensures rows { result.rows.items ≡ [] }
        ensures labels { result.labels.items ≡ [] }
    {
        Code {
            rows: Vec::new(alloc),
            labels: Vec::new(alloc),
            places: BTreeMap::new(alloc),
        }
    }

    /// Adds a point, whose number is the answer.
    pub fn push(&mut self, line: u32, action: Action) -> Result<usize, AllocError>
        ensures point { IfOk result (λ at. at ≡ length self.old.rows.items) }
        ensures rows { OnOk result
            (self.new.rows.items ≡ self.old.rows.items ++ record { action = action; line = line } ∷ []) }
        ensures labels { self.new.labels ≡ self.old.labels }
    {
        let point = self.rows.len();
        self.rows.push(Row { action, line })?;
        Ok(point)
    }

    /// Puts another action at a point.
    pub fn set(&mut self, point: usize, line: u32, action: Action)
        ensures rows { self.new.rows.items
            ≡ slice_set self.old.rows.items point (record { action = action; line = line }) }
        ensures labels { self.new.labels ≡ self.old.labels }
    {
        if point < self.rows.len() {
            self.rows[point] = Row { action, line };
        }
    }

    /// The number of the label with the name, which may be a new one.
    pub fn label(&mut self, alloc: Global, name: &'a str) -> Result<usize, AllocError>
        ensures number { IfOk result (λ number. label_named self.new.labels.items name.now ≡ Some number) }
        ensures known { (number : ℕ) → label_named self.old.labels.items name.now ≡ Some number →
            self.new.labels ≡ self.old.labels }
        ensures numbers { KeepNumbers self.old.labels.items self.new.labels.items }
        ensures points { (word : Word) →
            point_named self.new.labels.items word ≡ point_named self.old.labels.items word }
        ensures rows { self.new.rows ≡ self.old.rows }
    {
        match place_of(&self.places, name) {
            Some(number) => Ok(number),
            None => self.add_label(alloc, name),
        }
    }

    // Adds a label, whose number is the answer.
    fn add_label(&mut self, alloc: Global, name: &'a str) -> Result<usize, AllocError>
        ensures number { label_named self.old.labels.items name.now ≡ None →
            IfOk result (λ number. label_named self.new.labels.items name.now ≡ Some number) }
        ensures numbers { KeepNumbers self.old.labels.items self.new.labels.items }
        ensures points { (word : Word) →
            point_named self.new.labels.items word ≡ point_named self.old.labels.items word }
        ensures rows { self.new.rows ≡ self.old.rows }
    {
        let number = self.labels.len();
        let own = String::from_str(alloc, name)?;
        self.labels.push(Label {
            name: own,
            point: None,
        })?;
        if let Err(failed) = add_place(&mut self.places, name, number) {
            let _ = self.labels.pop();
            return Err(failed);
        }
        Ok(number)
    }

    /// Places the label with the name at a point.
    pub fn place_label(
        &mut self,
        alloc: Global,
        name: &'a str,
        point: usize,
    ) -> Result<(), AllocError>
        ensures numbers { KeepNumbers self.old.labels.items self.new.labels.items }
        ensures points { (word : Word) → OnOk result (point_named self.new.labels.items word
            ≡ (if same_bytes name.now word then Some point else point_named self.old.labels.items word)) }
        ensures rows { self.new.rows ≡ self.old.rows }
    {
        let number = self.label(alloc, name)?;
        if number < self.labels.len() {
            self.labels[number].point = Some(point);
        }
        Ok(())
    }
}

/// Resolves an expression, where there is one.
pub(crate) fn resolve_option(
    alloc: Global,
    names: &Names<'_, '_, '_>,
    e: &Option<CExpr>,
) -> Result<Option<Resolved>, AllocError>
    ensures { IfOk result (λ r. StandsIf (names_of names.now) (option_map expr_of e.now) r) }
{
    match e {
        Some(e) => Ok(Some(resolve(alloc, names, e)?)),
        None => Ok(None),
    }
}

/// Resolves expressions.
pub(crate) fn resolve_all(
    alloc: Global,
    names: &Names<'_, '_, '_>,
    list: &[CExpr],
) -> Result<Vec<Resolved>, AllocError>
    ensures { IfOk result (λ rs. StandAll (names_of names.now) (map expr_of list.now) rs.items) }
{
    let mut resolved = Vec::new(alloc);
    for e in list {
        resolved.push(resolve(alloc, names, e)?)?;
    }
    Ok(resolved)
}
