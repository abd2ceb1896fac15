//! Classes of numbers that are linked.

ghost use Rattle.std.specs.Prelude.{◌≡◌, ◌≢◌, ◌==◌, ◌<◌, ◌+◌, [], ◌∷◌, ◌++◌, if◌then◌else◌, length, get_or};
ghost use Rattle.std.specs.Prelude.{slice_set, All, IfOk, OnOk};
ghost use Rattle.dcc_flow.specs.Edges.{rows};
ghost use Rattle.dcc_webs.specs.Classes.{class_in, AreClasses, JoinMore, AreInOrder, AreOne, all_moved, merged};
ghost use Rattle.dcc_webs.specs.Classes.{others_merged, ArePlaces, AreTemps};

use dcc_ir::Loc;
use std::alloc::{AllocError, Global};

/// Classes of numbers. Whenever two classes become one, the numbers of the smaller one go to the other, so that a
/// number changes its class no more often than the classes can double.
#[derive(Drop)]
pub struct Classes {
    /// For each number one of its class, which stands for the class.
    pub class: Vec<usize>,
    /// For each number that stands for a class the others of the class.
    pub others: Vec<Vec<usize>>,
}

// The numbers take that class.
fn move_all(class: &mut Vec<usize>, moved: &[usize], to: usize)
    ensures { class.new.items ≡ all_moved to class.old.items moved.now }
{
    for x in moved {
        if *x < class.len() {
            class[*x] = to;
        }
    }
}

// Takes all numbers out of a list.
fn take_all(list: &mut Vec<usize>) -> Result<Vec<usize>, AllocError>
    ensures taken { IfOk result (λ taken. taken.items ≡ list.old.items) }
    ensures left { OnOk result (list.new.items ≡ []) }
{
    let taken = list.clone()?;
    list.clear();
    Ok(taken)
}

// Puts the numbers, and then one more, at the end of a list.
fn append(list: &mut Vec<usize>, more: &[usize], last: usize) -> Result<(), AllocError>
    ensures { OnOk result (list.new.items ≡ list.old.items ++ (more.now ++ last ∷ [])) }
{
    list.extend_from_slice(more)?;
    list.push(last)?;
    Ok(())
}

impl Classes {
    /// So many numbers, each in a class of its own.
    pub fn new(alloc: Global, count: usize) -> Result<Classes, AllocError>
        ensures count { IfOk result (λ c. length c.class.items ≡ count) }
        ensures classes { IfOk result (λ c. AreClasses [] c.class.items) }
        ensures order { IfOk result (λ c. AreInOrder c.class.items (rows c.others.items)) }
    {
        let mut class = Vec::new(alloc);
        let mut others = Vec::new(alloc);
        for x in 0..count {
            class.push(x)?;
            others.push(Vec::new(alloc))?;
        }
        Ok(Classes { class, others })
    }

    // The numbers of the one class go to the other.
    fn merge(&mut self, from: usize, to: usize) -> Result<(), AllocError>
        requires from { from < length self.old.class.items }
        requires to { to < length self.old.class.items }
        requires count { length self.old.others.items ≡ length self.old.class.items }
        ensures class { OnOk result (self.new.class.items
            ≡ merged from to (get_or (rows self.old.others.items) from []) self.old.class.items) }
        ensures others { OnOk result (rows self.new.others.items ≡ others_merged from to (rows self.old.others.items)) }
    {
        let moved = take_all(&mut self.others[from])?;
        move_all(&mut self.class, moved.as_slice(), to);
        self.class[from] = to;
        append(&mut self.others[to], moved.as_slice(), from)
    }

    // The numbers of one of two classes go to the other.
    fn merge_smaller(&mut self, first: usize, second: usize) -> Result<(), AllocError>
        requires order { AreInOrder self.old.class.items (rows self.old.others.items) }
        requires first { first < length self.old.class.items }
        requires second { second < length self.old.class.items }
        requires first_own { class_in self.old.class.items first ≡ first }
        requires second_own { class_in self.old.class.items second ≡ second }
        requires two { first ≢ second }
        ensures order { OnOk result (AreInOrder self.new.class.items (rows self.new.others.items)) }
        ensures one { OnOk result (AreOne first second self.old.class.items self.new.class.items) }
    {
        if self.others[first].len() < self.others[second].len() {
            self.merge(first, second)?;
            return Ok(());
        }
        self.merge(second, first)?;
        Ok(())
    }

    /// The classes of two numbers become one.
    pub fn join(&mut self, x: usize, y: usize) -> Result<(), AllocError>
        requires { AreInOrder self.old.class.items (rows self.old.others.items) }
        ensures order { OnOk result (AreInOrder self.new.class.items (rows self.new.others.items)) }
        ensures joins { OnOk result (JoinMore self.old.class.items ((x, y) ∷ []) self.new.class.items) }
    {
        if x >= self.class.len() {
            return Ok(());
        }
        if y >= self.class.len() {
            return Ok(());
        }
        let first = self.class[x];
        let second = self.class[y];
        if first == second {
            return Ok(());
        }
        self.merge_smaller(first, second)?;
        Ok(())
    }

    /// The classes of two numbers become one, each number being so far behind another.
    pub fn join_at(
        &mut self,
        begin: usize,
        i: usize,
        end: usize,
        n: usize,
    ) -> Result<(), AllocError>
        requires { AreInOrder self.old.class.items (rows self.old.others.items) }
        ensures order { OnOk result (AreInOrder self.new.class.items (rows self.new.others.items)) }
        ensures joins { OnOk result (JoinMore self.old.class.items ((begin + i, end + n) ∷ []) self.new.class.items) }
    {
        let count = self.class.len();
        if begin >= count {
            return Ok(());
        }
        if i >= count - begin {
            return Ok(());
        }
        if end >= count {
            return Ok(());
        }
        if n >= count - end {
            return Ok(());
        }
        self.join(begin + i, end + n)
    }
}

/// The temporary of each number, and the bits of each temporary.
#[derive(Drop)]
pub struct Temps {
    pub of: Vec<u32>,
    pub bits: Vec<u8>,
}

// Notes the width of a number and the place of its class, where it stands for the class.
fn note(temps: &mut Temps, x: usize, root: usize, width: u8) -> Result<(), AllocError>
    requires { x < length temps.old.of.items }
    ensures of { OnOk result (temps.new.of.items
        ≡ (if root == x then slice_set temps.old.of.items x (length temps.old.bits.items) else temps.old.of.items)) }
    ensures bits { OnOk result (temps.new.bits.items
        ≡ (if root == x then temps.old.bits.items ++ width ∷ [] else temps.old.bits.items)) }
{
    if root == x {
        temps.of[x] = u32::try_from(temps.bits.len()).map_err(|_| AllocError)?;
        temps.bits.push(width)?;
    }
    Ok(())
}

// For each number that stands for a class the place of the class, and the widths of the classes.
fn places(alloc: Global, class: &[usize], origins: &[Loc], bits: &[u8]) -> Result<Temps, AllocError>
    requires { length origins.now ≡ length class.now }
    ensures { IfOk result (ArePlaces bits.now origins.now class.now) }
{
    let mut temps = Temps {
        of: vec![in alloc; 0; class.len()]?,
        bits: Vec::new(alloc),
    };
    for x in 0..class.len() {
        note(&mut temps, x, class[x], origins[x].width(bits))?;
    }
    Ok(temps)
}

/// A temporary for each class, of the width of its location.
pub fn number_classes(
    alloc: Global,
    class: &[usize],
    origins: &[Loc],
    bits: &[u8],
) -> Result<Temps, AllocError>
    requires count { length origins.now ≡ length class.now }
    requires below { All (λ c. c < length class.now) class.now }
    requires own { All (λ c. class_in class.now c ≡ c) class.now }
    ensures { IfOk result (AreTemps bits.now origins.now class.now) }
{
    let places = places(alloc, class, origins, bits)?;
    let mut of = Vec::new(alloc);
    for x in class {
        of.push(places.of[*x])?;
    }
    Ok(Temps {
        of,
        bits: places.bits,
    })
}
