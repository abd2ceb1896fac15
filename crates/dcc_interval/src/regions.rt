//! Regions of a graph, each named by its node that it is entered at.

ghost use Rattle.std.specs.Prelude.{◌≡◌, ◌<◌, ◌==◌, ◌||◌, ℕ, true, length, All, IfOk, IfSome, IfNone, OnOk};
ghost use Rattle.std.specs.List.{list_any, list_all};
ghost use Rattle.dcc_interval.specs.Collapsing.{all_placed};
ghost use Rattle.dcc_interval.specs.Reducing.{regions_of, region_at, renumbered, AreAlone, AreRegions};
ghost use Rattle.dcc_interval.specs.Reducing.{joined_at};

use std::alloc::{AllocError, Global};
use std::mem;

/// Which region each node is in. The nodes of a region have one number. Where two regions are joined, the nodes of the
/// smaller one get the number of the other.
#[derive(Drop)]
pub struct Regions {
    /// The number of the region of each node.
    pub numbers: Vec<usize>,
    /// The node that the region of each number is named by.
    pub heads: Vec<usize>,
    /// The nodes of the region of each number.
    pub members: Vec<Vec<usize>>,
}

// Gives these nodes a number.
fn number_all(numbers: &mut Vec<usize>, nodes: &[usize], number: usize)
    requires { All (λ node. node < length numbers.old.items) nodes.now }
    ensures { numbers.new.items ≡ all_placed numbers.old.items nodes.now number }
{
    for node in nodes {
        numbers[*node] = number;
    }
}

impl Regions {
    /// Each of so many nodes is a region.
    pub fn new(alloc: Global, count: usize) -> Result<Regions, AllocError>
        ensures { IfOk result (λ r. AreAlone count (regions_of r)) }
    {
        let mut regions = Regions {
            numbers: Vec::new(alloc),
            heads: Vec::new(alloc),
            members: Vec::new(alloc),
        };
        for node in 0..count {
            regions.numbers.push(node)?;
            regions.heads.push(node)?;
            regions.members.push(vec![in alloc; node]?)?;
        }
        Ok(regions)
    }

    /// The region that the node is in.
    pub fn of(&self, node: usize) -> usize
        requires whole { AreRegions (length self.now.numbers.items) (regions_of self.now) }
        requires node { node < length self.now.numbers.items }
        ensures { result ≡ region_at (regions_of self.now) node }
    {
        self.heads[self.numbers[node]]
    }

    /// Whether one of these nodes is in the region.
    pub fn has_one(&self, nodes: &[u32], region: usize) -> bool
        requires whole { AreRegions (length self.now.numbers.items) (regions_of self.now) }
        requires nodes { All (λ n. n < length self.now.numbers.items) nodes.now }
        ensures { result ≡ list_any (λ n. region_at (regions_of self.now) n == region) nodes.now }
    {
        for node in nodes {
            if self.of(*node as usize) == region {
                return true;
            }
        }
        false
    }

    /// Whether each of these nodes is in one of two regions.
    pub fn have_all(&self, nodes: &[u32], one: usize, other: usize) -> bool
        requires whole { AreRegions (length self.now.numbers.items) (regions_of self.now) }
        requires nodes { All (λ n. n < length self.now.numbers.items) nodes.now }
        ensures { result ≡ list_all (λ n. region_at (regions_of self.now) n == one
            || region_at (regions_of self.now) n == other) nodes.now }
    {
        for node in nodes {
            let region = self.of(*node as usize);
            if region != one && region != other {
                return false;
            }
        }
        true
    }

    /// The region of the first of these nodes that is not in this one.
    pub fn first_other(&self, nodes: &[u32], region: usize) -> Option<usize>
        requires whole { AreRegions (length self.now.numbers.items) (regions_of self.now) }
        requires nodes { All (λ n. n < length self.now.numbers.items) nodes.now }
        ensures apart { IfSome result (λ other. ¬ (other ≡ region)) }
        ensures some { IfSome result (λ other.
            list_any (λ n. region_at (regions_of self.now) n == other) nodes.now ≡ true) }
        ensures none { IfNone result
            (list_all (λ n. region_at (regions_of self.now) n == region) nodes.now ≡ true) }
    {
        for node in nodes {
            let other = self.of(*node as usize);
            if other != region {
                return Some(other);
            }
        }
        None
    }

    // The nodes with the one number get the other.
    fn renumber(&mut self, alloc: Global, from: usize, to: usize) -> Result<(), AllocError>
        requires whole { AreRegions (length self.old.numbers.items) (regions_of self.old) }
        requires from { from < length self.old.numbers.items }
        requires to { to < length self.old.numbers.items }
        ensures { OnOk result (regions_of self.new ≡ renumbered (regions_of self.old) from to) }
    {
        let moved = mem::replace(&mut self.members[from], Vec::new(alloc));
        number_all(&mut self.numbers, moved.as_slice(), to);
        self.members[to].extend_from_slice(moved.as_slice())?;
        Ok(())
    }

    /// The one region is joined into the other.
    pub fn join(&mut self, alloc: Global, region: usize, into: usize) -> Result<(), AllocError>
        requires whole { AreRegions (length self.old.numbers.items) (regions_of self.old) }
        requires region { region < length self.old.numbers.items }
        requires into { into < length self.old.numbers.items }
        requires is { region_at (regions_of self.old) region ≡ region }
        requires other { region_at (regions_of self.old) into ≡ into }
        requires apart { ¬ (region ≡ into) }
        ensures whole { OnOk result (AreRegions (length self.old.numbers.items) (regions_of self.new)) }
        ensures joined { OnOk result ((n : ℕ) → n < length self.old.numbers.items
            → region_at (regions_of self.new) n ≡ joined_at (region_at (regions_of self.old)) region into n) }
    {
        let one = self.numbers[region];
        let other = self.numbers[into];
        if self.members[one].len() < self.members[other].len() {
            self.renumber(alloc, one, other)
        } else {
            self.renumber(alloc, other, one)?;
            self.heads[one] = into;
            Ok(())
        }
    }
}
