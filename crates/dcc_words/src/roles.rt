//! Which temporaries become halves of which words.

ghost use Rattle.std.specs.Prelude.{◌≡◌, ◌+◌, true, IfOk};
ghost use Rattle.std.specs.List.{list_all};
ghost use Rattle.dcc_ir.specs.declared.syntax.Loc.{Loc as Location};
ghost use Rattle.dcc_words.specs.Words as spec;
ghost use Rattle.dcc_words.specs.Roles.{role_of};

use dcc_ir::Loc;
use std::alloc::{AllocError, Global};

/// Two temporaries of 8 bits, by their numbers.
#[derive(Clone, Copy, PartialEq, Eq, Debug)]
pub struct Pair {
    /// The one that becomes the lower half of a word.
    pub low: u32,
    /// The one that becomes the upper half.
    pub high: u32,
}

impl Pair {
    /// How many bits the word has.
    pub fn word_bits(self) -> u8
        ensures { result ≡ 16 }
    {
        16
    }
}

/// What a location becomes.
#[derive(Clone, Copy, PartialEq, Eq, Debug)]
pub enum Role {
    /// It stays.
    Alone,
    /// The lower half of the word in the temporary of that number.
    Low(u32),
    /// The upper half of the word in the temporary of that number.
    High(u32),
}

impl Role {
    /// Whether the location stays.
    pub fn is_alone(self) -> bool
        ensures { result ≡ spec.is_alone self }
    {
        match self {
            Role::Alone => true,
            Role::Low(_) | Role::High(_) => false,
        }
    }
}

/// What each location becomes.
#[derive(Drop)]
pub struct Roles {
    /// By the number of a temporary; all other locations stay.
    pub of: Vec<Role>,
}

impl Roles {
    /// What a location becomes.
    pub fn role(&self, location: Loc) -> Role
        ensures { result ≡ role_of self.now location }
    {
        match location {
            Loc::Temp(n) => self.of.get(n as usize).copied().unwrap_or(Role::Alone),
            Loc::Half(_, _) | Loc::Flag(_) | Loc::Cell(_, _) => Role::Alone,
        }
    }

    /// What locations become where the temporaries have these bits and the pairs become words, each a further temporary.
    pub fn new(alloc: Global, bits: &[u8], pairs: &[Pair]) -> Result<Roles, AllocError>
        requires { list_all (spec.are_halves bits.now) pairs.now ≡ true }
        ensures { IfOk result (λ roles. (location : Location) → role_of roles location ≡ spec.role_in pairs.now bits.now location) }
    {
        let mut of = vec![in alloc; Role::Alone; bits.len()]?;
        let mut k = pairs.len();
        while k > 0 {
            k -= 1;
            let pair = pairs[k];
            let word = numbered(bits.len(), k)?;
            of[pair.high as usize] = Role::High(word);
            of[pair.low as usize] = Role::Low(word);
        }
        Ok(Roles { of })
    }
}

// The number of the word at a place, after so many temporaries; that 32 bits can't number it is told as want of memory.
fn numbered(count: usize, place: usize) -> Result<u32, AllocError>
    ensures { IfOk result (λ word. word ≡ count + place) }
{
    let number = count.checked_add(place).ok_or(AllocError)?;
    u32::try_from(number).map_err(|_| AllocError)
}

// Whether both have 8 bits.
fn are_halves(bits: &[u8], pair: Pair) -> bool
    ensures { result ≡ spec.are_halves bits.now pair }
{
    Loc::Temp(pair.low).width(bits) == 8 && Loc::Temp(pair.high).width(bits) == 8
}

/// Whether all are pairs of temporaries of 8 bits.
pub fn are_all_halves(bits: &[u8], pairs: &[Pair]) -> bool
    ensures { result ≡ list_all (spec.are_halves bits.now) pairs.now }
{
    for pair in pairs {
        if !are_halves(bits, *pair) {
            return false;
        }
    }
    true
}
