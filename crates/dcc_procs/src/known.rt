//! What the trails to an offset tell in common.

ghost use Rattle.std.specs.Prelude.{◌≡◌, ◌<◌, ◌≤◌, nat_eq, IfSome, None};
ghost use Rattle.dcc_machine.specs.WellFormed.{IsOperation};
ghost use Rattle.dcc_procs.specs.Known.{nothing, known_after, common_of, is_same_form, is_same_index, common};
ghost use Rattle.dcc_procs.specs.Search.{told_count};

use crate::form::{constant_to_ah, writes_ah};
use crate::table::{Form, Index, form_after, index_after};
use dcc_machine::Instr;

/// What a trail to an offset tells; or what all trails to the offset that were followed so far tell in common: of each
/// field the value that they share, and none where one tells none or two tell different ones.
#[derive(Clone, Copy)]
pub struct Known {
    /// The constant that was last moved to AH.
    pub ah: Option<u8>,
    /// How far the last instructions are those before a jump through a table.
    pub form: Option<Form>,
    /// The register that the last instructions leave as the index of a table, and its greatest number.
    pub index: Option<Index>,
    /// The offset of the instruction that went on to the offset.
    pub from: Option<u16>,
}

/// What the trail tells that has the entry alone.
pub const NOTHING: Known = Known {
    ah: None,
    form: None,
    index: None,
    from: None,
};

// The number that both options have.
fn common_byte(a: Option<u8>, b: Option<u8>) -> Option<u8>
    ensures { result ≡ common_of nat_eq a b }
{
    match (a, b) {
        (Some(number), Some(other)) if number == other => a,
        _ => None,
    }
}

// The word that both options have.
fn common_word(a: Option<u16>, b: Option<u16>) -> Option<u16>
    ensures { result ≡ common_of nat_eq a b }
{
    match (a, b) {
        (Some(number), Some(other)) if number == other => a,
        _ => None,
    }
}

// The form that both options have.
fn common_form(a: Option<Form>, b: Option<Form>) -> Option<Form>
    ensures { result ≡ common_of is_same_form a b }
{
    match (a, b) {
        (Some(form), Some(other)) if form.is_same(other) => a,
        _ => None,
    }
}

// The index that both options have.
fn common_index(a: Option<Index>, b: Option<Index>) -> Option<Index>
    ensures { result ≡ common_of is_same_index a b }
{
    match (a, b) {
        (Some(index), Some(other)) if index.is_same(other) => a,
        _ => None,
    }
}

impl Known {
    /// What is known at an offset to which the instruction goes on, by what is known before it.
    pub fn after(self, at: u16, instr: Instr, to: u16) -> Known
        requires { IsOperation instr.op }
        ensures { result ≡ known_after at instr to self }
    {
        Known {
            ah: if writes_ah(instr.op) {
                constant_to_ah(instr.op)
            } else {
                self.ah
            },
            form: form_after(instr.op, instr.next_of(at), to, self.form),
            index: index_after(instr.op, self.form),
            from: Some(at),
        }
    }

    /// What both trails tell in common.
    pub fn common(self, other: Known) -> Known
        ensures { result ≡ common self other }
    {
        Known {
            ah: common_byte(self.ah, other.ah),
            form: common_form(self.form, other.form),
            index: common_index(self.index, other.index),
            from: common_word(self.from, other.from),
        }
    }

    // How many fields have a value.
    fn told(self) -> u8
        ensures { result ≡ told_count self }
    {
        u8::from(self.ah.is_some())
            + u8::from(self.form.is_some())
            + u8::from(self.index.is_some())
            + u8::from(self.from.is_some())
    }

    /// What both tell in common, where that is less than what the first one tells.
    pub fn lessened(self, other: Known) -> Option<Known>
        ensures less { IfSome result (λ less. less ≡ common self other) }
        ensures fewer { IfSome result (λ less. told_count less < told_count self) }
        ensures same { result ≡ None → told_count self ≤ told_count (common self other) }
    {
        let common = self.common(other);
        if common.told() < self.told() {
            Some(common)
        } else {
            None
        }
    }
}
