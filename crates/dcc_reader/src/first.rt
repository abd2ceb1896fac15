//! The first offence among those that are told.

ghost use Rattle.std.specs.Prelude.{◌≡◌, None, Some, option_map};
ghost use Rattle.dcc_c.specs.Kinds.{rank, is_before, offence, earlier, only_if};
ghost use Rattle.dcc_reader.specs.OffenceViews.{kind_of, offence_of};
ghost use Rattle.dcc_reader.specs.Told.{told, Tells};

use crate::offence::{Offence, ParseKind};

/// The first of the offences that have been told.
#[derive(Clone, Copy)]
pub struct First {
    /// The first offence, if any has been told.
    pub offence: Option<Offence>,
}

// The place of a kind in their order: of two offences at one place that with the lower number is named.
fn rank(kind: ParseKind) -> u8
    ensures { result ≡ rank (kind_of kind) }
{
    match kind {
        ParseKind::Length => 0,
        ParseKind::Version => 1,
        ParseKind::Token => 2,
        ParseKind::Grammar => 3,
        ParseKind::Name => 4,
        ParseKind::Type_ => 5,
        ParseKind::Place => 6,
        ParseKind::Depth => 7,
    }
}

// Whether the first offence stands before the second, or at the same place and is of an earlier kind.
fn is_before(a: Offence, b: Offence) -> bool
    ensures { result ≡ is_before (offence_of a) (offence_of b) }
{
    a.at < b.at || (a.at == b.at && rank(a.kind) < rank(b.kind))
}

// The earlier of the first offence so far and another one.
fn earlier(first: Option<Offence>, other: Offence) -> Offence
    ensures { Some (offence_of result) ≡ earlier (option_map offence_of first) (offence_of other) }
{
    match first {
        Some(first) if !is_before(other, first) => first,
        _ => other,
    }
}

impl First {
    /// A record of offences before any is told.
    pub fn new() -> First
        ensures { told result ≡ None }
    {
        First { offence: None }
    }

    /// Tells an offence.
    pub fn tell(&mut self, kind: ParseKind, at: u32)
        ensures { told self.new ≡ earlier (told self.old) (offence (kind_of kind) at) }
    {
        self.offence = Some(earlier(self.offence, Offence { at, kind }));
    }

    /// Tells an offence where the test holds.
    pub fn tell_if(&mut self, test: bool, kind: ParseKind, at: u32)
        ensures { Tells self.old self.new (only_if test (offence (kind_of kind) at)) }
    {
        if test {
            self.tell(kind, at);
        }
    }
}
