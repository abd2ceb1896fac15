//! Laws of programs in which what passes together is one value. Each function only states a law by its contract, and
//! does nothing.

ghost use Rattle.dcc_signatures.specs.Laws.{PackedKeeps, PackedPassesOne, PackedIsShallow, LocalisedPassesOneValue};

/// The program is kept by the one in which what passes together is one value.
pub fn packed_keeps()
    ensures { PackedKeeps }
{}

/// In the packed program each return gives at most one value, and each call takes at most one; a graph takes both
/// halves of a register as one param.
pub fn packed_passes_one()
    ensures { PackedPassesOne }
{}

/// The deepest expression of the packed graph is at most as deep as the graph's, or 3 deep.
pub fn packed_is_shallow()
    ensures { PackedIsShallow }
{}

/// In the localised program just what its summaries say passes, and no procedure gives several values back, where the
/// summaries say so.
pub fn localised_passes_one_value()
    ensures { LocalisedPassesOneValue }
{}
