//! How a text names what a graph has.

ghost use Rattle.std.specs.Prelude.{◌≡◌, IfOk, string_bytes};
ghost use Rattle.std.specs.Option.{option_map};
ghost use Rattle.dcc_ir.specs.Location.{location_width};
ghost use Rattle.dcc_text.specs.Spelling.{Spelling};
ghost use Rattle.dcc_text.specs.Views.{placed_of};

use dcc_c::CType;
use dcc_ir::Loc;
use std::alloc::{AllocError, Global};

/// An address in the frame, by the name of what stands at or below it.
#[derive(Drop)]
pub struct NamedAddress {
    /// The name of a variable with a place, or of an array.
    pub name: String,
    /// Whether the name is that of an array.
    pub is_array: bool,
    /// How many bytes the address lies above the place.
    pub above: u16,
}

/// What tells the spelling of a graph. Want of memory is the only error.
pub trait Spells {
    /// The spelling that is told.
    ghost spelling: { Self → Spelling };

    /// How many bits a location has; 0 for a temporary that there is not.
    fn width(&self, location: Loc) -> u8
        ensures { result ≡ location_width (spelling self.now).bits location };

    /// The name of a location's variable.
    fn name(&self, alloc: Global, location: Loc) -> Result<String, AllocError>
        ensures { IfOk result (λ name. string_bytes name ≡ (spelling self.now).name location) };

    /// The type of a location's variable.
    fn type_of(&self, location: Loc) -> CType
        ensures { result ≡ (spelling self.now).type location };

    /// Whether a location's variable holds the location's value itself.
    fn is_settled(&self, location: Loc) -> bool
        ensures { result ≡ (spelling self.now).settled location };

    /// What stands for the address at a distance from the base of the frame, in bytes.
    fn place(&self, alloc: Global, distance: u16) -> Result<Option<NamedAddress>, AllocError>
        ensures { IfOk result (λ place. option_map placed_of place ≡ (spelling self.now).place distance) };

    /// The name of the function that stands for the graph with that entry.
    fn function(&self, alloc: Global, entry: u16) -> Result<String, AllocError>
        ensures { IfOk result (λ name. string_bytes name ≡ (spelling self.now).function entry) };
}
