//! Heights in the order of the nodes.

ghost use Rattle.std.specs.Prelude.{◌≡◌, IfOk};
ghost use Rattle.dcc_heights.specs.Search.{ordered_by};

use dcc_prog::Node;
use indexmap::IndexMap;
use std::alloc::{AllocError, Global};

/// The heights of a procedure's nodes, brought into the order of the nodes.
pub fn ordered(
    alloc: Global,
    nodes: &IndexMap<u16, Node>,
    heights: &IndexMap<u16, u16>,
) -> Result<IndexMap<u16, u16>, AllocError>
    ensures { IfOk result (λ ordered. ordered.entries ≡ ordered_by heights.now.entries nodes.now.entries) }
{
    let mut ordered = IndexMap::new(alloc);
    for (at, _node) in nodes.iter() {
        if let Some(height) = heights.get(at) {
            ordered.insert(*at, *height)?;
        }
    }
    Ok(ordered)
}
