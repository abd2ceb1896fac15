//! Laws of what the contract speaks of, for every image and layout. The functions do nothing:
//! their contracts are proved for all.

ghost use Rattle.dcc_lift.specs.Laws.{FlowIsOfTrails, KeptPlacesArePaced};

/// The flow graph of each procedure that is found is that of its trails: it has their nodes and
/// their edges, and no others.
pub fn flow_is_of_trails()
    ensures { FlowIsOfTrails }
{}

/// At any places of which each closed path of a procedure's instructions holds one, and among which
/// are all calls and all blocks that end in a return, the machine keeps pace: it comes to one, to its
/// end or to where it is foul within 73,727 steps, and again within 8,192 steps after each.
pub fn kept_places_are_paced()
    ensures { KeptPlacesArePaced }
{}
