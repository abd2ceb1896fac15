//! Laws of the reverse post order. The functions do nothing: their contracts are proved for all graphs.

ghost use Rattle.dcc_flow.specs.Order.{ReversePostOrdersAreOrders, ReversePostOrderIsOne};

/// A reverse post order begins with block 0 and has just the blocks that are reached, each once; an edge that does not
/// lead on in it retreats to a block above its own.
pub fn reverse_post_orders_are_orders()
    ensures { ReversePostOrdersAreOrders }
{}

/// A graph has but one reverse post order.
pub fn reverse_post_order_is_one()
    ensures { ReversePostOrderIsOne }
{}
