//! What stands for want of memory.

use dcc_prog::*;
use std::alloc::AllocError;

#[test]
fn want_of_memory_is_the_refusal_for_memory(rt: HostRuntime) {
    assert_eq!(rt; Refusal::from(AllocError), Refusal::Memory);
}
