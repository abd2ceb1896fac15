//! Keys from memory, echoed to memory.

use dcc_console::{Fault, take_key};
use dcc_io::{MemSink, MemSource};
use std::test::Fail;

#[test]
fn keys_are_bytes_and_then_1a(rt: HostRuntime) -> Result<(), Fail> {
    let alloc = rt.alloc();
    let mut input = MemSource::new(b"ab".to_vec(alloc)?, Vec::new(alloc), 1);
    let mut out = MemSink::new(alloc, Vec::new(alloc), 1);
    assert_eq!(rt; take_key(true, &mut input, &mut out), Ok(b'a'));
    assert_eq!(rt; take_key(false, &mut input, &mut out), Ok(b'b'));
    assert_eq!(rt; take_key(true, &mut input, &mut out), Ok(0x1A));
    assert_eq!(rt; take_key(true, &mut input, &mut out), Ok(0x1A));
    assert_eq!(rt; out.taken().as_slice(), b"a".as_slice());
    Ok(())
}

#[test]
fn a_failed_read_leaves_the_input_and_a_failed_echo_does_not(rt: HostRuntime) -> Result<(), Fail> {
    let alloc = rt.alloc();
    let mut input = MemSource::new(b"ab".to_vec(alloc)?, vec![in alloc; 1]?, 1);
    let mut out = MemSink::new(alloc, vec![in alloc; 1]?, 1);
    assert_eq!(rt; take_key(true, &mut input, &mut out), Err(Fault::Input));
    assert_eq!(rt; take_key(true, &mut input, &mut out), Err(Fault::Output));
    assert_eq!(rt; take_key(true, &mut input, &mut out), Ok(b'b'));
    assert_eq!(rt; out.taken().as_slice(), b"b".as_slice());
    Ok(())
}
