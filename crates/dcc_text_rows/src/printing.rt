//! A unit that is written where a write fails. What units are written as, the tests of parsing show: there they are
//! read from their texts.

use dcc_io::MemSink;
use dcc_parse::parse;
use dcc_print::unit::{PrintFault, print};
use std::test::Fail;

const TEXT: &str = "#pragma dcc text 1
#pragma dcc stack 0 256
void start(void)
{
}
";

#[test]
fn a_failed_write_leaves_a_part_of_the_text(rt: HostRuntime) -> Result<(), Fail> {
    let alloc = rt.alloc();
    let unit = parse(alloc, &TEXT.as_bytes().to_vec(alloc)?)?;
    // Eight writes of at most 8 bytes.
    for (fail, want, taken) in [
        (1, Err(PrintFault::Failed), 0),
        (2, Err(PrintFault::Failed), 8),
        (8, Err(PrintFault::Failed), 56),
        (9, Ok(()), TEXT.len()),
    ] {
        let mut sink = MemSink::new(alloc, [fail].to_vec(alloc)?, 8);
        assert_eq!(rt; print(alloc, &mut sink, &unit), want);
        assert_eq!(rt; sink.taken().len(), taken);
        assert!(rt; TEXT.as_bytes().starts_with(sink.taken().as_slice()));
    }
    Ok(())
}
