//! Whole texts: what is refused before anything is read, bytes that are no text, and texts that go on and on.

use dcc_parse::{ParseFault, ParseKind, parse};
use std::alloc::{AllocError, Global};
use std::process::Abort;
use std::test::Fail;

// The lines before the statements of a text.
const START: &[u8] = b"#pragma dcc text 1\n#pragma dcc stack 0 256\nvoid start(void)\n{\n";

// The answer to the first lines of a text and bytes that are repeated after them.
fn fault(alloc: Global, bytes: &[u8], count: usize) -> Result<Option<ParseFault>, AllocError> {
    let mut text = START.to_vec(alloc)?;
    for _ in 0..count {
        text.extend_from_slice(bytes)?;
    }
    Ok(parse(alloc, &text).err())
}

#[test]
fn a_text_may_be_67108864_bytes_long(rt: HostRuntime) -> Result<(), Fail> {
    let alloc = rt.alloc();
    let mut text = Vec::new(alloc);
    text.resize(67_108_865, 0)?;
    let long = ParseFault::At {
        line: 0,
        kind: ParseKind::Length,
    };
    assert_eq!(rt; parse(alloc, &text).err(), Some(long));
    text.truncate(67_108_864);
    let other = ParseFault::At {
        line: 1,
        kind: ParseKind::Version,
    };
    assert_eq!(rt; parse(alloc, &text).err(), Some(other));
    Ok(())
}

#[test]
fn texts_that_go_on_and_on_are_refused(rt: HostRuntime) -> Result<(), Fail> {
    let alloc = rt.alloc();
    for (bytes, line, kind) in [
        (b"x = (".as_slice(), 5, ParseKind::Name),
        (b"(".as_slice(), 5, ParseKind::Grammar),
        (b"\0".as_slice(), 5, ParseKind::Token),
        (b"\xFF".as_slice(), 5, ParseKind::Token),
        (b"a".as_slice(), 5, ParseKind::Token),
        (b"0".as_slice(), 5, ParseKind::Token),
        (b" ".as_slice(), 5, ParseKind::Grammar),
        (b"L: ".as_slice(), 5, ParseKind::Name),
        (b"{".as_slice(), 5, ParseKind::Grammar),
    ] {
        let answer = fault(alloc, bytes, 20_000)?;
        assert_eq!(rt; answer, Some(ParseFault::At { line, kind }));
    }
    Ok(())
}
