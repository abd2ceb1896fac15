//! Files of signatures, and files in which a line offends.

use dcc_sigs::{SigFault, SigKind, read_sigs};
use std::alloc::{AllocError, Global};
use std::test::Fail;

// A line with a name and so many parts.
fn line_of(alloc: Global, name: &str, parts: usize) -> Result<Vec<u8>, AllocError> {
    let mut text = name.as_bytes().to_vec(alloc)?;
    for _ in 0..parts {
        text.extend_from_slice(b" 55")?;
    }
    text.extend_from_slice(b"\n")?;
    Ok(text)
}

#[test]
fn lines_are_signatures(rt: HostRuntime) -> Result<(), Fail> {
    let sigs = read_sigs(rt.alloc(), b"lib_fact 55 ?? 0A\nlib_ ??\n");
    assert!(&rt; sigs.is_ok());
    if let Ok(sigs) = sigs {
        assert_eq!(&rt; sigs.len(), 2);
        assert_eq!(&rt; sigs[0].name.as_str(), "lib_fact");
        let first: [Option<u8>; 3] = [Some(0x55), None, Some(0x0A)];
        assert_eq!(&rt; sigs[0].bytes.as_slice(), first.as_slice());
        assert_eq!(&rt; sigs[1].name.as_str(), "lib_");
        let second: [Option<u8>; 1] = [None];
        assert_eq!(&rt; sigs[1].bytes.as_slice(), second.as_slice());
    }
    Ok(())
}

#[test]
fn files_that_are_read(rt: HostRuntime) -> Result<(), Fail> {
    let alloc = rt.alloc();
    let rows: [(&[u8], usize); 3] = [(b"", 0), (b"lib_a 55\n", 1), (b"lib_a 55\nlib_b 55\n", 2)];
    for (text, count) in rows {
        let sigs = read_sigs(alloc, text);
        assert!(&rt; sigs.is_ok());
        if let Ok(sigs) = sigs {
            assert_eq!(&rt; sigs.len(), count);
        }
    }
    let longest = line_of(alloc, "lib_aaaaaaaaaaaaaaaaaaaaaaaaaaa", 64)?;
    assert!(&rt; read_sigs(alloc, &longest).is_ok());
    Ok(())
}

#[test]
fn the_first_line_that_offends_is_told(rt: HostRuntime) -> Result<(), Fail> {
    let alloc = rt.alloc();
    let rows: [(&[u8], u32, SigKind); 20] = [
        (b"lib_a 55", 1, SigKind::Form),
        (b"lib 55\n", 1, SigKind::Form),
        (b"Lib_a 55\n", 1, SigKind::Form),
        (b"lib_a 5\n", 1, SigKind::Form),
        (b"lib_a 5G\n", 1, SigKind::Form),
        (b"lib_a 5a\n", 1, SigKind::Form),
        (b"lib_a ?5\n", 1, SigKind::Form),
        (b"lib_a  55\n", 1, SigKind::Form),
        (b"lib_a\n", 1, SigKind::Form),
        (b"lib_a 55 \n", 1, SigKind::Form),
        (b"\n", 1, SigKind::Form),
        (b"lib_a 55\n\n", 2, SigKind::Form),
        (b"lib_a 55\nlib_a 56\n", 2, SigKind::Twice),
        (b"lib_a 55\nlib_b 55\nlib_a 55\nx\n", 3, SigKind::Twice),
        (b"x\nlib_a 55\nlib_a 55\n", 1, SigKind::Form),
        (b"lib_a 55\r\n", 1, SigKind::Form),
        (b"lib_a.b 55\n", 1, SigKind::Form),
        (b"lib_\xC3\xA9 55\n", 1, SigKind::Form),
        (b"lib_a 55\nlib_a 55", 2, SigKind::Form),
        (b"lib_aaaaaaaaaaaaaaaaaaaaaaaaaaaa 55\n", 1, SigKind::Form),
    ];
    for (text, line, kind) in rows {
        let answer = read_sigs(alloc, text);
        assert!(&rt; answer.is_err());
        if let Err(fault) = answer {
            assert_eq!(&rt; fault, SigFault::At { line, kind });
        }
    }
    Ok(())
}

#[test]
fn files_and_lines_that_are_too_long(rt: HostRuntime) -> Result<(), Fail> {
    let alloc = rt.alloc();
    let rows = [
        (line_of(alloc, "lib_a", 65)?, 1),
        (vec![in alloc; b'a'; 262_144]?, 1),
        (vec![in alloc; b'a'; 262_145]?, 0),
    ];
    for (text, line) in &rows {
        let answer = read_sigs(alloc, text);
        assert!(&rt; answer.is_err());
        if let Err(fault) = answer {
            assert_eq!(&rt;
                fault,
                SigFault::At {
                    line: *line,
                    kind: SigKind::Form
                }
            );
        }
    }
    Ok(())
}
