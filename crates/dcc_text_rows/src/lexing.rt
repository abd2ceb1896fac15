//! Texts and their pieces.

use dcc_lex::{Token, after_version, line_feeds, pieces};
use std::alloc::Global;
use std::test::Fail;

// The bytes after a version line, and their pieces, each with its line.
const TEXTS: [(&[u8], &str); 8] = [
    (
        b"\n#pragma dcc stack 512 0\nint x[3] = 2U;\n",
        "2:#Stack 2:512Plain 2:0Plain 3:Int 3:x 3:OpenBracket 3:3Plain 3:CloseBracket 3:Equals 3:2Unsigned 3:Semicolon ",
    ),
    (
        b"\tx<<=0x1FUL||y_2 != 7L\n#pragma dcc depth",
        "1:x 1:ShiftLeft 1:Equals 1:hex31UnsignedLong 1:OrOr 1:y_2 1:NotEquals 1:7Long 2:#Depth ",
    ),
    (
        b"4294967295 4294967296 0 00 01 10000000000 1u 1LU 1UL 12a",
        "1:4294967295Plain 1:none 1:0Plain 1:none 1:none 1:none 1:none 1:none 1:1UnsignedLong 1:none ",
    ),
    (
        b"0x1 0xFFFFFFFF 0x123456789 0x 0xg 0X1 0xabcL 0x00000001U",
        "1:hex1Plain 1:hex4294967295Plain 1:none 1:none 1:none 1:none 1:hex2748Long 1:hex1Unsigned ",
    ),
    (
        b"abcdefghijklmnopqrstuvwxyz_ABCD abcdefghijklmnopqrstuvwxyz_ABCDE static struct\nvolatile unsigned",
        "1:abcdefghijklmnopqrstuvwxyz_ABCD 1:none 1:none 1:none 2:none 2:Unsigned ",
    ),
    (
        b"\x00\xff$ \"\r\n#pragma dcc\n#pragma dcc attic",
        "1:none 1:none 1:none 1:none 1:none 2:none 2:pragma 2:dcc 3:none 3:pragma 3:dcc 3:attic ",
    ),
    (
        b"#pragma dcc at 1\n#pragma dcc at 1  2 x;\n #pragma dcc at\n#pragma dcc at 0x1\n",
        "1:#Version 1:1Plain 2:#Place 2:1Plain 2:#Version 2:x 2:Semicolon 3:#Version 4:#Place 4:#Version ",
    ),
    (
        b"\n#pragma dcc depth 9 \t\n#pragma dcc text 1\n#pragma dcc stack\t1",
        "2:#Depth 2:9Plain 2:#Version 3:#Version 3:1Plain 4:#Stack 4:#Version ",
    ),
];

// The pieces of the bytes after the version line, each with its line.
fn described(alloc: Global, text: &[u8]) -> Result<String, Fail> {
    let mut said = String::new(alloc);
    if text.len() > 10000 {
        return Ok(said);
    }
    let mut left = pieces(text);
    for _ in 0..text.len() {
        let Some(piece) = left.first() else {
            return Ok(said);
        };
        let line = piece.line;
        match &piece.token {
            None => write!(said, "{line}:none ")?,
            Some(Token::Keyword(keyword)) => write!(said, "{line}:{keyword:?} ")?,
            Some(Token::Name(name)) => write!(said, "{line}:{} ", name.word)?,
            Some(Token::Decimal(n, suffix)) => write!(said, "{line}:{n}{suffix:?} ")?,
            Some(Token::Hex(n, suffix)) => write!(said, "{line}:hex{n}{suffix:?} ")?,
            Some(Token::Mark(mark)) => write!(said, "{line}:{mark:?} ")?,
            Some(Token::Pragma(head)) => write!(said, "{line}:#{head:?} ")?,
        }
        left.skip();
    }
    Ok(said)
}

#[test]
fn texts_have_their_pieces(rt: HostRuntime) -> Result<(), Fail> {
    for (text, wanted) in TEXTS {
        assert_eq!(rt; described(rt.alloc(), text)?.as_str(), wanted);
    }
    Ok(())
}

#[test]
fn the_version_line_is_the_first(rt: HostRuntime) -> Result<(), Fail> {
    assert_eq!(rt;
        after_version(b"#pragma dcc text 1\nint"),
        Some(b"\nint".as_slice())
    );
    assert_eq!(rt; after_version(b"#pragma dcc text 1 \n"), None);
    assert_eq!(rt; after_version(b"#pragma dcc text 2\n"), None);
    assert_eq!(rt; line_feeds(b"\na\n\n"), 3);
    Ok(())
}
