//! Runs of executables beside runs of texts: which lines wrote and took what which addresses wrote and took. The
//! reports come from a reference apart from this code.

use dcc_machine::Cpu;
use dcc_map::{Settings, compare, lines};
use dcc_mz::load;
use dcc_parse::parse;
use dcc_samples::files::program;
use std::alloc::Global;
use std::process::Abort;
use std::test::Fail;

// The first lines of each text.
const HEAD: &[u8] = b"#pragma dcc text 1\n#pragma dcc stack 0 256\nvoid start(void)\n{\n";

// A program after the instructions that set DS, a text after its first lines, what both are run with, and the report.
#[derive(Drop)]
struct Row {
    code: &'static [u8],
    text: &'static [u8],
    input: &'static [u8],
    settings: Settings,
    lines: &'static [u8],
    differs: Option<(u32, u16)>,
}

static ROWS: [Row; 24] = [
    // One byte, and the same text.
    Row {
        code: b"\xB2\x41\xB4\x02\xCD\x21\xB8\x03\x4C\xCD\x21",
        text: b"\x20\x20\x20\x20dos_putc(65);\n\
            \x20\x20\x20\x20dos_exit(3);\n\
            }\n",
        input: b"",
        settings: Settings {
            cpu: Cpu::I8086,
            fill: 0,
            most: 1000,
        },
        lines: b"bytes 1\n5 0009 1\nmachine exit 3\nc exit 3\n",
        differs: None,
    },
    // Another byte.
    Row {
        code: b"\xB2\x41\xB4\x02\xCD\x21\xB8\x03\x4C\xCD\x21",
        text: b"\x20\x20\x20\x20dos_putc(66);\n\
            \x20\x20\x20\x20dos_exit(3);\n\
            }\n",
        input: b"",
        settings: Settings {
            cpu: Cpu::I8086,
            fill: 0,
            most: 1000,
        },
        lines: b"bytes 0\nmachine exit 3\nc exit 3\n",
        differs: Some((5, 0x0009)),
    },
    // A procedure that is called twice.
    Row {
        code: b"\xE8\x0A\x00\x50\xE8\x06\x00\x58\xB8\x00\x4C\xCD\x21\x55\x8B\xEC\x83\xEC\x02\x8D\x46\xFE\
            \x8B\xD0\xB4\x02\xCD\x21\x8A\xD6\xB4\x02\xCD\x21\x8B\xE5\x5D\xC3",
        text: b"\x20\x20\x20\x20f_0012();\n\
            #pragma dcc depth 4\n\
            \x20\x20\x20\x20f_0012();\n\
            \x20\x20\x20\x20dos_exit(0);\n\
            }\n\
            void f_0012(void)\n\
            {\n\
            \x20\x20\x20\x20auto unsigned char v1[2];\n\
            \x20\x20\x20\x20dos_putc((unsigned char)(unsigned int)v1);\n\
            \x20\x20\x20\x20dos_putc((unsigned int)v1 >> 8);\n\
            }\n",
        input: b"",
        settings: Settings {
            cpu: Cpu::I8086,
            fill: 0,
            most: 1000,
        },
        lines: b"bytes 4\n13 001F 2\n14 0025 2\nmachine exit 0\nc exit 0\n",
        differs: None,
    },
    // The text goes on where the executable ends.
    Row {
        code: b"\xB2\x41\xB4\x02\xCD\x21\xB8\x03\x4C\xCD\x21",
        text: b"\x20\x20\x20\x20dos_putc(65);\n\
            \x20\x20\x20\x20for (;;) {\n\
            \x20\x20\x20\x20}\n\
            }\n",
        input: b"",
        settings: Settings {
            cpu: Cpu::I8086,
            fill: 0,
            most: 1000,
        },
        lines: b"bytes 1\n5 0009 1\nmachine exit 3\nc running\n",
        differs: None,
    },
    // An instruction that is none, at once.
    Row {
        code: b"\xCD\x20",
        text: b"\x20\x20\x20\x20dos_putc(65);\n\
            \x20\x20\x20\x20dos_exit(3);\n\
            }\n",
        input: b"",
        settings: Settings {
            cpu: Cpu::I8086,
            fill: 0,
            most: 1000,
        },
        lines: b"bytes 0\nmachine outside 0005\nc exit 3\n",
        differs: None,
    },
    // The text reaches its closing brace.
    Row {
        code: b"\xB2\x41\xB4\x02\xCD\x21\xB8\x03\x4C\xCD\x21",
        text: b"\x20\x20\x20\x20dos_putc(65);\n\
            }\n",
        input: b"",
        settings: Settings {
            cpu: Cpu::I8086,
            fill: 0,
            most: 1000,
        },
        lines: b"bytes 1\n5 0009 1\nmachine exit 3\nc stuck 6\n",
        differs: None,
    },
    // Two divisions by 0.
    Row {
        code: b"\xB8\x01\x00\xBB\x00\x00\x99\xF7\xFB",
        text: b"\x20\x20\x20\x20dos_putc(1 / 0);\n\
            \x20\x20\x20\x20dos_exit(3);\n\
            }\n",
        input: b"",
        settings: Settings {
            cpu: Cpu::I8086,
            fill: 0,
            most: 1000,
        },
        lines: b"bytes 0\nmachine divide\nc divide\n",
        differs: None,
    },
    // No steps, too few for a byte, and just enough.
    Row {
        code: b"\xB2\x41\xB4\x02\xCD\x21\xB8\x03\x4C\xCD\x21",
        text: b"\x20\x20\x20\x20dos_putc(65);\n\
            \x20\x20\x20\x20dos_exit(3);\n\
            }\n",
        input: b"",
        settings: Settings {
            cpu: Cpu::I8086,
            fill: 0,
            most: 0,
        },
        lines: b"bytes 0\nmachine running\nc running\n",
        differs: None,
    },
    Row {
        code: b"\xB2\x41\xB4\x02\xCD\x21\xB8\x03\x4C\xCD\x21",
        text: b"\x20\x20\x20\x20dos_putc(65);\n\
            \x20\x20\x20\x20dos_exit(3);\n\
            }\n",
        input: b"",
        settings: Settings {
            cpu: Cpu::I8086,
            fill: 0,
            most: 4,
        },
        lines: b"bytes 0\nmachine running\nc exit 3\n",
        differs: None,
    },
    Row {
        code: b"\xB2\x41\xB4\x02\xCD\x21\xB8\x03\x4C\xCD\x21",
        text: b"\x20\x20\x20\x20dos_putc(65);\n\
            \x20\x20\x20\x20dos_exit(3);\n\
            }\n",
        input: b"",
        settings: Settings {
            cpu: Cpu::I8086,
            fill: 0,
            most: 5,
        },
        lines: b"bytes 1\n5 0009 1\nmachine running\nc exit 3\n",
        differs: None,
    },
    // The text writes more, and less.
    Row {
        code: b"\xB2\x41\xB4\x02\xCD\x21\xB8\x03\x4C\xCD\x21",
        text: b"\x20\x20\x20\x20dos_putc(65); dos_putc(66);\n\
            \x20\x20\x20\x20dos_exit(3);\n\
            }\n",
        input: b"",
        settings: Settings {
            cpu: Cpu::I8086,
            fill: 0,
            most: 1000,
        },
        lines: b"bytes 1\n5 0009 1\nmachine exit 3\nc exit 3\n",
        differs: None,
    },
    Row {
        code: b"\xB2\x41\xB4\x02\xCD\x21\xB8\x03\x4C\xCD\x21",
        text: b"\x20\x20\x20\x20;\n\
            \x20\x20\x20\x20dos_exit(3);\n\
            }\n",
        input: b"",
        settings: Settings {
            cpu: Cpu::I8086,
            fill: 0,
            most: 1000,
        },
        lines: b"bytes 0\nmachine exit 3\nc exit 3\n",
        differs: None,
    },
    // A key with its echo.
    Row {
        code: b"\xB4\x01\xCD\x21\xB4\x4C\xCD\x21",
        text: b"\x20\x20\x20\x20dos_getche();\n\
            \x20\x20\x20\x20dos_exit(3);\n\
            }\n",
        input: b"zz",
        settings: Settings {
            cpu: Cpu::I8086,
            fill: 0,
            most: 1000,
        },
        lines: b"bytes 1\n5 0007 2\nmachine exit 122\nc exit 3\n",
        differs: None,
    },
    // A key that is echoed, and one that is not.
    Row {
        code: b"\xB4\x01\xCD\x21\xB4\x4C\xCD\x21",
        text: b"\x20\x20\x20\x20dos_getch();\n\
            \x20\x20\x20\x20dos_exit(3);\n\
            }\n",
        input: b"zz",
        settings: Settings {
            cpu: Cpu::I8086,
            fill: 0,
            most: 1000,
        },
        lines: b"bytes 0\n5 0007 1\nmachine exit 122\nc exit 3\n",
        differs: None,
    },
    // The end of the input, with an echo and without.
    Row {
        code: b"\xB4\x01\xCD\x21\xB4\x4C\xCD\x21",
        text: b"\x20\x20\x20\x20dos_getch();\n\
            \x20\x20\x20\x20dos_exit(3);\n\
            }\n",
        input: b"",
        settings: Settings {
            cpu: Cpu::I8086,
            fill: 0,
            most: 1000,
        },
        lines: b"bytes 0\n5 0007 1\nmachine exit 26\nc exit 3\n",
        differs: None,
    },
    // Two addresses in one line.
    Row {
        code: b"\xB2\x41\xB4\x02\xCD\x21\xCD\x21\xB8\x00\x4C\xCD\x21",
        text: b"\x20\x20\x20\x20dos_putc(65); dos_putc(65);\n\
            \x20\x20\x20\x20dos_exit(3);\n\
            }\n",
        input: b"",
        settings: Settings {
            cpu: Cpu::I8086,
            fill: 0,
            most: 1000,
        },
        lines: b"bytes 2\n5 0009 1\n5 000B 1\nmachine exit 0\nc exit 3\n",
        differs: None,
    },
    // The text reads before its prompt, on an empty input and on a key.
    Row {
        code: b"\xB2\x41\xB4\x02\xCD\x21\xB4\x08\xCD\x21\xB8\x03\x4C\xCD\x21",
        text: b"\x20\x20\x20\x20dos_getch();\n\
            \x20\x20\x20\x20dos_putc(65);\n\
            \x20\x20\x20\x20dos_exit(3);\n\
            }\n",
        input: b"",
        settings: Settings {
            cpu: Cpu::I8086,
            fill: 0,
            most: 1000,
        },
        lines: b"bytes 0\nmachine exit 3\nc exit 3\n",
        differs: Some((5, 0x0009)),
    },
    Row {
        code: b"\xB2\x41\xB4\x02\xCD\x21\xB4\x08\xCD\x21\xB8\x03\x4C\xCD\x21",
        text: b"\x20\x20\x20\x20dos_getch();\n\
            \x20\x20\x20\x20dos_putc(65);\n\
            \x20\x20\x20\x20dos_exit(3);\n\
            }\n",
        input: b"z",
        settings: Settings {
            cpu: Cpu::I8086,
            fill: 0,
            most: 1000,
        },
        lines: b"bytes 0\nmachine exit 3\nc exit 3\n",
        differs: Some((5, 0x0009)),
    },
    // The text reads after its prompt.
    Row {
        code: b"\xB2\x41\xB4\x02\xCD\x21\xB4\x08\xCD\x21\xB8\x03\x4C\xCD\x21",
        text: b"\x20\x20\x20\x20dos_putc(65);\n\
            \x20\x20\x20\x20dos_getch();\n\
            \x20\x20\x20\x20dos_exit(3);\n\
            }\n",
        input: b"",
        settings: Settings {
            cpu: Cpu::I8086,
            fill: 0,
            most: 1000,
        },
        lines: b"bytes 1\n5 0009 1\n6 000D 1\nmachine exit 3\nc exit 3\n",
        differs: None,
    },
    Row {
        code: b"\xB2\x41\xB4\x02\xCD\x21\xB4\x08\xCD\x21\xB8\x03\x4C\xCD\x21",
        text: b"\x20\x20\x20\x20dos_putc(65);\n\
            \x20\x20\x20\x20dos_getch();\n\
            \x20\x20\x20\x20dos_exit(3);\n\
            }\n",
        input: b"z",
        settings: Settings {
            cpu: Cpu::I8086,
            fill: 0,
            most: 1000,
        },
        lines: b"bytes 1\n5 0009 1\n6 000D 1\nmachine exit 3\nc exit 3\n",
        differs: None,
    },
    // A variable that holds the fill.
    Row {
        code: b"\xB2\x41\xB4\x02\xCD\x21\xB8\x03\x4C\xCD\x21",
        text: b"\x20\x20\x20\x20unsigned char v;\n\
            \x20\x20\x20\x20dos_putc(v);\n\
            \x20\x20\x20\x20dos_exit(3);\n\
            }\n",
        input: b"",
        settings: Settings {
            cpu: Cpu::I8086,
            fill: 65,
            most: 1000,
        },
        lines: b"bytes 1\n6 0009 1\nmachine exit 3\nc exit 3\n",
        differs: None,
    },
    Row {
        code: b"\xB2\x41\xB4\x02\xCD\x21\xB8\x03\x4C\xCD\x21",
        text: b"\x20\x20\x20\x20unsigned char v;\n\
            \x20\x20\x20\x20dos_putc(v);\n\
            \x20\x20\x20\x20dos_exit(3);\n\
            }\n",
        input: b"",
        settings: Settings {
            cpu: Cpu::I8086,
            fill: 0,
            most: 1000,
        },
        lines: b"bytes 0\nmachine exit 3\nc exit 3\n",
        differs: Some((6, 0x0009)),
    },
    // 32 shifts on each processor.
    Row {
        code: b"\xB8\x01\x00\xB1\x20\xD3\xE0\x8A\xD0\xB4\x02\xCD\x21\xB8\x00\x4C\xCD\x21",
        text: b"\x20\x20\x20\x20dos_putc(1);\n\
            \x20\x20\x20\x20dos_exit(3);\n\
            }\n",
        input: b"",
        settings: Settings {
            cpu: Cpu::I186,
            fill: 0,
            most: 1000,
        },
        lines: b"bytes 1\n5 0010 1\nmachine exit 0\nc exit 3\n",
        differs: None,
    },
    Row {
        code: b"\xB8\x01\x00\xB1\x20\xD3\xE0\x8A\xD0\xB4\x02\xCD\x21\xB8\x00\x4C\xCD\x21",
        text: b"\x20\x20\x20\x20dos_putc(1);\n\
            \x20\x20\x20\x20dos_exit(3);\n\
            }\n",
        input: b"",
        settings: Settings {
            cpu: Cpu::I8086,
            fill: 0,
            most: 1000,
        },
        lines: b"bytes 0\nmachine exit 0\nc exit 3\n",
        differs: Some((5, 0x0010)),
    },
];

// The row's report is the given one.
fn check(rt: &impl Abort, alloc: Global, row: &Row) -> Result<(), Fail> {
    let file = program(alloc, row.code)?;
    let image = load(alloc, &file)?;
    let mut text = HEAD.to_vec(alloc)?;
    text.extend_from_slice(row.text)?;
    let unit = parse(alloc, &text)?;
    assert!(rt; row.settings.most <= 1000);
    let report = compare(alloc, &image, &unit, row.input, &row.settings)?;
    let told = lines(alloc, &report)?;
    assert_eq!(rt; told.as_slice(), row.lines);
    assert!(rt; report.differs == row.differs);
    Ok(())
}

#[test]
fn reports_are_those_of_the_reference(rt: HostRuntime) -> Result<(), Fail> {
    for row in &ROWS {
        check(&rt, rt.alloc(), row)?;
    }
    Ok(())
}
