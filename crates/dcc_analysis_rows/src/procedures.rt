//! Procedures of small programs, and the plain program on their trails. The values come from a reference analysis apart
//! from this one.

ghost use Rattle.std.specs.Prelude.{IfOk};
ghost use Rattle.dcc_prog.specs.Layout.{HasLayout};
ghost use Rattle.dcc_machine.specs.MzImage.{IsLoaded};

use dcc_layout::layout;
use dcc_machine::{Cpu, Image};
use dcc_mz::load;
use dcc_procs::find;
use dcc_procs::plain::{is_trail, known_ah, successors};
use dcc_prog::{ConstructKind, Layout, LimitName, Proc, Refusal};
use std::alloc::{AllocError, Global};
use std::process::Abort;
use std::test::Fail;

// The offset after the prelude, at which the code begins.
const START: u16 = 5;

/// The image of a file: the header of 32 bytes, whose one relocation moves the word at offset 1; 64 bytes with a
/// prelude that sets DS to the segment above them, the code and zeros; and the rest, with which that segment begins.
pub fn image_with(rt: &impl Abort, alloc: Global, code: &[u8], rest: &[u8]) -> Result<Image, Fail>
    ensures { IfOk result IsLoaded }
{
    let mut file =
        b"MZ\x60\x00\x01\x00\x01\x00\x02\x00\x00\x00\xFF\xFF\x04\x00\x00\x01\x00\x00\x00\x00\x00\x00\x1C\x00\x00\x00\x01\x00\x00\x00\xB8\x04\x00\x8E\xD8".to_vec(
            alloc,
        )?;
    file.extend_from_slice(code)?;
    file.resize(96, 0)?;
    file.extend_from_slice(rest)?;
    assert!(rt; rest.len() < 128);
    file[2] = 0x60 + rest.len() as u8;
    let image = load(alloc, &file)?;
    assert_eq!(rt; image.bytes.len(), 64 + rest.len());
    Ok(image)
}

/// The image of a program with the code and nothing after it.
pub fn image_of(rt: &impl Abort, alloc: Global, code: &[u8]) -> Result<Image, Fail>
    ensures { IfOk result IsLoaded }
{
    image_with(rt, alloc, code, &[])
}

// A trail to each node, the newest offset first, by going from the entry on through the successors that were found.
fn trails_to_nodes(alloc: Global, proc: &Proc) -> Result<Vec<Vec<u16>>, AllocError> {
    let mut trails = Vec::new(alloc);
    trails.push(vec![in alloc; proc.entry]?)?;
    for place in 0..proc.nodes.len() {
        let Some(trail) = trails.get(place) else {
            break;
        };
        let trail: Vec<u16> = trail.clone()?;
        let Some(node) = trail.first().and_then(|at| proc.nodes.get(at)) else {
            break;
        };
        for to in node.succ.as_slice() {
            if !trails.iter().any(|other| other.first() == Some(to)) {
                let mut further = vec![in alloc; *to]?;
                further.extend_from_slice(&trail)?;
                trails.push(further)?;
            }
        }
    }
    Ok(trails)
}

// What is found of each node is what the plain program tells of a trail to it.
fn check_plainly(
    rt: &impl Abort,
    alloc: Global,
    image: &Image,
    layout: &Layout,
    proc: &Proc,
) -> Result<(), Fail>
    requires loaded { IsLoaded image.now }
    requires layout { HasLayout image.now layout.now }
{
    let trails = trails_to_nodes(alloc, proc)?;
    assert_eq!(rt; trails.len(), proc.nodes.len());
    for trail in &trails {
        let (at, before) = trail.split_first().ok_or("no trail")?;
        let node = proc.nodes.get(at).ok_or("no node")?;
        assert!(rt; is_trail(alloc, image, layout, proc.entry, trail)?);
        let plain = successors(alloc, image, layout, trail)?;
        assert_eq!(rt; plain.as_slice(), node.succ.as_slice());
        if node.number.is_some() {
            assert_eq!(rt; known_ah(image, layout, before), node.number);
        }
    }
    Ok(())
}

// The processor, the code, and each procedure: its entry, and the offsets of its nodes, each with `>` before its
// successors and `#` before the number of its DOS call.
type ProgramRow = (Cpu, &'static [u8], &'static [&'static str]);

static PROGRAMS: [ProgramRow; 16] = [
    // A byte is written, and the run ends; what stands after the end is not reached.
    (
        Cpu::I8086,
        b"\xB2\x41\xB4\x02\xCD\x21\xB8\x03\x4C\xCD\x21\x0F",
        &["5: 5>7 7>9 9>11#2 11>14 14#76"],
    ),
    // Three keys.
    (
        Cpu::I8086,
        b"\xB4\x01\xCD\x21\xCD\x21\xB4\x08\xCD\x21\xB8\x07\x4C\xCD\x21",
        &["5: 5>7 7>9#1 9>11#1 11>13 13>15#8 15>18 18#76"],
    ),
    // LOOPE, LOOPNE to the next offset, and JCXZ to itself.
    (
        Cpu::I8086,
        b"\xE1\x02\xE0\x00\xE3\xFE\xB4\x4C\xCD\x21",
        &["5: 5>9>7 7>9>9 9>9>11 11>13 13#76"],
    ),
    // A jump to itself.
    (Cpu::I8086, b"\xEB\xFE", &["5: 5>5"]),
    // A jump into itself.
    (
        Cpu::I8086,
        b"\xEB\xFF\xC0\xB4\x4C\xCD\x21",
        &["5: 5>6 6>8 8>10 10#76"],
    ),
    // Back to a DOS call.
    (
        Cpu::I8086,
        b"\xB4\x02\xCD\x21\x3C\x05\x75\xFA\xB4\x4C\xCD\x21",
        &["5: 5>7 7>9#2 9>11 11>7>13 13>15 15#76"],
    ),
    // An INT 21h whose AH two arms set, to one number.
    (
        Cpu::I8086,
        b"\x3B\xC3\x7C\x04\xB4\x02\xEB\x02\xB4\x02\xCD\x21\xB4\x4C\xCD\x21",
        &["5: 5>7 7>13>9 9>11 11>15 13>15 15>17#2 17>19 19#76"],
    ),
    // CWD, CMP and TEST leave AH.
    (
        Cpu::I8086,
        b"\x98\xB4\x02\x99\x3C\x05\xA9\x01\x00\x85\xC0\xCD\x21\xB4\x4C\xCD\x21",
        &["5: 5>6 6>8 8>9 9>11 11>14 14>16 16>18#2 18>20 20#76"],
    ),
    // A program that takes its own address: a procedure begins at the next instruction.
    (
        Cpu::I8086,
        b"\xE8\x00\x00\x58\xB8\x00\x4C\xCD\x21",
        &["5: 5>8 8>9 9>12 12#76", "8: 8>9 9>12 12#76"],
    ),
    // A push on one arm.
    (
        Cpu::I8086,
        b"\x3D\x00\x00\x74\x01\x50\xEB\xFE",
        &["5: 5>8 8>11>10 10>11 11>11"],
    ),
    // A switch by AX, whose index is moved to BX.
    (
        Cpu::I8086,
        b"\xB8\x02\x00\x3D\x03\x00\x77\x1B\xD1\xE0\x8B\xD8\x2E\xFF\xA7\x2C\x00\xB0\x01\xEB\x0A\xB0\x02\xEB\x06\xB0\x03\xEB\x02\xB0\x04\xB4\x4C\xCD\x21\xB0\x09\xEB\xF8\x16\x00\x1A\x00\x1E\x00\x22\x00",
        &[
            "5: 5>8 8>11 11>40>13 13>15 15>17 17>22>26>30>34 22>24 24>36 26>28 28>36 30>32 32>36 34>36 36>38 38#76 40>42 42>36",
        ],
    ),
    // The factorial, which calls itself, of 7.
    (
        Cpu::I8086,
        b"\xB8\x07\x00\x50\xE8\x05\x00\x59\xB4\x4C\xCD\x21\x55\x8B\xEC\x8B\x46\x04\x3D\x01\x00\x7E\x09\x48\x50\xE8\xF0\xFF\x59\xF7\x66\x04\x5D\xC3",
        &[
            "5: 5>8 8>9 9>12 12>13 13>15 15#76",
            "17: 17>18 18>20 20>23 23>26 26>37>28 28>29 29>30 30>33 33>34 34>37 37>38 38",
        ],
    ),
    // A switch of four cases.
    (
        Cpu::I8086,
        b"\xBB\x00\x00\x83\xFB\x03\x77\x19\xD1\xE3\x2E\xFF\xA7\x2A\x00\xB0\x01\xEB\x0A\xB0\x02\xEB\x06\xB0\x03\xEB\x02\xB0\x04\xB4\x4C\xCD\x21\xB0\x09\xEB\xF8\x14\x00\x18\x00\x1C\x00\x20\x00",
        &[
            "5: 5>8 8>11 11>38>13 13>15 15>20>24>28>32 20>22 22>34 24>26 26>34 28>30 30>34 32>34 34>36 36#76 38>40 40>34",
        ],
    ),
    // One by AL, whose index is moved to BX.
    (
        Cpu::I8086,
        b"\xB0\x02\x3C\x03\x77\x1D\x32\xE4\xD1\xE0\x8B\xD8\x2E\xFF\xA7\x2C\x00\xB0\x01\xEB\x0A\xB0\x02\xEB\x06\xB0\x03\xEB\x02\xB0\x04\xB4\x4C\xCD\x21\xB0\x09\xEB\xF8\x16\x00\x1A\x00\x1E\x00\x22\x00",
        &[
            "5: 5>7 7>9 9>40>11 11>13 13>15 15>17 17>22>26>30>34 22>24 24>36 26>28 28>36 30>32 32>36 34>36 36>38 38#76 40>42 42>36",
        ],
    ),
    // Two procedures share their end, and are called in falling order.
    (
        Cpu::I8086,
        b"\xE8\x08\x00\xE8\x04\x00\xB4\x4C\xCD\x21\x40\x40\xC3",
        &[
            "5: 5>8 8>11 11>13 13#76",
            "15: 15>16 16>17 17",
            "16: 16>17 17",
        ],
    ),
    // A frame by ENTER and LEAVE.
    (
        Cpu::I186,
        b"\xE8\x05\x00\xB8\x00\x4C\xCD\x21\xC8\x02\x00\x00\xC6\x46\xFE\x2A\x8A\x56\xFE\xB4\x02\xCD\x21\xC9\xC3",
        &[
            "5: 5>8 8>11 11#76",
            "13: 13>17 17>21 21>24 24>26 26>28#2 28>29 29",
        ],
    ),
];

fn programs() -> &'static [ProgramRow] {
    &PROGRAMS
}

// A procedure as a row of the table has it.
fn described(alloc: Global, proc: &Proc) -> Result<String, Fail> {
    let mut said = String::new(alloc);
    write!(said, "{}:", proc.entry)?;
    for (at, node) in proc.nodes.iter() {
        write!(said, " {at}")?;
        for to in node.succ.as_slice() {
            write!(said, ">{to}")?;
        }
        if let Some(number) = node.number {
            write!(said, "#{number}")?;
        }
    }
    Ok(said)
}

#[test]
fn all_procedures_are_found_in_order(rt: HostRuntime) -> Result<(), Fail> {
    let alloc = rt.alloc();
    for (cpu, code, rows) in programs() {
        let image = image_of(&rt, alloc, code)?;
        let layout = layout(alloc, &image, *cpu)?;
        let procs = find(alloc, &image, &layout)?;
        assert_eq!(rt; procs.len(), rows.len());
        for (proc, row) in procs.iter().zip(*rows) {
            assert_eq!(rt; described(alloc, proc)?.as_str(), *row);
            check_plainly(&rt, alloc, &image, &layout, proc)?;
        }
    }
    Ok(())
}

// The code, the construct that is told, and its offset.
type RefusedRow = (&'static [u8], ConstructKind, u16);

static REFUSED: [RefusedRow; 20] = [
    // FF with a reg field that no instruction has.
    (b"\xFF\xF8", ConstructKind::OutsideProfile, 0x0005),
    // A jump and a call through a register, near and far.
    (b"\xFF\xE0", ConstructKind::IndirectJump, 0x0005),
    (b"\xFF\xE8", ConstructKind::IndirectJump, 0x0005),
    (b"\xFF\xD0", ConstructKind::IndirectCall, 0x0005),
    (b"\xFF\xD8", ConstructKind::IndirectCall, 0x0005),
    // A jump past the end, and to the last byte, where an instruction begins that goes on past the end.
    (b"\xEB\x39", ConstructKind::OutsideProfile, 0x0040),
    (b"\xEB\x38", ConstructKind::OutsideProfile, 0x003F),
    // A jump into the first instruction of the prelude, and below offset 0.
    (b"\xEB\xFA", ConstructKind::OutsideProfile, 0x0003),
    (b"\xEB\xF8", ConstructKind::OutsideProfile, 0xFFFF),
    // CBW between MOV AH and INT 21h.
    (
        b"\xB4\x02\x98\xCD\x21\xB4\x4C\xCD\x21",
        ConstructKind::DosNumber,
        0x0008,
    ),
    // BP is moved to without a frame, and a frame is left above BP.
    (
        b"\xBD\x05\x00\xB8\x00\x4C\xCD\x21",
        ConstructKind::OutsideProfile,
        0x0005,
    ),
    (
        b"\xE8\x05\x00\xB8\x00\x4C\xCD\x21\x55\x8B\xEC\x8D\x66\x02\x5D\xC3",
        ConstructKind::OutsideProfile,
        0x0010,
    ),
    // ENTER, which the 8086 has not.
    (
        b"\xE8\x05\x00\xB8\x00\x4C\xCD\x21\xC8\x02\x00\x00\xC6\x46\xFE\x2A\x8A\x56\xFE\xB4\x02\xCD\x21\xC9\xC3",
        ConstructKind::OutsideProfile,
        0x000D,
    ),
    // AH comes from memory, and is not known after a call.
    (
        b"\x8A\x26\x00\x00\xCD\x21\xB8\x00\x4C\xCD\x21",
        ConstructKind::DosNumber,
        0x0009,
    ),
    (
        b"\xB4\x02\xE8\x02\x00\xCD\x21\xC3",
        ConstructKind::DosNumber,
        0x000A,
    ),
    // A return from the entry procedure, and a call of it.
    (b"\xC3", ConstructKind::EntryReturn, 0x0005),
    (b"\xE8\xFD\xFF", ConstructKind::EntryReturn, 0x0005),
    // A second way to the doubling before a jump through a table, and another register that is moved to BX.
    (
        b"\x74\x06\x90\x83\xFB\x03\x77\x19\xD1\xE3\x2E\xFF\xA7\x2A\x00\xB0\x01\xEB\x0A\xB0\x02\xEB\x06\xB0\x03\xEB\x02\xB0\x04\xB4\x4C\xCD\x21\xB0\x09\xEB\xF8\x14\x00\x18\x00\x1C\x00\x20\x00",
        ConstructKind::IndirectJump,
        0x000F,
    ),
    (
        b"\xB8\x02\x00\x3D\x03\x00\x77\x1B\xD1\xE0\x8B\xD9\x2E\xFF\xA7\x2C\x00\xB0\x01\xEB\x0A\xB0\x02\xEB\x06\xB0\x03\xEB\x02\xB0\x04\xB4\x4C\xCD\x21\xB0\x09\xEB\xF8\x16\x00\x1A\x00\x1E\x00\x22\x00",
        ConstructKind::IndirectJump,
        0x0011,
    ),
    // IDIV of a word without CWD.
    (
        b"\xB8\x01\x00\xBB\x00\x00\xF7\xFB\xB8\x00\x4C\xCD\x21",
        ConstructKind::Division,
        0x000B,
    ),
];

fn refused() -> &'static [RefusedRow] {
    &REFUSED
}

#[test]
fn constructs_are_told_where_they_stand(rt: HostRuntime) -> Result<(), Fail> {
    let alloc = rt.alloc();
    for &(code, kind, at) in refused() {
        let image = image_of(&rt, alloc, code)?;
        let layout = layout(alloc, &image, Cpu::I8086)?;
        let told = find(alloc, &image, &layout).err();
        assert_eq!(rt; told, Some(Refusal::Construct { kind, at }), "{code:?}");
    }
    Ok(())
}

#[test]
fn a_table_of_too_many_entries_is_told(rt: HostRuntime) -> Result<(), Fail> {
    let alloc = rt.alloc();
    let image = image_of(
        &rt,
        alloc,
        b"\x81\xFB\x00\x01\x77\x07\xD1\xE3\x2E\xFF\xA7\x00\x00\xB8\x00\x4C\xCD\x21",
    )?;
    let layout = layout(alloc, &image, Cpu::I8086)?;
    let told = find(alloc, &image, &layout).err();
    let what = LimitName::Entries;
    assert_eq!(rt; told, Some(Refusal::Limit { what, count: 257 }));
    Ok(())
}

// Offsets with the newest first, their successors, and whether they are a trail.
type TrailRow = (&'static [u16], &'static [u16], bool);

static TRAILS: [(&[u8], &[TrailRow]); 4] = [
    // `cmp bx,1`, `ja` past the jump, `shl bx,1`, the jump; two words. The last two are one instruction short.
    (
        b"\x83\xFB\x01\x77\x07\xD1\xE3\x2E\xFF\xA7\x15\x00\xB4\x4C\xCD\x21\x11\x00\x13\x00",
        &[
            (&[8, 5], &[17, 10], true),
            (&[12, 10, 8, 5], &[17, 19], true),
            (&[19, 12, 10, 8, 5], &[21], true),
            (&[19, 17, 12, 10, 8, 5], &[], true),
            (&[12, 10, 8], &[], false),
            (&[12, 8, 5], &[], false),
        ],
    ),
    // `cmp si,0`, `jbe` to `shl si,1`, the jump; one word.
    (
        b"\x83\xFE\x00\x76\x04\xB4\x4C\xCD\x21\xD1\xE6\x2E\xFF\xA4\x15\x00\x0A\x00",
        &[
            (&[16, 14, 8, 5], &[10], true),
            (&[10, 16, 14, 8, 5], &[12], true),
        ],
    ),
    // The bounds test is turned.
    (
        b"\x83\xFB\x01\x77\x04\xB4\x4C\xCD\x21\xD1\xE3\x2E\xFF\xA7\x15\x00\x0A\x00",
        &[(&[16, 14, 8, 5], &[], true)],
    ),
    // A call, two moves to AH, of which the last counts, the end, and a return, which begins another procedure; then
    // offsets without the entry, in the other order, with one left out, and none.
    (
        b"\xE8\x06\x00\xB4\x02\xB4\x4C\xCD\x21\xC3\x0F",
        &[
            (&[5], &[8], true),
            (&[8, 5], &[10], true),
            (&[12, 10, 8, 5], &[], true),
            (&[12, 8, 10, 5], &[14], false),
            (&[14], &[], false),
            (&[15], &[], false),
            (&[10, 8], &[12], false),
            (&[5, 8], &[8], false),
            (&[10, 5], &[12], false),
            (&[], &[], false),
        ],
    ),
];

fn trails() -> &'static [(&'static [u8], &'static [TrailRow])] {
    &TRAILS
}

#[test]
fn the_plain_program_follows_tables_calls_and_returns(rt: HostRuntime) -> Result<(), Fail> {
    let alloc = rt.alloc();
    for (code, rows) in trails() {
        let image = image_of(&rt, alloc, code)?;
        let layout = layout(alloc, &image, Cpu::I8086)?;
        for (offsets, succ, trail) in *rows {
            let plain = successors(alloc, &image, &layout, offsets)?;
            assert_eq!(rt; plain.as_slice(), *succ);
            assert_eq!(rt; is_trail(alloc, &image, &layout, START, offsets)?, *trail);
        }
    }
    Ok(())
}
