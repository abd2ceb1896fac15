//! Which texts have the shape that a procedure asks for.

use crate::text_runs::BEFORE;
use dcc_machine::{Cond, Instr, Op, Plain};
use dcc_parse::parse;
use dcc_prog::{Exposed, Frame, Node, Proc};
use dcc_shape::has_shape;
use indexmap::IndexMap;
use smallvec::SmallVec;
use std::alloc::Global;
use std::process::Abort;
use std::test::Fail;

// Statements, and whether they have the shape that the procedure with one loop inside another asks for. It has six
// instructions, two of which branch, eight edges and two loop headers: at most four blocks, six labels and ten jumps.
static TEXTS: [(&str, bool); 20] = [
    (
        "L_0005: for (;;) { if (i) { } else { L_0007: do { } while (i); } }",
        true,
    ),
    (
        "L_0005: for (;;) { L_0007: do { goto L_0005; } while (i); }",
        true,
    ),
    (
        "L_0005: for (;;) { L_0007: do { goto L_0007; } while (i); }",
        false,
    ),
    (
        "L_0005: for (;;) { L_0007: do { goto L_000a; } while (i); L_000a: ; }",
        false,
    ),
    (
        "L_0005: for (;;) { L_0007: do { goto L_0009; } while (i); L_0009: ; }",
        true,
    ),
    (
        "L_0005: for (;;) { L_0009: ; L_0007: do { goto L_0009; } while (i); }",
        false,
    ),
    ("for (;;) { L_0007: do { } while (i); }", false),
    ("L_0007: do { } while (i);", false),
    ("L_0005: ; for (;;) { L_0007: do { } while (i); }", false),
    (
        "L_0005: for (;;) { if (i) { } L_0007: while (i) { if (i) { } } }",
        true,
    ),
    (
        "L_0005: for (;;) { if (i) { } if (i) { } L_0007: while (i) { if (i) { } } }",
        false,
    ),
    (
        "L_0005: if (i) { goto L_0009; } L_0007: if (i) { goto L_0007; } L_0009: goto L_0005;",
        false,
    ),
    (
        "L_0000: ; L_0003: ; L_0005: for (;;) { L_0007: do { } while (i); L_0009: ; L_000a: ; }",
        true,
    ),
    (
        "L_0000: ; L_0003: ; L_0004: ; L_0005: for (;;) { L_0007: do { } while (i); L_0009: ; L_000a: ; }",
        false,
    ),
    (
        "L_0005: for (;;) { L_0007: do { break; break; break; break; break; break; break; break; break; continue; } while (i); }",
        true,
    ),
    (
        "L_0005: for (;;) { L_0007: do { break; break; break; break; break; break; break; break; break; break; continue; } while (i); }",
        false,
    ),
    ("L_0005: for (;;) { ; ; L_0007: do { } while (i); }", true),
    (
        "L_0005: for (;;) { ; ; ; L_0007: do { } while (i); }",
        false,
    ),
    (
        "L_0005: for (;;) { L_0007: do { } while (i); goto L_0009; L_0009: ; }",
        true,
    ),
    (
        "L_0005: for (;;) { L_0007: do { } while (i); goto L_0008; L_0008: ; }",
        false,
    ),
];

// So many `if`s, each in the one before, around a loop without a label, and whether this has the shape that a chain of
// 200 branches asks for: where 199 blocks stand around the loop, no label is asked.
static DEPTHS: [(usize, bool); 3] = [(0, false), (198, false), (199, true)];

// The array of a byte whose address alone may be used, and other variables.
const DECLARED: &str = "auto unsigned char a[1]; unsigned int t; unsigned int u; unsigned char c;";

// Statements, and whether they use of the array nothing but the address, and of that single bits alone but in variables
// in no memory.
static ADDRESSES: [(&str, bool); 20] = [
    ("", true),
    ("t = (unsigned int)a - 2U; u = t + 4U;", true),
    (
        "t = (unsigned int)a - 2U; *(unsigned char *)16U = t < 2U;",
        true,
    ),
    (
        "t = (unsigned int)a; u = t + 2U; *(unsigned char *)16U = (unsigned char)(u >> 15) & 1;",
        true,
    ),
    ("t = !(unsigned int)a; *(unsigned int *)t = 1;", true),
    (
        "*(unsigned char *)(16U + ((unsigned int)a == 5U)) = 1;",
        true,
    ),
    (
        "t = (unsigned int)a < 5U ? 16U : 18U; dos_putc((unsigned char)t);",
        true,
    ),
    ("if ((unsigned int)a) { t = *(unsigned int *)16U; }", true),
    ("*a = 1;", false),
    ("*(unsigned char *)((unsigned int)a + 2U) = 1;", false),
    ("t = (unsigned int)a; *(unsigned char *)t = 1;", false),
    (
        "t = (unsigned int)a; u = t + 2U; c = *(unsigned char *)(u + 4U);",
        false,
    ),
    (
        "c = *(unsigned char *)u; u = t + 2U; t = (unsigned int)a;",
        false,
    ),
    ("*(unsigned int *)16U = (unsigned int)a;", false),
    (
        "*(unsigned char *)16U = (unsigned char)(unsigned int)a & 2;",
        false,
    ),
    (
        "t = (unsigned int)a; c = (unsigned char)t; dos_putc(c);",
        false,
    ),
    (
        "c = (unsigned char)(unsigned int)a; *(unsigned char *)(16U + c) = 1;",
        false,
    ),
    (
        "t = (unsigned int)a ? 16U : (unsigned int)a; *(unsigned char *)t = 1;",
        false,
    ),
    ("switch ((unsigned int)a) { case 1: t = 2U; break; }", false),
    (
        "t = u; u = *(unsigned int *)(t + 2U); if (t < 4U) { t = (unsigned int)a; }",
        false,
    ),
];

// Adds an instruction of two bytes at an address, and those that may come next.
fn add(
    alloc: Global,
    nodes: &mut IndexMap<u16, Node>,
    at: u16,
    op: Op,
    next: &[u16],
) -> Result<(), Fail> {
    let instr = Instr { op, len: 2 };
    let succ = SmallVec::from_slice(alloc, next)?;
    nodes.insert(
        at,
        Node {
            instr,
            succ,
            number: None,
        },
    )?;
    Ok(())
}

// 0, 3, 5 (to 9 or 7), 7 (to 7 or 9), 9, 10 (to 5): a loop at 5, and in it one at 7.
fn procedure(alloc: Global) -> Result<Proc, Fail> {
    let mut nodes = IndexMap::new(alloc);
    let plain = Op::Plain(Plain::Nop);
    add(alloc, &mut nodes, 0, plain, &[3])?;
    add(alloc, &mut nodes, 3, plain, &[5])?;
    add(alloc, &mut nodes, 5, Op::Branch(Cond::Z, 9), &[9, 7])?;
    add(alloc, &mut nodes, 7, Op::Branch(Cond::Nz, 7), &[7, 9])?;
    add(alloc, &mut nodes, 9, plain, &[10])?;
    add(alloc, &mut nodes, 10, Op::Jump(5), &[5])?;
    Ok(Proc { entry: 0, nodes })
}

// A chain of 200 branches, each of which leads to the next alone, and an instruction at its end.
fn chain(alloc: Global) -> Result<Proc, Fail> {
    let mut nodes = IndexMap::new(alloc);
    for i in 0..200_u16 {
        let next = 2 * i + 2;
        add(
            alloc,
            &mut nodes,
            2 * i,
            Op::Branch(Cond::Z, next),
            &[next, next],
        )?;
    }
    add(alloc, &mut nodes, 400, Op::Plain(Plain::Nop), &[])?;
    Ok(Proc { entry: 0, nodes })
}

// The frames of so many procedures, each with so many local bytes in memory.
fn frames(alloc: Global, count: usize, local: u16) -> Result<Vec<Frame>, Fail> {
    let mut frames = Vec::new(alloc);
    for _ in 0..count {
        frames.push(Frame {
            framed: true,
            args: 0,
            cells: Vec::new(alloc),
            exposed: Exposed { local, arg: None },
        })?;
    }
    Ok(frames)
}

// Which procedure lacks the shape, where the text has one function with these statements, and the frames of all
// procedures have so many local bytes in memory.
fn lacking(
    rt: &impl Abort,
    alloc: Global,
    procs: &[Proc],
    local: u16,
    statements: &[u8],
) -> Result<Option<usize>, Fail> {
    let mut text = BEFORE.as_bytes().to_vec(alloc)?;
    text.extend_from_slice(statements)?;
    text.extend_from_slice("\n}\n".as_bytes())?;
    let unit = parse(alloc, &text)?;
    let frames = frames(alloc, procs.len(), local)?;
    assert_eq!(rt; frames.len(), procs.len());
    Ok(has_shape(alloc, procs, frames.as_slice(), unit.funcs.as_slice())?)
}

#[test]
fn texts_have_the_shape_or_lack_it(rt: HostRuntime) -> Result<(), Fail> {
    let alloc = rt.alloc();
    let procs = vec![in alloc; procedure(alloc)?]?;
    for (statements, has) in &TEXTS {
        let lacks = lacking(&rt, alloc, procs.as_slice(), 2, statements.as_bytes())?;
        assert_eq!(rt; lacks.is_none(), *has, "{statements}");
    }
    Ok(())
}

#[test]
fn deep_texts_need_no_labels(rt: HostRuntime) -> Result<(), Fail> {
    let alloc = rt.alloc();
    let procs = vec![in alloc; chain(alloc)?]?;
    for (depth, has) in &DEPTHS {
        let mut statements = Vec::new(alloc);
        for _ in 0..*depth {
            statements.extend_from_slice("if (i) { ".as_bytes())?;
        }
        statements.extend_from_slice("for (;;) { }".as_bytes())?;
        for _ in 0..*depth {
            statements.extend_from_slice(" }".as_bytes())?;
        }
        let lacks = lacking(&rt, alloc, procs.as_slice(), 0, &statements)?;
        assert_eq!(rt; lacks.is_none(), *has, "{depth}");
    }
    Ok(())
}

#[test]
fn each_procedure_has_a_function(rt: HostRuntime) -> Result<(), Fail> {
    let alloc = rt.alloc();
    let two = vec![in alloc; chain(alloc)?, chain(alloc)?]?;
    assert_eq!(rt; lacking(&rt, alloc, two.as_slice(), 0, &[])?, Some(1));
    assert_eq!(rt; lacking(&rt, alloc, &[], 0, &[])?, Some(0));
    Ok(())
}

#[test]
fn of_a_byte_the_address_is_used_alone(rt: HostRuntime) -> Result<(), Fail> {
    let alloc = rt.alloc();
    let procs = vec![in alloc; chain(alloc)?]?;
    for (statements, has) in &ADDRESSES {
        let mut all = DECLARED.as_bytes().to_vec(alloc)?;
        all.extend_from_slice(statements.as_bytes())?;
        let lacks = lacking(&rt, alloc, procs.as_slice(), 0, &all)?;
        assert_eq!(rt; lacks.is_none(), *has, "{statements}");
        let exposes = lacking(&rt, alloc, procs.as_slice(), 1, &all)?;
        assert!(rt; exposes.is_none(), "{statements}");
    }
    Ok(())
}
