//! What is left of small graphs without flags, as text.

use crate::graphs::Exit::{Goto, If, Stop};
use crate::graphs::Op::{Add, AddWith, Carry, Complement, KeepOrTest, Test};
use crate::graphs::{Line, Op, graph};
use dcc_flags::fold_flags;
use dcc_ir::{End, Expr, Graph, Loc, Stmt};
use dcc_num::FlagName::{Cf, Sf, Zf};
use dcc_num::Reg::{Ax, Bx, Cx, Dx};
use std::alloc::{AllocError, Global};
use std::test::Fail;

const NO_LINE: Line = Line(&[], Stop);

// A graph of four blocks, and what it is after.
struct Case {
    name: &'static str,
    lines: &'static [Line],
    folded: &'static str,
}

const CASES: [Case; 7] = [
    Case {
        name: "the last carry of a byte sum, read by one test",
        lines: &[
            Line(&[Carry(Cf, Ax, Bx), Add(Ax, Ax, Bx)], If(Cf, 1, 2)),
            NO_LINE,
            NO_LINE,
            NO_LINE,
        ],
        folded: "t1 = Add(Ax, Bx); t2 = Ax; Ax = Add(Ax, Bx); if LtU(t1, t2) 1 2. stop. stop. stop. ",
    },
    Case {
        name: "a sum of words by two instructions",
        lines: &[
            Line(
                &[Carry(Cf, Ax, Bx), Add(Ax, Ax, Bx), AddWith(Cx, Cx, Dx, Cf)],
                Stop,
            ),
            NO_LINE,
            NO_LINE,
            NO_LINE,
        ],
        folded: "t1 = Add(Ax, Bx); t2 = Ax; Ax = Add(Ax, Bx); Cx = Add(Add(Cx, Dx), Widen(LtU(t1, t2))); stop. stop. stop. stop. ",
    },
    Case {
        name: "two definitions that reach one read",
        lines: &[
            Line(&[], If(Sf, 1, 2)),
            Line(&[Test(Zf, Ax)], Goto(3)),
            Line(&[Test(Zf, Bx)], Goto(3)),
            Line(&[], If(Zf, 3, 3)),
        ],
        folded: "if t0 1 2. Zf = IsZero(Ax); goto 3. Zf = IsZero(Bx); goto 3. if Zf 3 3. ",
    },
    Case {
        name: "a choice that lets the earlier definition through",
        lines: &[
            Line(&[Test(Cf, Ax), KeepOrTest(Cf, Cx, Bx)], If(Cf, 1, 1)),
            NO_LINE,
            NO_LINE,
            NO_LINE,
        ],
        folded: "Cf = IsZero(Ax); Cf = Choose(IsZero(Cx), Cf, IsZero(Bx)); if Cf 1 1. stop. stop. stop. ",
    },
    Case {
        name: "forty complements",
        lines: &[
            Line(&[Test(Cf, Ax)], Goto(1)),
            Line(&[Complement(Cf); 40], If(Cf, 2, 2)),
            NO_LINE,
            NO_LINE,
        ],
        folded: "t1 = Ax; goto 1. 40 statements; if IsZero(t41) 2 2. stop. stop. ",
    },
    Case {
        name: "an operand that is overwritten",
        lines: &[
            Line(&[Test(Zf, Ax), Op::Copy(Ax, Cx)], If(Zf, 1, 1)),
            NO_LINE,
            NO_LINE,
            NO_LINE,
        ],
        folded: "t1 = Ax; Ax = Cx; if IsZero(t1) 1 1. stop. stop. stop. ",
    },
    Case {
        name: "a flag that the start alone reaches",
        lines: &[
            Line(&[Test(Cf, Ax)], If(Zf, 0, 1)),
            NO_LINE,
            NO_LINE,
            NO_LINE,
        ],
        folded: "t1 = Ax; if t0 0 1. stop. stop. stop. ",
    },
];

fn place_text(alloc: Global, location: Loc) -> Result<String, AllocError> {
    match location {
        Loc::Half(r, _) => format!(in alloc; "{r:?}"),
        Loc::Flag(f) => format!(in alloc; "{f:?}"),
        Loc::Cell(n, _) => format!(in alloc; "c{n}"),
        Loc::Temp(n) => format!(in alloc; "t{n}"),
    }
}

fn text(alloc: Global, e: &Expr) -> Result<String, AllocError> {
    match e {
        Expr::Get(location) => place_text(alloc, *location),
        Expr::Un(operator, _, operand) => {
            let a = text(alloc, operand)?;
            format!(in alloc; "{operator:?}({a})")
        }
        Expr::Bin(operator, _, left, right) => {
            let a = text(alloc, left)?;
            let b = text(alloc, right)?;
            format!(in alloc; "{operator:?}({a}, {b})")
        }
        Expr::Widen(_, _, operand) => {
            let a = text(alloc, operand)?;
            format!(in alloc; "Widen({a})")
        }
        Expr::Choose(test, one, other) => {
            let a = text(alloc, test)?;
            let b = text(alloc, one)?;
            let c = text(alloc, other)?;
            format!(in alloc; "Choose({a}, {b}, {c})")
        }
        _ => format!(in alloc; "?"),
    }
}

fn stmt_text(alloc: Global, stmt: &Stmt) -> Result<String, AllocError> {
    match stmt {
        Stmt::Set { place, value } => {
            let a = place_text(alloc, *place)?;
            let b = text(alloc, value)?;
            format!(in alloc; "{a} = {b}; ")
        }
        _ => format!(in alloc; "?; "),
    }
}

fn end_text(alloc: Global, end: &End) -> Result<String, AllocError> {
    match end {
        End::Goto(block) => format!(in alloc; "goto {block}"),
        End::If { test, one, other } => {
            let a = text(alloc, test)?;
            format!(in alloc; "if {a} {one} {other}")
        }
        _ => format!(in alloc; "stop"),
    }
}

// The blocks of a graph; of a long one the number of its statements.
fn graph_text(alloc: Global, graph: &Graph) -> Result<String, AllocError> {
    let mut all = String::new(alloc);
    for block in &graph.blocks {
        if block.stmts.len() > 8 {
            all.push_str(format!(in alloc; "{} statements; ", block.stmts.len())?.as_str())?;
        } else {
            for stmt in &block.stmts {
                all.push_str(stmt_text(alloc, stmt)?.as_str())?;
            }
        }
        all.push_str(end_text(alloc, &block.end)?.as_str())?;
        all.push_str(". ")?;
    }
    Ok(all)
}

#[test]
fn folded_graphs(rt: HostRuntime) -> Result<(), Fail> {
    let alloc = rt.alloc();
    for case in &CASES {
        let before = graph(&rt, alloc, case.lines)?;
        let after = fold_flags(alloc, before)?;
        let text = graph_text(alloc, &after)?;
        assert_eq!(rt; text.as_str(), case.folded, "{}", case.name);
    }
    Ok(())
}
