//! Which divisions are left of small graphs.

use crate::graphs::Exit::{Ret, Stop};
use crate::graphs::Op::{Copy, Divide, Write};
use crate::graphs::{Line, graph};
use dcc_divisions::drop_divisions;
use dcc_ir::{Graph, Loc, Stmt};
use dcc_num::Reg::{Ax, Bx, Cx, Dx};
use std::alloc::{AllocError, Global};
use std::test::Fail;

const NO_LINE: Line = Line(&[], Stop);

// What the first block of a graph does, and the locations of the divisions that are left of it.
struct Case {
    name: &'static str,
    line: Line,
    left: &'static str,
}

const CASES: [Case; 7] = [
    Case {
        name: "the first of two isn't read",
        line: Line(&[Divide(Ax, Bx, Cx), Divide(Dx, Bx, Cx)], Ret(Dx)),
        left: "Dx ",
    },
    Case {
        name: "the second of two isn't read",
        line: Line(&[Divide(Dx, Bx, Cx), Divide(Ax, Bx, Cx)], Ret(Dx)),
        left: "Dx ",
    },
    Case {
        name: "both are read",
        line: Line(
            &[Divide(Ax, Bx, Cx), Divide(Dx, Bx, Cx), Write(Ax)],
            Ret(Dx),
        ),
        left: "Ax Dx ",
    },
    Case {
        name: "one that isn't read, alone",
        line: Line(&[Divide(Ax, Bx, Cx)], Ret(Dx)),
        left: "Ax ",
    },
    Case {
        name: "other operands",
        line: Line(&[Divide(Dx, Bx, Cx), Divide(Ax, Cx, Bx)], Ret(Dx)),
        left: "Dx Ax ",
    },
    Case {
        name: "an operand is written between",
        line: Line(
            &[Divide(Dx, Bx, Cx), Copy(Cx, Ax), Divide(Ax, Bx, Cx)],
            Ret(Dx),
        ),
        left: "Dx Ax ",
    },
    Case {
        name: "another byte is written between",
        line: Line(
            &[
                Divide(Dx, Bx, Cx),
                Write(Dx),
                Copy(Dx, Bx),
                Divide(Ax, Bx, Cx),
            ],
            Ret(Dx),
        ),
        left: "Dx ",
    },
];

// The locations that the divisions of a graph set.
fn divided(alloc: Global, graph: &Graph) -> Result<String, AllocError> {
    let mut all = String::new(alloc);
    for block in &graph.blocks {
        for stmt in &block.stmts {
            if let Stmt::Div {
                place: Loc::Half(register, _),
                ..
            } = stmt
            {
                all.push_str(format!(in alloc; "{register:?} ")?.as_str())?;
            }
        }
    }
    Ok(all)
}

#[test]
fn divisions_left(rt: HostRuntime) -> Result<(), Fail> {
    let alloc = rt.alloc();
    for case in &CASES {
        let lines = [case.line, NO_LINE, NO_LINE, NO_LINE];
        let before = graph(&rt, alloc, &lines)?;
        let after = drop_divisions(alloc, before)?;
        let left = divided(alloc, &after)?;
        assert_eq!(rt; left.as_str(), case.left, "{}", case.name);
    }
    Ok(())
}
