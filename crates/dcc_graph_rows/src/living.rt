//! Which locations are live in small graphs, and which statements are left of them.

use crate::graphs::Exit::{Call, Goto, If, Ret, Stop, Switch};
use crate::graphs::Op::{Add, Divide, Keep, Key, Load, Pick, Store, Test, Write};
use crate::graphs::{Line, Op, graph};
use dcc_ir::{Graph, Sums};
use dcc_live::{drop_dead, live};
use dcc_num::FlagName::{Cf, Of, Zf};
use dcc_num::Reg::{Ax, Bx, Cx, Dx};
use std::alloc::{AllocError, Global};
use std::test::Fail;

// A graph, what is live at the end of each block, and how many statements of each are left.
struct Case {
    name: &'static str,
    lines: &'static [Line],
    live: &'static str,
    left: &'static str,
}

const CASES: [Case; 9] = [
    Case {
        name: "a flag that only keeps itself",
        lines: &[Line(&[Keep(Cf, Cx, Of)], If(Zf, 0, 1)), Line(&[], Ret(Cx))],
        live: "[[Half(Cx, Low), Flag(Cf), Flag(Of), Flag(Zf)], []]",
        left: "[0, 0]",
    },
    Case {
        name: "a division whose quotient is dead",
        lines: &[Line(
            &[Divide(Ax, Bx, Cx), Op::Copy(Ax, Dx), Op::Copy(Dx, Ax)],
            Ret(Ax),
        )],
        live: "[[]]",
        left: "[2]",
    },
    Case {
        name: "the back edge of a loop",
        lines: &[
            Line(&[], Goto(1)),
            Line(&[Write(Ax), Op::Copy(Ax, Cx)], If(Zf, 1, 2)),
            Line(&[], Stop),
        ],
        live: "[[Half(Ax, Low), Half(Cx, Low), Flag(Zf)], [Half(Ax, Low), Half(Cx, Low), Flag(Zf)], []]",
        left: "[0, 2, 0]",
    },
    Case {
        name: "both arms of a choice",
        lines: &[
            Line(&[Test(Zf, Bx)], Goto(1)),
            Line(&[Keep(Cf, Cx, Zf)], Goto(2)),
            Line(&[], If(Cf, 3, 3)),
            Line(&[], Stop),
        ],
        live: "[[Half(Cx, Low), Flag(Cf), Flag(Zf)], [Flag(Cf)], [], []]",
        left: "[1, 1, 0, 0]",
    },
    Case {
        name: "loads about a store",
        lines: &[Line(
            &[Load(Ax, Bx), Store(Cx, Dx), Write(Ax), Load(Ax, Cx)],
            Stop,
        )],
        live: "[[]]",
        left: "[3]",
    },
    Case {
        name: "a call's argument and result",
        lines: &[
            Line(&[Op::Copy(Ax, Bx), Op::Copy(Dx, Bx)], Call(Cx, Ax, 1)),
            Line(&[], Ret(Cx)),
        ],
        live: "[[Half(Cx, Low)], []]",
        left: "[2, 0]",
    },
    Case {
        name: "the last target of a switch",
        lines: &[
            Line(
                &[Op::Copy(Ax, Bx), Op::Copy(Dx, Bx)],
                Switch(Cx, &[1, 1, 2]),
            ),
            Line(&[], Stop),
            Line(&[], Ret(Ax)),
        ],
        live: "[[Half(Ax, Low)], [], []]",
        left: "[1, 0, 0]",
    },
    Case {
        name: "keys",
        lines: &[Line(&[Key(Ax), Key(Bx), Pick(Cx, Cf, Ax, Bx)], Ret(Bx))],
        live: "[[]]",
        left: "[2]",
    },
    Case {
        name: "a sum that adds to itself",
        lines: &[Line(&[Add(Ax, Ax, Bx)], Goto(0))],
        live: "[[Half(Ax, Low), Half(Bx, Low)]]",
        left: "[0]",
    },
];

// How many statements each block has.
fn sizes(alloc: Global, graph: &Graph) -> Result<Vec<usize>, AllocError> {
    let mut sizes = Vec::new(alloc);
    for block in &graph.blocks {
        sizes.push(block.stmts.len())?;
    }
    Ok(sizes)
}

#[test]
fn live_and_left(rt: HostRuntime) -> Result<(), Fail> {
    let alloc = rt.alloc();
    for case in &CASES {
        let graph = graph(&rt, alloc, case.lines)?;
        let sums = Sums {
            of: Vec::new(alloc),
        };
        let l = live(alloc, &graph, &sums)?;
        assert_eq!(rt;
            format!(in alloc; "{:?}", l.at_end)?.as_str(),
            case.live,
            "{}",
            case.name
        );
        let left = drop_dead(alloc, graph, &l)?;
        assert_eq!(rt;
            format!(in alloc; "{:?}", sizes(alloc, &left)?)?.as_str(),
            case.left,
            "{}",
            case.name
        );
    }
    Ok(())
}
