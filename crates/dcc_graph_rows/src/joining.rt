//! Whether a temporary of small graphs is joinable.

use crate::graphs::Exit::{Goto, If, Ret, Stop};
use crate::graphs::Op::{Add, Load, Store, Write};
use crate::graphs::{Line, graph};
use dcc_fold::joinable;
use dcc_loads::loads_as_sets;
use dcc_num::FlagName::Cf;
use dcc_num::Reg::{Ax, Bx, Cx, Dx};
use dcc_webs::split;
use std::test::Fail;

const NO_LINE: Line = Line(&[], Stop);

// The blocks of a graph, and whether it has a temporary that is joinable, once each web is a temporary.
struct Case {
    name: &'static str,
    lines: [Line; 3],
    joinable: bool,
}

const CASES: [Case; 12] = [
    Case {
        name: "a sum in the next one",
        lines: [
            Line(&[Add(Ax, Bx, Cx), Add(Dx, Ax, Bx)], Stop),
            NO_LINE,
            NO_LINE,
        ],
        joinable: true,
    },
    Case {
        name: "a sum in the result",
        lines: [Line(&[Add(Ax, Bx, Cx)], Ret(Ax)), NO_LINE, NO_LINE],
        joinable: true,
    },
    Case {
        name: "a sum that is read twice",
        lines: [
            Line(&[Add(Ax, Bx, Cx), Add(Dx, Ax, Ax)], Stop),
            NO_LINE,
            NO_LINE,
        ],
        joinable: false,
    },
    Case {
        name: "a sum that nothing reads",
        lines: [Line(&[Add(Ax, Bx, Cx)], Ret(Dx)), NO_LINE, NO_LINE],
        joinable: false,
    },
    Case {
        name: "a load",
        lines: [
            Line(&[Load(Ax, Bx), Add(Dx, Ax, Bx)], Stop),
            NO_LINE,
            NO_LINE,
        ],
        joinable: true,
    },
    Case {
        name: "a load, and a store before it is read",
        lines: [
            Line(&[Load(Ax, Bx), Store(Cx, Dx), Add(Dx, Ax, Bx)], Stop),
            NO_LINE,
            NO_LINE,
        ],
        joinable: false,
    },
    Case {
        name: "a load, and a store that reads it",
        lines: [
            Line(&[Load(Ax, Bx), Store(Cx, Ax)], Ret(Dx)),
            NO_LINE,
            NO_LINE,
        ],
        joinable: true,
    },
    Case {
        name: "a sum, and a byte is written before it is read",
        lines: [
            Line(&[Add(Ax, Bx, Cx), Write(Dx), Add(Dx, Ax, Bx)], Stop),
            NO_LINE,
            NO_LINE,
        ],
        joinable: false,
    },
    Case {
        name: "a sum along a chain",
        lines: [
            Line(&[Add(Ax, Bx, Cx)], Goto(1)),
            Line(&[Store(Cx, Dx)], Goto(2)),
            Line(&[], Ret(Ax)),
        ],
        joinable: true,
    },
    Case {
        name: "a load along a chain",
        lines: [
            Line(&[Load(Ax, Bx)], Goto(1)),
            Line(&[], Goto(2)),
            Line(&[], Ret(Ax)),
        ],
        joinable: false,
    },
    Case {
        name: "a sum behind a test",
        lines: [
            Line(&[Add(Ax, Bx, Cx)], If(Cf, 1, 2)),
            Line(&[], Ret(Ax)),
            NO_LINE,
        ],
        joinable: false,
    },
    Case {
        name: "a sum in a block that two lead to",
        lines: [
            Line(&[Add(Ax, Bx, Cx)], If(Cf, 1, 2)),
            Line(&[], Goto(2)),
            Line(&[Add(Dx, Ax, Bx)], Stop),
        ],
        joinable: false,
    },
];

#[test]
fn joinable_ones(rt: HostRuntime) -> Result<(), Fail> {
    let alloc = rt.alloc();
    for case in &CASES {
        let registers = graph(&rt, alloc, &case.lines)?;
        let temporaries = split(alloc, registers)?;
        let sets = loads_as_sets(alloc, temporaries)?;
        let found = joinable(alloc, &sets)?;
        assert_eq!(rt; found.is_some(), case.joinable, "{}", case.name);
    }
    Ok(())
}
