//! The head of a small graph's function.

use crate::graphs::{Exit, Line, Op, graph};
use dcc_c::Var;
use dcc_ir::{Loc, Param, Put};
use dcc_num::{Half, Reg};
use dcc_variables::{Head, function_name, openings, result_type};
use std::alloc::{AllocError, Global};
use std::test::Fail;

// The params of the graph: a word in locations, a word in memory, AL, and SI by its halves.
const PARAMS: [Param; 4] = [
    Param {
        stack: true,
        put: Put::Two(Loc::Cell(0, Half::Low), Loc::Cell(0, Half::High)),
    },
    Param {
        stack: true,
        put: Put::Memory,
    },
    Param {
        stack: false,
        put: Put::One(Loc::Half(Reg::Ax, Half::Low)),
    },
    Param {
        stack: false,
        put: Put::Two(
            Loc::Half(Reg::Si, Half::Low),
            Loc::Half(Reg::Si, Half::High),
        ),
    },
];

// The names of the variables, with their types and classes.
fn told(alloc: Global, variables: &[Var]) -> Result<String, AllocError> {
    let mut text = String::new(alloc);
    for v in variables {
        let one = format!(in alloc; "{} {:?} {:?} {:?}; ", v.name, v.ty.base, v.len, v.class)?;
        text.push_str(one.as_str())?;
    }
    Ok(text)
}

#[test]
fn a_head_and_its_openings(rt: HostRuntime) -> Result<(), Fail> {
    let alloc = rt.alloc();
    let lines = [Line(&[Op::Add(Reg::Ax, Reg::Ax, Reg::Si)], Exit::Ret(Reg::Ax))];
    let mut graph = graph(&rt, alloc, &lines)?;
    graph.params = PARAMS.to_vec(alloc)?;
    graph.local = 2;
    let head = Head::of(alloc, &graph)?;
    assert_eq!(rt;
        told(alloc, head.parameters(alloc)?.as_slice())?.as_str(),
        "p1 Uint None Plain; p2 Uint None Auto; p3 Uchar None Register; p4 Uint None Register; "
    );
    assert_eq!(rt;
        told(alloc, head.declarations(alloc)?.as_slice())?.as_str(),
        "v9 Uchar None Plain; v17 Uchar Some(2) Auto; "
    );
    let wanted = [Loc::Half(Reg::Si, Half::Low)];
    assert_eq!(rt; openings(alloc, &head, &wanted)?.len(), 1);
    assert!(rt; result_type(&graph)?.is_some());
    assert_eq!(rt; function_name(alloc, 0x12AB)?.as_str(), "f_12ab");
    Ok(())
}
