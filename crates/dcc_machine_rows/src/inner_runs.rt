//! Runs of small programs of the inner language.
use dcc_ir::plain::*;
use dcc_ir::syntax::{
    BinOp, Block, End as BlockEnd, Expr, Graph, IrProgram, Loc, Param, Put, Stmt,
};
use dcc_num::{Half, Reg, dos};
use std::alloc::{AllocError, Global};

const AL: Loc = Loc::Half(Reg::Ax, Half::Low);

const CL: Loc = Loc::Half(Reg::Cx, Half::Low);

fn number(width: u8, number: u32) -> Expr {
    Expr::Const(width, number)
}

fn call_dos(number: u8, place: Option<Loc>, argument: Option<Expr>) -> Stmt {
    Stmt::Dos {
        number,
        place,
        argument,
    }
}

// A program of one graph of one block, whose stack reaches from 16 to 256.
fn program(alloc: Global, stmts: Vec<Stmt>, end: BlockEnd) -> Result<IrProgram, AllocError> {
    let mut graphs = Vec::new(alloc);
    graphs.push(graph(alloc, 5, Vec::new(alloc), stmts, end)?)?;
    Ok(IrProgram {
        graphs,
        image: Vec::new(alloc),
        lo: 16,
        hi: 256,
    })
}

// A graph of one block.
fn graph(
    alloc: Global,
    entry: u16,
    params: Vec<Param>,
    stmts: Vec<Stmt>,
    end: BlockEnd,
) -> Result<Graph, AllocError> {
    let mut blocks = Vec::new(alloc);
    blocks.push(Block {
        at: entry,
        stmts,
        end,
    })?;
    Ok(Graph {
        entry,
        params,
        local: 0,
        pushed: 0,
        blocks,
        bits: Vec::new(alloc),
    })
}

#[test]
fn a_key_is_taken_and_written(rt: HostRuntime) -> Result<(), Refused> {
    let alloc = rt.alloc();
    let mut stmts = Vec::new(alloc);
    stmts.push(call_dos(dos::GETCH, Some(AL), None))?;
    stmts.push(call_dos(dos::PUTC, None, Some(Expr::Get(AL))))?;
    stmts.push(call_dos(dos::EXIT, None, Some(number(8, 3))))?;
    let program = program(alloc, stmts, BlockEnd::Stop)?;
    let some = run(alloc, &program, b"a", 0, 9)?;
    assert_eq!(rt;
        some.events.as_slice(),
        [Event::Took(b'a'), Event::Wrote(b'a')].as_slice()
    );
    assert_eq!(rt; some.end, End::Exit(3));
    let none = run(alloc, &program, b"", 0, 9)?;
    assert_eq!(rt;
        none.events.as_slice(),
        [Event::MetEnd, Event::Wrote(0x1A)].as_slice()
    );
    Ok(())
}

#[test]
fn each_read_at_the_end_of_the_input_is_seen(rt: HostRuntime) -> Result<(), Refused> {
    let alloc = rt.alloc();
    let mut stmts = Vec::new(alloc);
    stmts.push(call_dos(dos::GETCHE, Some(AL), None))?;
    stmts.push(call_dos(dos::GETCH, Some(AL), None))?;
    stmts.push(call_dos(dos::EXIT, None, Some(number(8, 0))))?;
    let program = program(alloc, stmts, BlockEnd::Stop)?;
    let none = run(alloc, &program, b"", 0, 9)?;
    assert_eq!(rt;
        none.events.as_slice(),
        [Event::MetEnd, Event::MetEnd].as_slice()
    );
    let one = run(alloc, &program, b"a", 0, 9)?;
    let echoed = [Event::Took(b'a'), Event::Wrote(b'a'), Event::MetEnd];
    assert_eq!(rt; one.events.as_slice(), echoed.as_slice());
    Ok(())
}

#[test]
fn a_division_of_the_least_number_by_minus_one_ends_the_run(
    rt: HostRuntime,
) -> Result<(), Refused> {
    let alloc = rt.alloc();
    let least = Box::new(alloc, number(8, 0x80))?;
    let by = Box::new(alloc, number(8, 0xFF))?;
    let mut stmts = Vec::new(alloc);
    stmts.push(Stmt::Div {
        place: AL,
        division: Expr::Bin(BinOp::DivS, 8, least, by),
    })?;
    let program = program(alloc, stmts, BlockEnd::Stop)?;
    assert_eq!(rt; run(alloc, &program, b"", 0, 9)?.end, End::Divide);
    Ok(())
}

#[test]
fn a_call_passes_words_in_memory_and_locations_and_gives_back(
    rt: HostRuntime,
) -> Result<(), Refused> {
    let alloc = rt.alloc();
    let mut results = Vec::new(alloc);
    results.push(AL)?;
    let mut arguments = Vec::new(alloc);
    arguments.push(number(16, 0x1234))?;
    arguments.push(number(8, 5))?;
    let mut stmts = Vec::new(alloc);
    stmts.push(Stmt::Call {
        results,
        entry: 0x20,
        arguments,
        depth: 6,
    })?;
    stmts.push(call_dos(dos::EXIT, None, Some(Expr::Get(AL))))?;
    let mut program = program(alloc, stmts, BlockEnd::Stop)?;
    let mut params = Vec::new(alloc);
    params.push(Param {
        stack: true,
        put: Put::Memory,
    })?;
    params.push(Param {
        stack: false,
        put: Put::One(CL),
    })?;
    let upper = Expr::Load(8, Box::new(alloc, Expr::Address(1))?);
    let sum = Expr::Bin(
        BinOp::Add,
        8,
        Box::new(alloc, upper)?,
        Box::new(alloc, Expr::Get(CL))?,
    );
    let mut values = Vec::new(alloc);
    values.push(sum)?;
    let callee = graph(alloc, 0x20, params, Vec::new(alloc), BlockEnd::Ret(values))?;
    program.graphs.push(callee)?;
    // The call, the return, and the rest of the caller's block.
    assert_eq!(rt; run(alloc, &program, b"", 0, 2)?.end, End::Running);
    assert_eq!(rt; run(alloc, &program, b"", 0, 3)?.end, End::Exit(0x17));
    Ok(())
}
