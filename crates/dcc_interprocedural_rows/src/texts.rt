//! What calls give, in the words of the table.

use dcc_ir::{Block, End, Expr, Graph, Loc, Param, Put, Stmt};
use dcc_num::Half;
use std::alloc::{AllocError, Global};
use std::process::Abort;

// The texts must be these.
pub(crate) fn check(rt: &impl Abort, texts: &[String], expected: &[&str], name: &str) {
    assert_eq!(rt; texts.len(), expected.len(), "{name}");
    for (text, wanted) in texts.iter().zip(expected) {
        assert_eq!(rt; text.as_str(), *wanted, "{name}");
    }
}

// The texts with that between them; of none a dash.
pub(crate) fn joined(alloc: Global, texts: &[String], between: &str) -> Result<String, AllocError> {
    let Some((first, rest)) = texts.split_first() else {
        return String::from_str(alloc, "-");
    };
    let mut all = first.clone()?;
    for text in rest {
        all.push_str(between)?;
        all.push_str(text.as_str())?;
    }
    Ok(all)
}

fn letter(half: Half) -> char {
    match half {
        Half::Low => 'l',
        Half::High => 'h',
    }
}

pub(crate) fn location_text(alloc: Global, location: Loc) -> Result<String, AllocError> {
    match location {
        Loc::Half(register, half) => format!(in alloc; "{register:?}{}", letter(half)),
        Loc::Flag(flag) => format!(in alloc; "{flag:?}"),
        Loc::Cell(number, half) => format!(in alloc; "c{number}{}", letter(half)),
        Loc::Temp(number) => format!(in alloc; "t{number}"),
    }
}

// The locations, one after another.
pub(crate) fn locations_text(alloc: Global, locations: &[Loc]) -> Result<String, AllocError> {
    let mut texts = Vec::new(alloc);
    for location in locations {
        texts.push(location_text(alloc, *location)?)?;
    }
    joined(alloc, texts.as_slice(), " ")
}

// The expression; a part has the number of its first bit after it, and the high half of a number stands first.
fn expr_text(alloc: Global, e: &Expr) -> Result<String, AllocError> {
    match e {
        Expr::Get(location) => location_text(alloc, *location),
        Expr::Join(high, low) => {
            let high = expr_text(alloc, high)?;
            let low = expr_text(alloc, low)?;
            format!(in alloc; "{high}:{low}")
        }
        Expr::Part(_, first, whole) => {
            let whole = expr_text(alloc, whole)?;
            format!(in alloc; "{whole}/{first}")
        }
        Expr::Const(_, number) => format!(in alloc; "{number}"),
        _ => format!(in alloc; "computed"),
    }
}

// The expressions with commas between them.
fn exprs_text(alloc: Global, expressions: &[Expr]) -> Result<String, AllocError> {
    let mut texts = Vec::new(alloc);
    for e in expressions {
        texts.push(expr_text(alloc, e)?)?;
    }
    joined(alloc, texts.as_slice(), ", ")
}

fn put_text(alloc: Global, put: Put) -> Result<String, AllocError> {
    match put {
        Put::Memory => format!(in alloc; "memory"),
        Put::One(location) => location_text(alloc, location),
        Put::Two(low, high) => {
            let high = location_text(alloc, high)?;
            let low = location_text(alloc, low)?;
            format!(in alloc; "{high}:{low}")
        }
    }
}

// The params with commas between them.
fn params_text(alloc: Global, params: &[Param]) -> Result<String, AllocError> {
    let mut texts = Vec::new(alloc);
    for param in params {
        let kind = if param.stack { "stack " } else { "" };
        let put = put_text(alloc, param.put)?;
        texts.push(format!(in alloc; "{kind}{put}")?)?;
    }
    joined(alloc, texts.as_slice(), ", ")
}

// The entry and the params of a graph.
fn head_text(alloc: Global, graph: &Graph) -> Result<String, AllocError> {
    let params = params_text(alloc, graph.params.as_slice())?;
    format!(in alloc; "{:04x}({params})", graph.entry)
}

// The call, and the assignments after it.
fn push_call(alloc: Global, block: &Block, texts: &mut Vec<String>) -> Result<(), AllocError> {
    let mut is_called = false;
    for stmt in &block.stmts {
        match stmt {
            Stmt::Call {
                results,
                entry,
                arguments,
                ..
            } => {
                let to = locations_text(alloc, results.as_slice())?;
                let from = exprs_text(alloc, arguments.as_slice())?;
                texts.push(format!(in alloc; "{to} = {entry:04x}({from})")?)?;
                is_called = true;
            }
            Stmt::Set { place, value } if is_called => {
                let to = location_text(alloc, *place)?;
                let from = expr_text(alloc, value)?;
                texts.push(format!(in alloc; "{to} = {from}")?)?;
            }
            _ => {}
        }
    }
    Ok(())
}

// The head of a graph, then its calls, the assignments after each, and its returns.
fn graph_text(alloc: Global, graph: &Graph) -> Result<String, AllocError> {
    let mut texts = Vec::new(alloc);
    texts.push(head_text(alloc, graph)?)?;
    for block in &graph.blocks {
        push_call(alloc, block, &mut texts)?;
        if let End::Ret(values) = &block.end {
            let values = exprs_text(alloc, values.as_slice())?;
            texts.push(format!(in alloc; "ret {values}")?)?;
        }
    }
    joined(alloc, texts.as_slice(), "; ")
}

// The texts of all graphs, in their order.
pub(crate) fn graph_texts(alloc: Global, graphs: &[Graph]) -> Result<Vec<String>, AllocError> {
    let mut texts = Vec::new(alloc);
    for graph in graphs {
        texts.push(graph_text(alloc, graph)?)?;
    }
    Ok(texts)
}
