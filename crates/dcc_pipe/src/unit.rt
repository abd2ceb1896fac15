//! The text of a program: a function for each graph.

ghost use Rattle.std.specs.Prelude.{◌≡◌, ◌++◌, IfOk, OnOk, All, map, string_bytes};
ghost use Rattle.std.specs.List.{AllZip};
ghost use Rattle.dcc_ir.specs.Views.{graph_of, program_of};
ghost use Rattle.dcc_ir.specs.WellFormed.{IsGraph, IsProgram};
ghost use Rattle.dcc_c.specs.Views.{function_of, lines_of, tree_of};
ghost use Rattle.dcc_variables.specs.Functions.{function_shape};
ghost use Rattle.dcc_variables.specs.Views.{shape_in};
ghost use Rattle.dcc_variables.specs.FunctionLaws.{HasFewNames};
ghost use Rattle.dcc_control.specs.Views.{plan_of};
ghost use Rattle.dcc_pipe.specs.GlobalData.{globals_in};
ghost use Rattle.dcc_pipe.specs.WholeText as spec;
ghost use Rattle.dcc_pipe.specs.WholeText.{IsWholeText};
ghost use Rattle.dcc_pipe.specs.WrittenFunctions.{IsFunctionBy, IsOwnFunction, AreFunctionsBy};
ghost use Rattle.dcc_pipe.specs.Lines.{fresh_line};

use crate::control::control_of;
use dcc_c::{CStmt, Func, Line, Unit};
use dcc_control::Item;
use dcc_globals::globals;
use dcc_ir::{Graph, IrProgram};
use dcc_live::live_at_start;
use dcc_plan::plan_text::plan_text;
use dcc_prog::Proc;
use dcc_variables::{Head, function_name, openings, result_type};
use std::alloc::{AllocError, Global};

// Each statement in a line that is not counted yet.
fn fresh_lines(alloc: Global, stmts: Vec<CStmt>) -> Result<Vec<Line>, AllocError>
    ensures { IfOk result (λ lines. lines.items ≡ map fresh_line stmts.items) }
{
    let mut lines = Vec::new(alloc);
    for stmt in stmts {
        lines.push(Line { stmt, line: 0 })?;
    }
    Ok(lines)
}

// The first lines, and then the second ones.
fn joined(first: Vec<Line>, second: Vec<Line>) -> Result<Vec<Line>, AllocError>
    ensures { IfOk result (λ lines. lines.items ≡ first.items ++ second.items) }
{
    let mut lines = first;
    for line in second {
        lines.push(line)?;
    }
    Ok(lines)
}

// The body of a graph's function, which has this head: the assignments that open the bytes of arguments that are live
// where it begins, and the text of the plan.
fn body(alloc: Global, head: &Head, graph: &Graph, plan: &[Item]) -> Result<Vec<Line>, AllocError>
    requires graph { IsGraph (graph_of graph.now) }
    requires shape { shape_in head.now.variables ≡ function_shape (graph_of graph.now) }
    requires params { head.now.params.items ≡ (graph_of graph.now).params }
    ensures { IfOk result (λ lines. lines_of lines.items ≡ spec.body_of (plan_of plan.now) (graph_of graph.now)) }
{
    let wanted = live_at_start(alloc, graph)?;
    let first = openings(alloc, head, wanted.as_slice())?;
    let first = fresh_lines(alloc, first)?;
    let second = plan_text(alloc, head, graph, plan)?;
    joined(first, second)
}

// The function of a graph with this name, by its plan for a text, its lines not counted yet.
fn function(alloc: Global, name: String, graph: &Graph) -> Result<Func, AllocError>
    requires { IsGraph (graph_of graph.now) }
    ensures function { IfOk result (λ f. IsFunctionBy (string_bytes name) (graph_of graph.now) (function_of f)) }
    ensures few { OnOk result (HasFewNames (graph_of graph.now)) }
{
    let head = Head::of(alloc, graph)?;
    let plan = control_of(alloc, graph)?;
    Ok(Func {
        name,
        result: result_type(graph)?,
        params: head.parameters(alloc)?,
        locals: head.declarations(alloc)?,
        body: body(alloc, &head, graph, plan.as_slice())?,
        last: 0,
    })
}

// The functions of the graphs after the first.
fn other_functions(alloc: Global, graphs: &[Graph]) -> Result<Vec<Func>, AllocError>
    requires { All (λ graph. IsGraph (graph_of graph)) graphs.now }
    ensures functions { IfOk result
        (λ funcs. AllZip IsOwnFunction (map graph_of graphs.now) (map function_of funcs.items)) }
    ensures few { OnOk result (All (λ graph. HasFewNames (graph_of graph)) graphs.now) }
{
    let mut funcs = Vec::new(alloc);
    for graph in graphs {
        let name = function_name(alloc, graph.entry)?;
        funcs.push(function(alloc, name, graph)?)?;
    }
    Ok(funcs)
}

// The function of the first graph, which is `start`, and those of the others.
fn all_functions(alloc: Global, graphs: &[Graph]) -> Result<Vec<Func>, AllocError>
    requires { All IsGraph (map graph_of graphs.now) }
    ensures functions { IfOk result
        (λ funcs. AreFunctionsBy (map graph_of graphs.now) (map function_of funcs.items)) }
    ensures few { OnOk result (All HasFewNames (map graph_of graphs.now)) }
{
    let mut funcs = Vec::new(alloc);
    let Some((first, others)) = graphs.split_first() else {
        return Ok(funcs);
    };
    let start = String::from_str(alloc, "start")?;
    funcs.push(function(alloc, start, first)?)?;
    let mut rest = other_functions(alloc, others)?;
    funcs.append(&mut rest)?;
    Ok(funcs)
}

/// The text of a program, whose lines are not counted yet: the global variables for its data segment, as the memory
/// operands of these procedures access it, and a function for each graph, with a variable for each location that it reads or writes, an array for the bytes of its frame that are
/// in memory, and the text of a plan of the graph. Numbers that 32 bits can't hold are told as want of memory.
pub(crate) fn unit_of(alloc: Global, p: &IrProgram, procs: &[Proc]) -> Result<Unit, AllocError>
    requires { IsProgram (program_of p.now) }
    ensures text { IfOk result
        (λ unit. IsWholeText (globals_in procs.now (program_of p.now)) (program_of p.now) (tree_of unit)) }
    ensures few { OnOk result (All HasFewNames (program_of p.now).graphs) }
{
    Ok(Unit {
        version: 1,
        lo: p.lo,
        hi: p.hi,
        globals: globals(alloc, p.image.as_slice(), p.lo, p.hi, procs)?,
        funcs: all_functions(alloc, p.graphs.as_slice())?,
    })
}
