//! Whether a graph takes addresses in its frame.

ghost use Rattle.std.specs.Prelude.{◌≡◌};
ghost use Rattle.std.specs.List.{list_any};
ghost use Rattle.dcc_ir.specs.Views.{expr_of, stmt_of, exit_of, block_of, graph_of};
ghost use Rattle.dcc_ir.specs.Use.{exit_exprs};
ghost use Rattle.dcc_variables.specs.Variables as spec;

use dcc_ir::{Block, End, Expr, Graph, Stmt};

/// Whether the address at a distance from the frame's base is told from the parameter at a place.
pub(crate) fn is_told_from(told: Option<usize>, distance: u16) -> bool
    ensures { result ≡ spec.is_told_from told distance }
{
    match told {
        Some(place) => place <= usize::from(distance) / 2 && distance < 32768,
        None => false,
    }
}

// Whether an address that is told from no parameter is taken in the expression.
#[tactic(auto, using(crate::proofs::AddressLaws::any_rules))]
fn has_address(told: Option<usize>, e: &Expr) -> bool
    ensures { result ≡ spec.has_address told (expr_of e.now) }
{
    match e {
        Expr::Const(..) | Expr::Get(_) => false,
        Expr::Address(distance) => !is_told_from(told, *distance),
        Expr::Load(_, address) => has_address(told, address),
        Expr::Un(_, _, operand) | Expr::Widen(_, _, operand) | Expr::Part(_, _, operand) => {
            has_address(told, operand)
        }
        Expr::Bin(_, _, left, right) => has_address(told, left) || has_address(told, right),
        Expr::Join(high, low) => has_address(told, high) || has_address(told, low),
        Expr::Choose(test, one, other) => {
            has_address(told, test) || has_address(told, one) || has_address(told, other)
        }
    }
}

// Whether an address that is told from no parameter is taken in one of the expressions.
fn have_address(told: Option<usize>, es: &[Expr]) -> bool
    ensures { result ≡ list_any (λ e. spec.has_address told (expr_of e)) es.now }
{
    es.iter().any(|e| has_address(told, e))
}

// Whether an address that is told from no parameter is taken in the statement.
#[tactic(auto, using(crate::proofs::AddressLaws::any_rules))]
fn stmt_has_address(told: Option<usize>, stmt: &Stmt) -> bool
    ensures { result ≡ spec.stmt_has_address told (stmt_of stmt.now) }
{
    match stmt {
        Stmt::Set { value, .. } => has_address(told, value),
        Stmt::Load { address, .. } => has_address(told, address),
        Stmt::Store { address, value, .. } => has_address(told, address)
            || has_address(told, value),
        Stmt::Div { division, .. } => has_address(told, division),
        Stmt::Call { arguments, .. } => have_address(told, arguments.as_slice()),
        Stmt::Dos { argument, .. } => match argument {
            Some(e) => has_address(told, e),
            None => false,
        },
    }
}

// Whether an address that is told from no parameter is taken at the end of a block.
#[tactic(auto, using(crate::proofs::AddressLaws::any_rules))]
fn end_has_address(told: Option<usize>, end: &End) -> bool
    ensures { result ≡ list_any (spec.has_address told) (exit_exprs (exit_of end.now)) }
{
    match end {
        End::If { test, .. } => has_address(told, test),
        End::Switch { value, .. } => has_address(told, value),
        End::Ret(values) => have_address(told, values.as_slice()),
        End::Goto(_) | End::Stop => false,
    }
}

// Whether an address that is told from no parameter is taken in one of the statements.
fn have_address_within(told: Option<usize>, stmts: &[Stmt]) -> bool
    ensures { result ≡ list_any (λ stmt. spec.stmt_has_address told (stmt_of stmt)) stmts.now }
{
    stmts.iter().any(|stmt| stmt_has_address(told, stmt))
}

// Whether an address that is told from no parameter is taken in the block.
#[tactic(auto, using(crate::proofs::AddressLaws::any_rules))]
fn block_has_address(told: Option<usize>, block: &Block) -> bool
    ensures { result ≡ spec.block_has_address told (block_of block.now) }
{
    have_address_within(told, block.stmts.as_slice()) || end_has_address(told, &block.end)
}

// Whether an address that is told from no parameter is taken in one of the blocks.
fn have_address_inside(told: Option<usize>, blocks: &[Block]) -> bool
    ensures { result ≡ list_any (λ b. spec.block_has_address told (block_of b)) blocks.now }
{
    blocks.iter().any(|block| block_has_address(told, block))
}

// Whether an address that is told from no parameter is taken in the graph.
#[tactic(auto, using(crate::proofs::AddressLaws::any_rules))]
fn takes_address(told: Option<usize>, graph: &Graph) -> bool
    ensures { result ≡ spec.takes_address told (graph_of graph.now) }
{
    have_address_inside(told, graph.blocks.as_slice())
}

/// How many bytes the array of the frame has: the frame's local bytes in memory; where there are none, 1 if the graph
/// takes an address that is told from no parameter, else 0. `told` is the place of the parameter from which addresses
/// of arguments are told.
pub(crate) fn frame_bytes(told: Option<usize>, graph: &Graph) -> u16
    ensures { result ≡ spec.frame_bytes told (graph_of graph.now) }
{
    if graph.local != 0 {
        graph.local
    } else if takes_address(told, graph) {
        1
    } else {
        0
    }
}
