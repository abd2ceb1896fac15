//! From the statements of a function to its points, the last statement first, so that the points after a statement
//! are known.

ghost use Rattle.std.specs.Prelude.{◌≡◌, ℕ, Bool, if◌then◌else◌, List, map, Option, None, Some, IfOk, MatchOption};
ghost use Rattle.std.specs.Prelude.{string_bytes, slice_get, option_map};
ghost use Rattle.dcc_c.specs.Tree.{Lines, line as before_lines, Arms, Assign, If, While, DoWhile, Forever};
ghost use Rattle.dcc_c.specs.Tree.{Switch, Goto, Label, Return, Function, Tree};
ghost use Rattle.dcc_c.specs.Run.{Continuation, runs, tests, from_label, from_label_inside, from_label_in_arms};
ghost use Rattle.dcc_c.specs.Run.{default_body, ends_switch, State, step_at, jump_step, goes_on};
ghost use Rattle.dcc_c.specs.Dos.{dos_of};
ghost use Rattle.dcc_c.specs.Views.{expr_of, stmt_of, lines_of, arms_of, arms_if};
ghost use Rattle.dcc_prepare.specs.Lines.{next_line, IsLine};
ghost use Rattle.dcc_prepare.specs.Points.{Goes, MayGo, AreRows, IsCallee, StandsIf, StandAll, dos_call};
ghost use Rattle.dcc_value.specs.Resolved.{names_of};
ghost use Rattle.dcc_prepare.specs.Emission.{Emits, EmitsAlone, EmitsArms, EmitsIn, EmitsBefore, EmitsStmt, Leads};
ghost use Rattle.dcc_prepare.specs.Emission.{IsContext, function_names};
ghost use Rattle.dcc_value.specs.Places.{AreFirst};

use crate::code::{Code, Context, resolve_all, resolve_option};
use crate::program::{Action, CallRow, Callee, Case, Dos};
use dcc_c::{Arm, CExpr, CStmt, Line};
use dcc_value::places::place_of;
use dcc_value::resolve::resolve;
use std::alloc::{AllocError, Global};
use std::collections::BTreeMap;

/// The points after a statement.
#[derive(Clone, Copy)]
pub struct Following {
    /// Where the next statement begins.
    pub next: usize,
    /// Where `break` leads.
    pub on_break: Option<usize>,
    /// Where `continue` leads.
    pub on_continue: Option<usize>,
}

/// What a statement tests, and the line of the statement.
#[derive(Clone, Copy)]
struct Tested<'a> {
    e: &'a CExpr,
    line: u32,
}

impl Following {
    // The points after a statement in the body of a loop: where its next turn begins, and where it is left.
    fn in_loop(turn: usize, left: usize) -> Following
        ensures { result ≡ record { next = turn; on_break = Some left; on_continue = Some turn } }
    {
        Following {
            next: turn,
            on_break: Some(left),
            on_continue: Some(turn),
        }
    }

    // The points after a statement in an arm of a `switch`: `break` leads past the `switch`.
    fn inside_switch(self) -> Following
        ensures { result ≡ record { next = self.next; on_break = Some self.next; on_continue = self.on_continue } }
    {
        Following {
            on_break: Some(self.next),
            ..self
        }
    }
}

/// Makes the points of statements. The answer is the point where they begin.
#[cycle(emit)]
pub(crate) fn emit_lines<'a>(
    context: &Context<'_, '_, '_>,
    lines: &'a [Line],
    following: Following,
    code: &mut Code<'a>,
) -> Result<usize, AllocError>
    ensures { (rest : Continuation) → EmitsBefore context.now code.old code.new result following rest
        (λ word. from_label word (lines_of lines.now) rest) (runs (lines_of lines.now) rest) }
{
    let mut following = following;
    let mut i = lines.len();
    while i > 0 {
        i -= 1;
        let line = &lines[i];
        following.next = emit_stmt(context, &line.stmt, line.line, following, code)?;
    }
    Ok(following.next)
}

// Makes the points of a statement. The answer is the point where it begins.
#[cycle(emit)]
fn emit_stmt<'a>(
    context: &Context<'_, '_, '_>,
    stmt: &'a CStmt,
    line: u32,
    following: Following,
    code: &mut Code<'a>,
) -> Result<usize, AllocError>
    ensures { (lines : Lines) (rest : Continuation) →
        EmitsBefore context.now code.old code.new result following (runs lines rest)
        (λ word. from_label_inside word (stmt_of stmt.now) line lines rest)
        (runs (before_lines (stmt_of stmt.now) line lines) rest) }
{
    let next = following.next;
    match stmt {
        CStmt::Assign(place, e) => emit_assign(context, place, e, line, following.next, code),
        CStmt::Call(place, function, arguments, depth) => {
            let name = function.as_str();
            let row = call_row(context, place, name, arguments, *depth, following.next)?;
            code.push(line, Action::Call(row))
        }
        CStmt::If(e, body, otherwise) => {
            let no = emit_lines(context, otherwise, following, code)?;
            emit_if(context, &Tested { e, line }, body, no, following, code)
        }
        CStmt::While(e, body) => { emit_loop(context, &Tested { e, line }, true, body, next, code) }
        CStmt::DoWhile(body, e) => {
            emit_loop(context, &Tested { e, line }, false, body, next, code)
        }
        CStmt::Forever(body) => emit_forever(context, body, line, following.next, code),
        CStmt::Switch(e, arms, last) => {
            let inside = following.inside_switch();
            let otherwise = emit_default(context, last, inside, code)?;
            emit_switch(context, &Tested { e, line }, arms, otherwise, inside, code)
        }
        CStmt::Break => emit_jump(line, following.on_break, code),
        CStmt::Continue => emit_jump(line, following.on_continue, code),
        CStmt::Goto(name) => emit_goto(context.alloc, name.as_str(), line, code),
        CStmt::Label(name) => emit_label(context.alloc, name.as_str(), line, following.next, code),
        CStmt::Empty => code.push(line, Action::Pass(following.next)),
        CStmt::Return(e) => emit_return(context, e, line, code),
    }
}

// Makes the point of an assignment.
fn emit_assign(
    context: &Context<'_, '_, '_>,
    place: &CExpr,
    e: &CExpr,
    line: u32,
    next: usize,
    code: &mut Code<'_>,
) -> Result<usize, AllocError>
    ensures { EmitsStmt context.now code.old code.new result next
        (Assign (expr_of place.now) (expr_of e.now)) line }
{
    let place = resolve(context.alloc, context.names, place)?;
    let value = resolve(context.alloc, context.names, e)?;
    code.push(line, Action::Assign(place, value, next))
}

// A call of the function or the DOS call with the name.
fn call_row(
    context: &Context<'_, '_, '_>,
    place: &Option<CExpr>,
    name: &str,
    arguments: &[CExpr],
    depth: u32,
    next: usize,
) -> Result<CallRow, AllocError>
    ensures place { IfOk result
        (λ row. StandsIf (names_of context.now.names.now) (option_map expr_of place.now) row.place) }
    ensures callee { (tree : Tree) → AreFirst context.now.functions.now (function_names tree) →
        IfOk result (λ row. IsCallee tree name.now row.callee) }
    ensures arguments { IfOk result
        (λ row. StandAll (names_of context.now.names.now) (map expr_of arguments.now) row.arguments.items) }
    ensures depth { IfOk result (λ row. row.depth ≡ depth) }
    ensures next { IfOk result (λ row. row.next ≡ next) }
{
    Ok(CallRow {
        place: resolve_option(context.alloc, context.names, place)?,
        callee: callee(context.functions, name),
        arguments: resolve_all(context.alloc, context.names, arguments)?,
        depth,
        next,
    })
}

// Makes the points of the body of an `if`, where the point of its other body is given, and then that of its test. The
// answer is the point of the test.
#[cycle(emit)]
fn emit_if<'a>(
    context: &Context<'_, '_, '_>,
    test: &Tested<'_>,
    body: &'a [Line],
    no: usize,
    following: Following,
    code: &mut Code<'a>,
) -> Result<usize, AllocError>
    ensures { (otherwise lines : Lines) (rest : Continuation) → EmitsIn context.now code.old code.new result
        (λ tree points. Leads tree points following (runs lines rest)
        × Goes tree points no (runs otherwise (runs lines rest)))
        (λ word. from_label word (lines_of body.now) (runs lines rest))
        (runs (before_lines (If (expr_of test.now.e.now) (lines_of body.now) otherwise) test.now.line lines) rest) }
{
    let yes = emit_lines(context, body, following, code)?;
    let value = resolve(context.alloc, context.names, test.e)?;
    code.push(test.line, Action::Test(value, yes, no))
}

// Makes the points of a `while`, or else of a `do`. The answer is the point where the loop begins.
#[cycle(emit)]
fn emit_loop<'a>(
    context: &Context<'_, '_, '_>,
    test: &Tested<'_>,
    tests_first: bool,
    body: &'a [Line],
    next: usize,
    code: &mut Code<'a>,
) -> Result<usize, AllocError>
    ensures { EmitsStmt context.now code.old code.new result next
        (if tests_first then While (expr_of test.now.e.now) (lines_of body.now)
        else DoWhile (lines_of body.now) (expr_of test.now.e.now)) test.now.line }
{
    let yes = emit_repeated(context, test, body, next, code)?;
    if tests_first {
        let value = resolve(context.alloc, context.names, test.e)?;
        code.push(test.line, Action::Test(value, yes, next))
    } else {
        code.push(test.line, Action::Pass(yes))
    }
}

// Makes the points of the arms of a `switch`, where the point of its default arm is given, and then that of its value.
// The answer is the point of the value.
#[cycle(emit)]
fn emit_switch<'a>(
    context: &Context<'_, '_, '_>,
    test: &Tested<'_>,
    arms: &'a [Arm],
    otherwise: usize,
    inside: Following,
    code: &mut Code<'a>,
) -> Result<usize, AllocError>
    ensures { (last : Arms) (lines : Lines) (rest : Continuation) → EmitsIn context.now code.old code.new result
        (λ tree points. Leads tree points inside (ends_switch (runs lines rest))
        × Goes tree points otherwise (runs (default_body last) (ends_switch (runs lines rest))))
        (λ word. from_label_in_arms word (arms_of arms.now) (ends_switch (runs lines rest)))
        (runs (before_lines (Switch (expr_of test.now.e.now) (arms_of arms.now) last) test.now.line lines) rest) }
{
    let cases = emit_arms(context, arms, inside, code)?;
    let value = resolve(context.alloc, context.names, test.e)?;
    code.push(test.line, Action::Switch(value, cases, otherwise))
}

// Makes the point of a `goto`.
fn emit_goto<'a>(
    alloc: Global,
    name: &'a str,
    line: u32,
    code: &mut Code<'a>,
) -> Result<usize, AllocError>
    ensures { EmitsAlone code.old code.new result (λ tree points after. Unit {0}) (Goto name.now) line }
{
    let label = code.label(alloc, name)?;
    code.push(line, Action::Goto(label))
}

// Makes the point of a label, which then stands there.
fn emit_label<'a>(
    alloc: Global,
    name: &'a str,
    line: u32,
    next: usize,
    code: &mut Code<'a>,
) -> Result<usize, AllocError>
    ensures { EmitsAlone code.old code.new result
        (λ tree points after. Goes tree points next after) (Label name.now) line }
{
    let point = code.push(line, Action::Pass(next))?;
    code.place_label(alloc, name, point)?;
    Ok(point)
}

// Makes the point of a `return`.
fn emit_return(
    context: &Context<'_, '_, '_>,
    e: &Option<CExpr>,
    line: u32,
    code: &mut Code<'_>,
) -> Result<usize, AllocError>
    ensures { (tree : Tree) (f : Function) (is_open : ℕ → Bool) (points : List Continuation)
        (lines : Lines) (rest : Continuation) →
        IsContext context.now tree f → AreRows tree f is_open points code.old.rows.items code.old.labels.items →
        IfOk result (λ at. Emits tree f is_open points code.old code.new
        (λ word. None) at (runs (before_lines (Return (option_map expr_of e.now)) line lines) rest)) }
{
    let value = resolve_option(context.alloc, context.names, e)?;
    code.push(line, Action::Return(value))
}

// Makes the point of a jump to a point, where there is one.
fn emit_jump(line: u32, to: Option<usize>, code: &mut Code<'_>) -> Result<usize, AllocError>
    ensures { (tree : Tree) (f : Function) (is_open : ℕ → Bool) (points : List Continuation)
        (own following : Continuation) (target : Option Continuation) →
        AreRows tree f is_open points code.old.rows.items code.old.labels.items →
        IsLine (next_line own) line → MayGo tree points to target →
        ((s : State) → step_at tree own s ≡ jump_step target line (goes_on following s)) →
        IfOk result (λ at. Emits tree f is_open points code.old code.new (λ word. None) at own) }
{
    match to {
        Some(point) => code.push(line, Action::Pass(point)),
        None => code.push(line, Action::Stuck),
    }
}

// Makes the points of a body that is executed again as long as the value is not 0, and then that of its test. The
// answer is the point where the body begins.
#[cycle(emit)]
fn emit_repeated<'a>(
    context: &Context<'_, '_, '_>,
    test: &Tested<'_>,
    body: &'a [Line],
    next: usize,
    code: &mut Code<'a>,
) -> Result<usize, AllocError>
    ensures { (rest : Continuation) →
        let turn = tests (expr_of test.now.e.now) (lines_of body.now) test.now.line rest in
        EmitsIn context.now code.old code.new result (λ tree points. Goes tree points next rest)
        (λ word. from_label word (lines_of body.now) turn) (runs (lines_of body.now) turn) }
{
    let turn = code.push(test.line, Action::Stuck)?;
    let yes = emit_lines(context, body, Following::in_loop(turn, next), code)?;
    let value = resolve(context.alloc, context.names, test.e)?;
    code.set(turn, test.line, Action::Test(value, yes, next));
    Ok(yes)
}

// Makes the points of a `for` in its line: one for its turns, at which it begins, and those of its body. The answer is
// the point of the turns.
#[cycle(emit)]
fn emit_forever<'a>(
    context: &Context<'_, '_, '_>,
    body: &'a [Line],
    line: u32,
    next: usize,
    code: &mut Code<'a>,
) -> Result<usize, AllocError>
    ensures { EmitsStmt context.now code.old code.new result next (Forever (lines_of body.now)) line }
{
    let turn = code.push(line, Action::Stuck)?;
    let first = emit_lines(context, body, Following::in_loop(turn, next), code)?;
    code.set(turn, line, Action::Pass(first));
    Ok(turn)
}

// Makes the points of the arms of a `switch`, the last arm first.
#[cycle(emit)]
fn emit_arms<'a>(
    context: &Context<'_, '_, '_>,
    arms: &'a [Arm],
    following: Following,
    code: &mut Code<'a>,
) -> Result<Vec<Case>, AllocError>
    ensures { (tree : Tree) (f : Function) (is_open : ℕ → Bool) (points : List Continuation)
        (rest : Continuation) →
        IsContext context.now tree f →
        AreRows tree f is_open points code.old.rows.items code.old.labels.items →
        Leads tree points following rest →
        IfOk result (λ cases. EmitsArms tree f is_open points code.old code.new
        (λ word. from_label_in_arms word (arms_of arms.now) rest) cases.items (arms_of arms.now) rest) }
{
    let mut cases = Vec::new(context.alloc);
    let mut i = arms.len();
    while i > 0 {
        i -= 1;
        let arm = &arms[i];
        let point = emit_lines(context, &arm.body, following, code)?;
        let values = arm.cases.to_vec(context.alloc)?;
        cases.push(Case { values, point })?;
    }
    Ok(cases)
}

// Makes the points of the default arm of a `switch`, where there is one. The answer is the point where it begins.
#[cycle(emit)]
fn emit_default<'a>(
    context: &Context<'_, '_, '_>,
    last: &'a Option<Arm>,
    following: Following,
    code: &mut Code<'a>,
) -> Result<usize, AllocError>
    ensures { (rest : Continuation) → EmitsBefore context.now code.old code.new result following rest
        (λ word. from_label_in_arms word (arms_if last.now) rest) (runs (default_body (arms_if last.now)) rest) }
{
    match last {
        Some(arm) => emit_lines(context, &arm.body, following, code),
        None => Ok(following.next),
    }
}

// What has the name: a DOS call, or else the first of the functions with it.
fn callee(functions: &BTreeMap<&str, usize>, name: &str) -> Callee
    ensures { (tree : Tree) → AreFirst functions.now (function_names tree) → IsCallee tree name.now result }
{
    match dos_of(name) {
        Some(dos) => Callee::Dos(dos),
        None => match place_of(functions, name) {
            Some(number) => Callee::Function(number),
            None => Callee::Unknown,
        },
    }
}

// The DOS call with the name.
fn dos_of(name: &str) -> Option<Dos>
    ensures { option_map dos_call result ≡ dos_of name.now }
{
    match name {
        "dos_putc" => Some(Dos::Putc),
        "dos_getche" => Some(Dos::Getche),
        "dos_getch" => Some(Dos::Getch),
        "dos_puts" => Some(Dos::Puts),
        "dos_exit" => Some(Dos::Leave),
        _ => None,
    }
}
