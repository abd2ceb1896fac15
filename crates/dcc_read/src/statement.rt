//! Reading statements.

ghost use Rattle.std.specs.Prelude.{◌≡◌, ◌&&◌, not, ◌+◌, ◌≤◌, ◌<◌, ℕ, if◌then◌else◌, suc, IfOk, true, false, is_some};
ghost use Rattle.std.specs.Prelude.{map};
ghost use Rattle.dcc_c.specs.Grammar as grammar;
ghost use Rattle.dcc_c.specs.Partial as partial;
ghost use Rattle.dcc_c.specs.Reading as reading;
ghost use Rattle.dcc_c.specs.ReadingStatements as statements;
ghost use Rattle.dcc_reader.specs.AroundViews.{around_of};
ghost use Rattle.dcc_read.specs.Lines.{block_of, after_line, take_forever, while_stmt, do_while_stmt, forever_stmt};
ghost use Rattle.dcc_read.specs.Lines.{wordless_stmt, switch_stmt, depth_line, label_line, arm_read};
ghost use Rattle.dcc_reader.specs.PartialViews.{expr_of, stmt_of, lines_of, arm_before, arms_of};
ghost use Rattle.dcc_reader.specs.ReaderViews.{reader_of};

use crate::arm::{begins_arm, read_arm_head};
use crate::call::read_simple;
use crate::expression::read_test;
use crate::short::{read_goto, read_leave, read_return};
use crate::{Got, GotStmt};
use dcc_lex::{Head, Keyword, Mark};
use dcc_reader::list::push_some;
use dcc_reader::pragma::read_depth;
use dcc_reader::spare::without_spare;
use dcc_reader::{Around, ParseKind, PartialArm, PartialStmt, Reader, Row, StatementWord};
use std::alloc::Global;

/// Statements one after the other.
#[derive(Drop)]
pub(crate) struct Block<'a> {
    /// The statements.
    pub(crate) lines: Vec<Row<'a>>,
    /// Whether the last statement is a `break` that no label stands before.
    pub(crate) leaves: bool,
}

/// What was read where a statement may begin.
#[derive(Drop)]
struct LineRead<'a> {
    /// The label or the statement, where there is one.
    row: Option<Row<'a>>,
    /// Whether no statement may follow what was read.
    is_last: bool,
    /// Whether a label was read.
    labelled: bool,
    /// Whether a `break` was read that no label stands before.
    leaves: bool,
}

// What was read where nothing that begins here is allowed.
fn last_line<'a>() -> LineRead<'a>
    ensures { (calls : ℕ) (around : grammar.Around) (r : reading.Reader) →
        after_line result calls around r ≡ reading.got (statements.block_of partial.no_rows false) r }
{
    LineRead {
        row: None,
        is_last: true,
        labelled: false,
        leaves: false,
    }
}

// Whether a statement that holds blocks begins here.
fn begins_block_stmt(r: &Reader<'_>) -> bool
    ensures { result ≡ statements.is_block_word (reading.next_token (reader_of r.now)) }
{
    match r.statement_word() {
        Some(word) => word.holds_blocks(),
        None => false,
    }
}

// Whether a statement that holds blocks begins here, and more than 200 blocks stand around it.
fn begins_nested_block(r: &Reader<'_>, around: Around) -> bool
    ensures { result
        ≡ statements.is_nested (around_of around) && statements.is_block_word (reading.next_token (reader_of r.now)) }
{
    around.is_nested() && begins_block_stmt(r)
}

// Whether a statement begins here with a keyword.
fn sees_statement_word(r: &Reader<'_>) -> bool
    ensures { result ≡ statements.is_statement_word (reading.next_token (reader_of r.now)) }
{
    r.statement_word().is_some()
}

// Whether a statement, a label or a depth line begins here.
fn begins_stmt(r: &Reader<'_>) -> bool
    ensures { result ≡ statements.begins_stmt (reading.next_token (reader_of r.now)) }
{
    if sees_statement_word(r) || r.name().is_some() {
        return true;
    }
    r.sees_mark(Mark::Star) || r.sees_mark(Mark::Semicolon) || r.sees_head(Head::Depth)
}

// Takes `(;;)`, which must stand here.
fn take_forever(r: &mut Reader<'_>)
    ensures { reader_of r.new ≡ take_forever (reader_of r.old) }
{
    r.take_mark(Mark::OpenParenthesis);
    r.take_mark(Mark::Semicolon);
    r.take_mark(Mark::Semicolon);
    r.take_mark(Mark::CloseParenthesis);
}

// Whether the statement is a `break`.
fn is_break(stmt: &PartialStmt) -> bool
    ensures { result ≡ statements.is_break (stmt_of stmt.now) }
{
    matches!(stmt, PartialStmt::Break)
}

// Whether the statement is a `break` that no label stands before.
fn is_leaving(stmt: &PartialStmt, labelled: bool) -> bool
    ensures { result ≡ statements.is_break (stmt_of stmt.now) && not labelled }
{
    is_break(stmt) && !labelled
}

// Stops at the next piece where it is not allowed.
fn fail_if(r: &mut Reader<'_>, is_offence: bool)
    ensures { reader_of r.new ≡ (if is_offence then reading.fail (reader_of r.old) else reader_of r.old) }
{
    if is_offence {
        r.fail();
    }
}

// The end of statements where reading may nest at most once more. The answer is whether the last statement is a `break`
// that no label stands before.
fn end_lines(r: &mut Reader<'_>, calls: usize, labelled: bool, leaves: bool) -> bool
    requires { calls < 2 }
    ensures { (around : grammar.Around) → reading.got (statements.block_of partial.no_rows result) (reader_of r.new)
        ≡ statements.read_lines calls around labelled leaves (reader_of r.old) }
{
    if calls == 0 {
        return leaves;
    }
    if begins_stmt(r) {
        return false;
    }
    fail_if(r, labelled);
    leaves
}

// The statements of an arm without the last, which must be a `break`.
fn end_arm<'a>(r: &mut Reader<'_>, block: Block<'a>) -> Vec<Row<'a>>
    ensures { reading.got (lines_of result.items) (reader_of r.new)
        ≡ statements.end_arm (reading.got (block_of block.entry) (reader_of r.old)) }
{
    let mut lines = block.lines;
    if r.is_stopped() {
        return lines;
    }
    if block.leaves {
        lines.pop();
        return lines;
    }
    r.fail();
    lines
}

// Reads a depth line, the words of which stand here and which may not stand after a label.
fn read_depth_line<'a>(r: &mut Reader<'a>, around: Around, labelled: bool) -> LineRead<'a>
    requires seen { is_some (reading.next_token (reader_of r.old)) ≡ true }
    ensures { (calls : ℕ) → after_line result calls (around_of around) (reader_of r.new)
        ≡ depth_line calls (around_of around) labelled (reader_of r.old) }
{
    if labelled {
        r.fail();
        return last_line();
    }
    if around.is_nested() {
        r.stop_at(ParseKind::Depth, r.left.at);
        return last_line();
    }
    read_depth(r);
    LineRead {
        row: None,
        is_last: false,
        labelled: false,
        leaves: false,
    }
}

// Reads a label, which stands here.
fn read_label<'a>(r: &mut Reader<'a>, around: Around) -> LineRead<'a>
    requires begins { statements.begins_label (reader_of r.old) ≡ true }
    ensures { (calls : ℕ) → after_line result calls (around_of around) (reader_of r.new)
        ≡ label_line calls (around_of around) (reader_of r.old) }
{
    let at = r.left.at;
    let line = r.line();
    match r.take_name() {
        Some(word) => {
            r.skip();
            around.stop_if_nested(r, at);
            let stmt = PartialStmt::Label(word);
            let row = Some(Row { stmt, at, line });
            LineRead {
                row,
                is_last: false,
                labelled: true,
                leaves: false,
            }
        }
        None => last_line(),
    }
}

// Reads a statement without a word: `;`, an assignment or a call.
fn read_wordless<'a>(r: &mut Reader<'a>, alloc: Global, calls: usize) -> GotStmt<'a>
    ensures { IfOk result (λ stmt. reading.got (stmt_of stmt) (reader_of r.new)
        ≡ wordless_stmt calls (reader_of r.old)) }
{
    if r.sees_mark(Mark::Semicolon) {
        r.skip();
        return Ok(PartialStmt::Empty);
    }
    read_simple(r, alloc, calls)
}

// Reads a statement that is no label.
#[cycle(statement)]
fn read_stmt<'a>(r: &mut Reader<'a>, alloc: Global, calls: usize, around: Around) -> GotStmt<'a>
    requires room { around.blocks + calls ≤ usize.MAX }
    ensures { IfOk result (λ stmt. reading.got (stmt_of stmt) (reader_of r.new)
        ≡ statements.read_stmt calls (around_of around) (reader_of r.old)) }
{
    if calls == 0 {
        return Ok(PartialStmt::Empty);
    }
    let fewer = calls - 1;
    match r.statement_word() {
        Some(StatementWord::If) => read_if(r, alloc, fewer, around),
        Some(StatementWord::While) => read_while(r, alloc, fewer, around),
        Some(StatementWord::Do) => read_do(r, alloc, fewer, around),
        Some(StatementWord::For) => read_for(r, alloc, fewer, around),
        Some(StatementWord::Switch) => read_switch(r, alloc, fewer, around),
        Some(StatementWord::Break) => {
            read_leave(r, around.breaks);
            Ok(PartialStmt::Break)
        }
        Some(StatementWord::Continue) => {
            read_leave(r, around.continues);
            Ok(PartialStmt::Continue)
        }
        Some(StatementWord::Goto) => Ok(read_goto(r)),
        Some(StatementWord::Return) => read_return(r, alloc, fewer),
        None => read_wordless(r, alloc, fewer),
    }
}

// Reads an `if`, the word of which stands here.
#[cycle(statement)]
fn read_if<'a>(r: &mut Reader<'a>, alloc: Global, calls: usize, around: Around) -> GotStmt<'a>
    requires seen { is_some (reading.next_token (reader_of r.old)) ≡ true }
    requires room { around.blocks + calls < usize.MAX }
    ensures { IfOk result (λ stmt. reading.got (stmt_of stmt) (reader_of r.new)
        ≡ statements.read_if calls (around_of around) (statements.read_test calls (reading.skip (reader_of r.old)))) }
{
    r.skip();
    let test = read_test(r, alloc, calls)?;
    if calls == 0 {
        return Ok(PartialStmt::Empty);
    }
    let fewer = calls - 1;
    let done = !r.is_stopped();
    let body = read_block(r, alloc, fewer, around.in_block())?;
    if r.sees_word(Keyword::Else) {
        r.skip();
        let otherwise = read_block(r, alloc, fewer, around.in_block())?;
        return Ok(PartialStmt::If(test, done, body, otherwise));
    }
    Ok(PartialStmt::If(test, done, body, Vec::new(alloc)))
}

// Reads a `while` loop, the word of which stands here.
#[cycle(statement)]
fn read_while<'a>(r: &mut Reader<'a>, alloc: Global, calls: usize, around: Around) -> GotStmt<'a>
    requires seen { is_some (reading.next_token (reader_of r.old)) ≡ true }
    requires room { around.blocks + calls < usize.MAX }
    ensures { IfOk result (λ stmt. reading.got (stmt_of stmt) (reader_of r.new)
        ≡ while_stmt calls (around_of around) (reading.skip (reader_of r.old))) }
{
    r.skip();
    let test = read_test(r, alloc, calls)?;
    let done = !r.is_stopped();
    let body = read_block(r, alloc, calls, around.in_loop())?;
    Ok(PartialStmt::While(test, done, body))
}

// Reads a `do` loop, the word of which stands here.
#[cycle(statement)]
fn read_do<'a>(r: &mut Reader<'a>, alloc: Global, calls: usize, around: Around) -> GotStmt<'a>
    requires seen { is_some (reading.next_token (reader_of r.old)) ≡ true }
    requires room { around.blocks + calls < usize.MAX }
    ensures { IfOk result (λ stmt. reading.got (stmt_of stmt) (reader_of r.new)
        ≡ do_while_stmt calls (around_of around) (reading.skip (reader_of r.old))) }
{
    r.skip();
    let body = read_block(r, alloc, calls, around.in_loop())?;
    r.take_word(Keyword::While);
    let test = read_test(r, alloc, calls)?;
    let done = !r.is_stopped();
    r.take_mark(Mark::Semicolon);
    Ok(PartialStmt::DoWhile(body, test, done))
}

// Reads a loop without a test, the word of which stands here.
#[cycle(statement)]
fn read_for<'a>(r: &mut Reader<'a>, alloc: Global, calls: usize, around: Around) -> GotStmt<'a>
    requires seen { is_some (reading.next_token (reader_of r.old)) ≡ true }
    requires room { around.blocks + calls < usize.MAX }
    ensures { IfOk result (λ stmt. reading.got (stmt_of stmt) (reader_of r.new)
        ≡ forever_stmt calls (around_of around) (reading.skip (reader_of r.old))) }
{
    r.skip();
    take_forever(r);
    let body = read_block(r, alloc, calls, around.in_loop())?;
    Ok(PartialStmt::Forever(body))
}

// Reads a `switch`, the word of which stands here.
#[cycle(statement)]
fn read_switch<'a>(r: &mut Reader<'a>, alloc: Global, calls: usize, around: Around) -> GotStmt<'a>
    requires seen { is_some (reading.next_token (reader_of r.old)) ≡ true }
    requires room { around.blocks + calls < usize.MAX }
    ensures { IfOk result (λ stmt. reading.got (stmt_of stmt) (reader_of r.new)
        ≡ switch_stmt calls (around_of around) (reader_of r.old)) }
{
    r.skip();
    let test = read_test(r, alloc, calls)?;
    let done = !r.is_stopped();
    r.take_mark(Mark::OpenBrace);
    let arms = read_arms(r, alloc, calls, around.in_switch())?;
    r.take_mark(Mark::CloseBrace);
    Ok(PartialStmt::Switch(test, done, without_spare(arms)))
}

// Reads a block, which must stand here.
#[cycle(statement)]
fn read_block<'a>(
    r: &mut Reader<'a>,
    alloc: Global,
    calls: usize,
    around: Around,
) -> Got<Vec<Row<'a>>>
    requires room { around.blocks + calls ≤ usize.MAX }
    ensures { IfOk result (λ lines. reading.got (lines_of lines.items) (reader_of r.new)
        ≡ statements.read_block calls (around_of around) (reader_of r.old)) }
{
    if calls == 0 {
        return Ok(Vec::new(alloc));
    }
    r.take_mark(Mark::OpenBrace);
    let block = read_lines(r, alloc, calls - 1, around)?;
    r.take_mark(Mark::CloseBrace);
    Ok(without_spare(block.lines))
}

/// Reads statements as long as they come.
#[cycle(statement)]
pub(crate) fn read_lines<'a>(
    r: &mut Reader<'a>,
    alloc: Global,
    calls: usize,
    around: Around,
) -> Got<Block<'a>>
    requires room { around.blocks + calls ≤ usize.MAX }
    ensures { IfOk result (λ block. reading.got (block_of block) (reader_of r.new)
        ≡ statements.read_lines calls (around_of around) false false (reader_of r.old)) }
{
    let mut lines = Vec::new(alloc);
    let mut labelled = false;
    let mut leaves = false;
    let mut left = calls;
    while left > 1 {
        if !begins_stmt(r) {
            fail_if(r, labelled);
            return Ok(Block { lines, leaves });
        }
        left -= 2;
        let line = read_line(r, alloc, left, around, labelled)?;
        push_some(&mut lines, line.row)?;
        labelled = line.labelled;
        leaves = line.leaves;
        if line.is_last {
            return Ok(Block { lines, leaves });
        }
    }
    let leaves = end_lines(r, left, labelled, leaves);
    Ok(Block { lines, leaves })
}

// Reads a label, a depth line or a statement, one of which begins here.
#[cycle(statement)]
fn read_line<'a>(
    r: &mut Reader<'a>,
    alloc: Global,
    calls: usize,
    around: Around,
    labelled: bool,
) -> Got<LineRead<'a>>
    requires room { around.blocks + calls ≤ usize.MAX }
    ensures { IfOk result (λ line. after_line line calls (around_of around) (reader_of r.new)
        ≡ statements.read_line (suc calls) (around_of around) labelled (reader_of r.old)) }
{
    if r.sees_head(Head::Depth) {
        return Ok(read_depth_line(r, around, labelled));
    }
    if r.sees_name_and(Mark::Colon) {
        return Ok(read_label(r, around));
    }
    if begins_nested_block(r, around) {
        r.stop_at(ParseKind::Depth, r.left.at);
        return Ok(last_line());
    }
    let at = r.left.at;
    let line = r.line();
    let stmt = read_stmt(r, alloc, calls, around)?;
    around.stop_if_nested(r, at);
    let leaves = is_leaving(&stmt, labelled);
    let row = Some(Row { stmt, at, line });
    Ok(LineRead {
        row,
        is_last: false,
        labelled: false,
        leaves,
    })
}

// Reads the arms of a `switch`, of which there must be one.
#[cycle(statement)]
fn read_arms<'a>(
    r: &mut Reader<'a>,
    alloc: Global,
    calls: usize,
    around: Around,
) -> Got<Vec<PartialArm<'a>>>
    requires room { around.blocks + calls ≤ usize.MAX }
    ensures { IfOk result (λ arms. reading.got (arms_of arms.items) (reader_of r.new)
        ≡ statements.read_arms calls (around_of around) (reader_of r.old)) }
{
    let mut arms = Vec::new(alloc);
    if calls == 0 {
        return Ok(arms);
    }
    if !begins_arm(r) {
        r.fail();
        return Ok(arms);
    }
    let mut left = calls - 1;
    while left > 0 {
        if !begins_arm(r) {
            return Ok(arms);
        }
        left -= 1;
        let arm = read_arm(r, alloc, left, around)?;
        arms.push(arm)?;
    }
    Ok(arms)
}

// Reads an arm of a `switch`.
#[cycle(statement)]
fn read_arm<'a>(
    r: &mut Reader<'a>,
    alloc: Global,
    calls: usize,
    around: Around,
) -> Got<PartialArm<'a>>
    requires room { around.blocks + calls ≤ usize.MAX }
    ensures { IfOk result (λ arm. (others : partial.PartialArms) → reading.got (arm_before arm others) (reader_of r.new)
        ≡ arm_read calls (around_of around) others (reader_of r.old)) }
{
    let head = read_arm_head(r, alloc, calls)?;
    let block = read_lines(r, alloc, calls, around)?;
    let body = end_arm(r, block);
    Ok(PartialArm {
        numbers: head.numbers,
        default: head.default,
        body: without_spare(body),
    })
}
