//! Texts and what is answered to them.

use dcc_parse::{ParseFault, ParseKind, parse};
use std::alloc::{AllocError, Global};
use std::process::Abort;
use std::test::Fail;

mod depths;
mod ends;
mod meanings;
mod printed;
mod statements;
mod texts;
mod whole;

// A part of a text, the line of the first offence, and what offends; line 0 and `FITS` where nothing does.
type Case = (&'static str, u32, Option<ParseKind>);

const FITS: Option<ParseKind> = None;

const VERSION: Option<ParseKind> = Some(ParseKind::Version);

const TOKEN: Option<ParseKind> = Some(ParseKind::Token);

const GRAMMAR: Option<ParseKind> = Some(ParseKind::Grammar);

const NAME: Option<ParseKind> = Some(ParseKind::Name);

const TYPE: Option<ParseKind> = Some(ParseKind::Type_);

const PLACE: Option<ParseKind> = Some(ParseKind::Place);

const DEPTH: Option<ParseKind> = Some(ParseKind::Depth);

// The version line.
const FIRST: &str = "#pragma dcc text 1\n";

// The lines before a function or an address line.
const HEAD: &str = "#pragma dcc text 1\n#pragma dcc stack 0 256\n";

// The lines before another function.
const START: &str = "#pragma dcc text 1\n#pragma dcc stack 0 256\nvoid start(void)\n{\n}\n";

// The lines before a statement.
const BEFORE: &str = "#pragma dcc text 1
#pragma dcc stack 0 256
#pragma dcc at 256
int g;
unsigned char a[4] = {1, 2};
int *q;
int *r[2];
void start(void)
{
    int x; long y; unsigned char c; int *p; long *l; auto int m; int n[3];
";

// The lines after a statement.
const AFTER: &str = "
}
int f(int i, int *s)
{
    return i;
}
void v(void)
{
}
";

// The lines before a declaration.
const GLOBAL_BEFORE: &str = "#pragma dcc text 1
#pragma dcc stack 0 256
#pragma dcc at 256
int y;
";

// The lines after a declaration.
const GLOBAL_AFTER: &str = "\nvoid start(void)\n{\n}\n";

// The line and the kind of the first offence in a part of a text and what stands before and after it, or none.
fn offence(
    rt: &impl Abort,
    alloc: Global,
    before: &str,
    part: &str,
    after: &str,
) -> Result<(u32, Option<ParseKind>), AllocError> {
    let mut text = before.as_bytes().to_vec(alloc)?;
    text.extend_from_slice(part.as_bytes())?;
    text.extend_from_slice(after.as_bytes())?;
    Ok(match parse(alloc, &text) {
        Ok(_) => (0, FITS),
        Err(ParseFault::At { line, kind }) => (line, Some(kind)),
        Err(ParseFault::Memory) => {
            assert!(rt; false);
            (0, FITS)
        }
    })
}

// Each case, between these lines, is answered as it says.
fn each_is_answered(
    rt: &impl Abort,
    alloc: Global,
    before: &str,
    cases: &[Case],
    after: &str,
) -> Result<(), AllocError> {
    for case in cases {
        let (text, line, kind) = *case;
        let answer = offence(rt, alloc, before, text, after)?;
        assert_eq!(rt; answer, (line, kind), "{text}");
    }
    Ok(())
}

#[test]
fn numbers_words_and_marks_have_edges(rt: HostRuntime) -> Result<(), Fail> {
    each_is_answered(&rt, rt.alloc(), BEFORE, &statements::TOKENS, AFTER)?;
    Ok(())
}

#[test]
fn the_grammar_refuses_at_the_first_piece_that_it_does_not_allow(
    rt: HostRuntime,
) -> Result<(), Fail> {
    each_is_answered(&rt, rt.alloc(), BEFORE, &statements::GRAMMARS, AFTER)?;
    Ok(())
}

#[test]
fn names_and_types_fit(rt: HostRuntime) -> Result<(), Fail> {
    each_is_answered(&rt, rt.alloc(), BEFORE, &meanings::NAMES_AND_TYPES, AFTER)?;
    Ok(())
}

#[test]
fn of_two_offences_the_first_counts(rt: HostRuntime) -> Result<(), Fail> {
    each_is_answered(&rt, rt.alloc(), BEFORE, &meanings::TWO_OFFENCES, AFTER)?;
    Ok(())
}

#[test]
fn a_text_that_ends_in_the_middle_is_refused_in_its_last_line(rt: HostRuntime) -> Result<(), Fail> {
    each_is_answered(&rt, rt.alloc(), BEFORE, &ends::ENDS, "")?;
    each_is_answered(&rt, rt.alloc(), HEAD, &ends::HEADS, "")?;
    Ok(())
}

#[test]
fn declarations_have_names_and_places(rt: HostRuntime) -> Result<(), Fail> {
    let cases = &texts::DECLARATIONS;
    each_is_answered(&rt, rt.alloc(), GLOBAL_BEFORE, cases, GLOBAL_AFTER)?;
    Ok(())
}

#[test]
fn whole_texts_have_a_version_a_stack_and_start(rt: HostRuntime) -> Result<(), Fail> {
    each_is_answered(&rt, rt.alloc(), "", &texts::VERSIONS, "")?;
    each_is_answered(&rt, rt.alloc(), FIRST, &texts::STACKS, "")?;
    each_is_answered(&rt, rt.alloc(), HEAD, &texts::FUNCTIONS, "")?;
    each_is_answered(&rt, rt.alloc(), START, &texts::OTHER_FUNCTIONS, "")?;
    Ok(())
}
