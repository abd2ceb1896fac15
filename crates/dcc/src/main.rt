//! The program dcc: hands its words, the files of the working folder and the standard streams to the top
//! call, and ends with its status.
#![tactic(auto)]

use dcc_io::{DirShelf, StdSink, StdSource, Stream, put_all};
use dcc_morerules::{
    rule_41, rule_42, rule_43, rule_44, rule_45, rule_46, rule_47, rule_48, rule_54, rule_57,
    rule_58, rule_59, rule_60, rule_61, rule_62, rule_65, rule_67, rule_68,
};
use dcc_rules::{Rule, RuleList};
use dcc_stdrules::{
    rule_1, rule_2, rule_3, rule_4, rule_5, rule_6, rule_7, rule_8, rule_9, rule_10, rule_11,
    rule_12, rule_13, rule_14, rule_15, rule_16, rule_17, rule_18, rule_19, rule_20, rule_21,
    rule_22, rule_23, rule_24, rule_25, rule_26, rule_27, rule_28, rule_29, rule_30, rule_31,
    rule_32, rule_33, rule_34, rule_35, rule_36, rule_37, rule_38, rule_39, rule_40,
};
use dcc_top::top;
use dcc_widthrules::{
    rule_50, rule_51, rule_52, rule_53, rule_55, rule_56, rule_63, rule_64, rule_66,
};
use std::alloc::Global;
use std::env::{self, Env};
use std::io::ErrorKind;
use std::process::ExitCode;

/// The status where a word is no text.
const USAGE: u8 = 2;

/// The status where memory ran out.
const MEMORY: u8 = 7;

// The words after the program's name; or the status where there are none.
fn words<R: Env + AllocGlobal>(rt: &R) -> Result<Vec<String>, u8> {
    match env::args(rt) {
        Ok(words) => words.skip(1).collect(rt.alloc()).map_err(|_| MEMORY),
        Err(error) if error.kind() == ErrorKind::InvalidData => Err(USAGE),
        Err(_) => Err(MEMORY),
    }
}

// Says on the error stream why there are no words, and gives the status.
fn without_words(status: u8, err: &mut StdSink) -> u8 {
    let line = if status == USAGE {
        "dcc: usage\n"
    } else {
        "dcc: memory\n"
    };
    let _ = put_all(err, line.as_bytes());
    status
}

// Puts rules at the end of a list, each with its number; where there is no memory for one, the program says so and ends.
macro_rules! push_all {
    ($rules:ident, $err:ident: $($id:literal $rule:ident),*) => {
        $(
            if $rules.push(Rule::new($id, $rule)).is_err() {
                return ExitCode::from(without_words(MEMORY, &mut $err));
            }
        )*
    };
}

fn main(rt: HostRuntime) -> ExitCode {
    let alloc: Global = rt.alloc();
    let mut err = StdSink::new(Stream::Error(rt.stderr()));
    let mut rules = RuleList::new(alloc);
    push_all!(rules, err: 1 rule_1, 2 rule_2, 3 rule_3, 4 rule_4, 5 rule_5, 6 rule_6, 7 rule_7, 8 rule_8);
    push_all!(rules, err: 9 rule_9, 10 rule_10, 11 rule_11, 12 rule_12, 13 rule_13, 14 rule_14, 15 rule_15);
    push_all!(rules, err: 16 rule_16, 17 rule_17, 18 rule_18, 19 rule_19, 20 rule_20, 21 rule_21, 22 rule_22);
    push_all!(rules, err: 23 rule_23, 24 rule_24, 25 rule_25, 26 rule_26, 27 rule_27, 28 rule_28, 29 rule_29);
    push_all!(rules, err: 30 rule_30, 31 rule_31, 32 rule_32, 33 rule_33, 34 rule_34, 35 rule_35, 36 rule_36);
    push_all!(rules, err: 37 rule_37, 38 rule_38, 39 rule_39, 40 rule_40, 41 rule_41, 42 rule_42, 43 rule_43);
    push_all!(rules, err: 44 rule_44, 45 rule_45, 46 rule_46, 47 rule_47, 48 rule_48, 50 rule_50, 51 rule_51);
    push_all!(rules, err: 52 rule_52, 53 rule_53, 54 rule_54, 55 rule_55, 56 rule_56, 57 rule_57, 58 rule_58);
    push_all!(rules, err: 59 rule_59, 60 rule_60, 61 rule_61, 62 rule_62, 63 rule_63, 64 rule_64, 65 rule_65);
    push_all!(rules, err: 66 rule_66, 67 rule_67, 68 rule_68);
    let status = match words(&rt) {
        Ok(words) => {
            let mut input = StdSource::new(rt.stdin());
            let mut out = StdSink::new(Stream::Output(rt.stdout()));
            let mut shelf = DirShelf::new(alloc, rt);
            top::dcc(
                alloc, &words, &rules, &mut shelf, &mut input, &mut out, &mut err,
            )
        }
        Err(status) => without_words(status, &mut err),
    };
    ExitCode::from(status)
}
