//! The words of the command line.
//!
//! The first word is the command. The rest are its positional words in their order and its options in any
//! place, each option at most once. An option is two words, `--steps N`, or one, `--steps=N`. After a word
//! `--` that isn't an option's value every word is positional.

ghost use Rattle.std.specs.Prelude.{◌≡◌, ◌≤◌, ◌+◌, ◌++◌, ◌∷◌, [], MatchOption, Some, None, IsSome, IfSome, map};
ghost use Rattle.std.specs.Prelude.{string_bytes, codes, length};
ghost use Rattle.std.specs.Char.{is_ascii_digit};
ghost use Rattle.std.specs.List.{list_all};
ghost use Rattle.std.specs.Option.{option_copied};
ghost use Rattle.dcc_commands.specs.declared.words.Command.TheVariants.{Makes, Run, Watch, RunC, Asm, Trial};
ghost use Rattle.dcc_commands.specs.Words.{Execute, ExecuteWatched, ExecuteText, Assemble, Try};
ghost use Rattle.dcc_commands.specs.Words.{AskForOneJob, Parts, command_of, is_number, is_positional, job_of, job_with};
ghost use Rattle.dcc_commands.specs.Words.{kind_of, number_of, option_of, parts_of, set_value, value_in, steps_of};
ghost use Rattle.dcc_commands.specs.Words.{fill_of, cpu_of, seed_of, size_of, IsSize};
ghost use Rattle.dcc_commands.specs.WordsRead.{HasFourWords, IsSized, job_read, kind_read, parts_read};

use crate::job::{Attempt, Execution, Job, Product, TextExecution};
use dcc_machine::Cpu;

/// A command, by its first word.
#[derive(Clone, Copy, PartialEq, Eq, Debug)]
pub enum Command {
    /// `c`, `procs` or `list`, by what is made.
    Makes(Product),
    /// `run`
    Run,
    /// `watch`
    Watch,
    /// `runc`
    RunC,
    /// `asm`
    Asm,
    /// `trial`
    Trial,
}

/// An option, by its name.
#[derive(Clone, Copy, PartialEq, Eq, Debug)]
pub enum OptionName {
    /// `--steps`
    Steps,
    /// `--fill`
    Fill,
    /// `--cpu`
    Cpu,
}

/// What a word is that isn't an option's value and stands before any `--`.
#[derive(Clone, Copy)]
pub enum Kind<'a> {
    /// A positional word.
    Positional,
    /// The word `--`.
    End,
    /// An option whose value is the next word.
    Names(OptionName),
    /// An option with its value.
    Gives(OptionName, &'a str),
    /// A word that begins with `-` and is none of these.
    Unknown,
}

/// Positional words, of which no command takes more than three.
#[derive(Clone, Copy)]
pub enum Positions<'a> {
    /// There is none.
    Empty,
    /// One.
    One(&'a str),
    /// Two, in their order.
    Two(&'a str, &'a str),
    /// Three, in their order.
    Three(&'a str, &'a str, &'a str),
}

/// The words after the command: the positional words and the options' values, as far as they stand.
#[derive(Clone, Copy)]
pub struct Found<'a> {
    /// The positional words.
    pub positions: Positions<'a>,
    /// What `--steps` gives.
    pub steps: Option<&'a str>,
    /// What `--fill` gives.
    pub fill: Option<&'a str>,
    /// What `--cpu` gives.
    pub cpu: Option<&'a str>,
}

// The steps of a run where no option gives them.
const STEPS: u64 = 1_000_000;

// The most steps that an option gives, and the digits that may write them.
const GREATEST_STEPS: u64 = 1_000_000_000;

const STEPS_DIGITS: usize = 10;

// The fill of a text's run where no option gives it.
const FILL: u16 = 0;

// The greatest fill that an option gives, and the digits that may write it.
const GREATEST_FILL: u64 = 65_535;

const FILL_DIGITS: usize = 5;

// The digits that may write the seed of a trial.
const SEED_DIGITS: usize = 20;

// The greatest size of a trial, and the digits that may write it.
const GREATEST_SIZE: u64 = 1_000;

const SIZE_DIGITS: usize = 4;

// The command of this name.
fn command_of(word: &str) -> Option<Command>
    ensures { result ≡ command_of word.now }
{
    if word == "c" {
        Some(Command::Makes(Product::Text))
    } else if word == "procs" {
        Some(Command::Makes(Product::Procedures))
    } else if word == "list" {
        Some(Command::Makes(Product::Listing))
    } else if word == "run" {
        Some(Command::Run)
    } else if word == "watch" {
        Some(Command::Watch)
    } else if word == "runc" {
        Some(Command::RunC)
    } else if word == "asm" {
        Some(Command::Asm)
    } else if word == "trial" {
        Some(Command::Trial)
    } else {
        None
    }
}

// The option of this name.
fn option_of(word: &str) -> Option<OptionName>
    ensures { result ≡ option_of word.now }
{
    if word == "--steps" {
        Some(OptionName::Steps)
    } else if word == "--fill" {
        Some(OptionName::Fill)
    } else if word == "--cpu" {
        Some(OptionName::Cpu)
    } else {
        None
    }
}

// The word doesn't begin with `-`, or is `-` alone.
fn is_positional(word: &str) -> bool
    ensures { result ≡ is_positional word.now }
{
    match word.as_bytes() {
        [first, _, ..] => *first != b'-',
        _ => true,
    }
}

// What the word is.
fn kind_of(word: &str) -> Kind<'_>
    ensures { kind_read result ≡ kind_of word.now }
{
    if is_positional(word) {
        return Kind::Positional;
    }
    if word == "--" {
        return Kind::End;
    }
    match word.split_once('=') {
        Some((name, value)) => match option_of(name) {
            Some(option) => Kind::Gives(option, value),
            None => Kind::Unknown,
        },
        None => match option_of(word) {
            Some(option) => Kind::Names(option),
            None => Kind::Unknown,
        },
    }
}

// Each byte of the word is a decimal digit.
fn has_digits_alone(word: &str) -> bool
    ensures { result ≡ list_all is_ascii_digit word.now }
{
    word.bytes().all(|b| b.is_ascii_digit())
}

// The word is one or more decimal digits, at most so many, and nothing else.
fn is_number(digits: usize, word: &str) -> bool
    ensures { result ≡ is_number digits word.now }
{
    !word.is_empty() && word.len() <= digits && has_digits_alone(word)
}

// The number that a word of at most so many decimal digits writes, where it is at most the greatest.
fn number_of(digits: usize, greatest: u64, word: &str) -> Option<u64>
    ensures { result ≡ number_of digits greatest word.now }
{
    if !is_number(digits, word) {
        return None;
    }
    match word.parse::<u64>() {
        Ok(number) if number <= greatest => Some(number),
        _ => None,
    }
}

// The steps of a run.
fn steps_of(value: Option<&str>) -> Option<u64>
    ensures { result ≡ steps_of (option_copied value.entry) }
{
    match value {
        Some(word) => number_of(STEPS_DIGITS, GREATEST_STEPS, word),
        None => Some(STEPS),
    }
}

// What the variables of a text hold before they have a value.
fn fill_of(value: Option<&str>) -> Option<u16>
    ensures { result ≡ fill_of (option_copied value.entry) }
{
    match value {
        Some(word) => {
            let number = number_of(FILL_DIGITS, GREATEST_FILL, word)?;
            Some(number as u16)
        }
        None => Some(FILL),
    }
}

// The seed of a trial.
fn seed_of(word: &str) -> Option<u64>
    ensures { result ≡ seed_of word.now }
{
    number_of(SEED_DIGITS, u64::MAX, word)
}

// The size of a trial.
fn size_of(word: &str) -> Option<u16>
    ensures { result ≡ size_of word.now }
{
    match number_of(SIZE_DIGITS, GREATEST_SIZE, word)? {
        0 => None,
        size => Some(size as u16),
    }
}

// The processor that runs an executable.
fn cpu_of(value: Option<&str>) -> Option<Cpu>
    ensures { result ≡ cpu_of (option_copied value.entry) }
{
    match value {
        Some("8086") | None => Some(Cpu::I8086),
        Some("186") => Some(Cpu::I186),
        Some(_) => None,
    }
}

impl<'a> Found<'a> {
    // One more positional word: no command takes four.
    fn with_word(self, word: &'a str) -> Option<Found<'a>>
        ensures { MatchOption result (3 ≤ length (parts_read self.entry).positional)
            (λ found. parts_read found
            ≡ record (parts_read self.entry) { positional = (parts_read self.entry).positional ++ word.now ∷ [] }) }
    {
        let positions = match self.positions {
            Positions::Empty => Positions::One(word),
            Positions::One(a) => Positions::Two(a, word),
            Positions::Two(a, b) => Positions::Three(a, b, word),
            Positions::Three(..) => return None,
        };
        Some(Found { positions, ..self })
    }

    // The value of an option, where it stands.
    fn value(self, option: OptionName) -> Option<&'a str>
        ensures { option_copied result ≡ value_in option (parts_read self.entry) }
    {
        match option {
            OptionName::Steps => self.steps,
            OptionName::Fill => self.fill,
            OptionName::Cpu => self.cpu,
        }
    }

    // The value of one more option, which may stand once.
    fn with_value(self, option: OptionName, value: &'a str) -> Option<Found<'a>>
        ensures { MatchOption result (IsSome (value_in option (parts_read self.entry)))
            (λ found. (value_in option (parts_read self.entry) ≡ None)
            × (parts_read found ≡ set_value option value.now (parts_read self.entry))) }
    {
        if self.value(option).is_some() {
            return None;
        }
        let value = Some(value);
        Some(match option {
            OptionName::Steps => Found {
                steps: value,
                ..self
            },
            OptionName::Fill => Found {
                fill: value,
                ..self
            },
            OptionName::Cpu => Found { cpu: value, ..self },
        })
    }

    // The words after `--`, all positional.
    fn with_all(self, words: &'a [String]) -> Option<Found<'a>>
        ensures { MatchOption result (4 ≤ length ((parts_read self.entry).positional ++ map string_bytes words.now))
            (λ found. parts_read found ≡ record (parts_read self.entry) {
              positional = (parts_read self.entry).positional ++ map string_bytes words.now;
            }) }
    {
        let mut found = self;
        for word in words {
            found = found.with_word(word.as_str())?;
        }
        Some(found)
    }

    // The job to make this of an executable.
    fn make(self, product: Product) -> Option<Job<'a>>
        ensures { MatchOption result (job_with (Makes product) (parts_read self.entry) ≡ None)
            (λ job. job_with (Makes product) (parts_read self.entry) ≡ Some (job_read job)) }
    {
        match (self.positions, self.steps, self.fill) {
            (Positions::One(file), None, None) => Some(Job::Make {
                product,
                file,
                cpu: cpu_of(self.cpu)?,
            }),
            _ => None,
        }
    }

    // The run of an executable.
    fn execution(self) -> Option<Execution<'a>>
        ensures run { MatchOption result (job_with Run (parts_read self.entry) ≡ None)
            (λ run. job_with Run (parts_read self.entry) ≡ Some (Execute run.file.now run.steps run.cpu)) }
        ensures watch { MatchOption result (job_with Watch (parts_read self.entry) ≡ None)
            (λ run. job_with Watch (parts_read self.entry) ≡ Some (ExecuteWatched run.file.now run.steps run.cpu)) }
    {
        match (self.positions, self.fill) {
            (Positions::One(file), None) => Some(Execution {
                file,
                steps: steps_of(self.steps)?,
                cpu: cpu_of(self.cpu)?,
            }),
            _ => None,
        }
    }

    // The run of a text.
    fn text_execution(self) -> Option<TextExecution<'a>>
        ensures { MatchOption result (job_with RunC (parts_read self.entry) ≡ None)
            (λ run. job_with RunC (parts_read self.entry) ≡ Some (ExecuteText run.file.now run.steps run.fill)) }
    {
        match (self.positions, self.cpu) {
            (Positions::One(file), None) => Some(TextExecution {
                file,
                steps: steps_of(self.steps)?,
                fill: fill_of(self.fill)?,
            }),
            _ => None,
        }
    }

    // The name of the listing that is to be assembled.
    fn listing(self) -> Option<&'a str>
        ensures { MatchOption result (job_with Asm (parts_read self.entry) ≡ None)
            (λ file. job_with Asm (parts_read self.entry) ≡ Some (Assemble file.now)) }
    {
        match (self.positions, self.steps, self.fill, self.cpu) {
            (Positions::One(file), None, None, None) => Some(file),
            _ => None,
        }
    }

    // The trial of a program made at random.
    fn attempt(self) -> Option<Attempt>
        ensures job { MatchOption result (job_with Trial (parts_read self.entry) ≡ None)
            (λ attempt. job_with Trial (parts_read self.entry) ≡ Some (Try attempt.seed attempt.size attempt.steps)) }
        ensures sized { IfSome result (λ attempt. IsSize attempt.size) }
    {
        match (self.positions, self.steps, self.fill, self.cpu) {
            (Positions::Three(seed, size, steps), None, None, None) => Some(Attempt {
                seed: seed_of(seed)?,
                size: size_of(size)?,
                steps: steps_of(Some(steps))?,
            }),
            _ => None,
        }
    }
}

// What stands in the words after the command.
fn found_in(words: &[String]) -> Option<Found<'_>>
    ensures { MatchOption result (HasFourWords (parts_of (map string_bytes words.now)))
        (λ found. parts_of (map string_bytes words.now) ≡ Some (parts_read found)) }
{
    let mut found = Found {
        positions: Positions::Empty,
        steps: None,
        fill: None,
        cpu: None,
    };
    let mut left = words;
    while let Some((word, rest)) = left.split_first() {
        left = rest;
        let word = word.as_str();
        match kind_of(word) {
            Kind::Positional => found = found.with_word(word)?,
            Kind::End => return found.with_all(left),
            Kind::Names(option) => {
                let (value, rest) = left.split_first()?;
                left = rest;
                found = found.with_value(option, value.as_str())?;
            }
            Kind::Gives(option, value) => found = found.with_value(option, value)?,
            Kind::Unknown => return None,
        }
    }
    Some(found)
}

/// The job of the words after the program's name; none where the words are no command.
///
/// `c FILE` writes a text, `procs FILE` lists procedures, and `list FILE` lists an image in assembler's words. `run FILE`
/// runs an executable, for at most the steps of `--steps N`: 0 to 1000000000 in at most 10 digits, and 1000000 where the
/// option doesn't stand. `watch FILE` is the same, up to the first step that isn't clean. The five are for the processor
/// of `--cpu CPU`: 8086 or 186, and 8086 where the option doesn't stand. `runc FILE` runs
/// a text, for at most the steps of `--steps N` and with the fill of `--fill N`: 0 to 65535 in at most 5 digits, and 0
/// where the option doesn't stand. `asm FILE` assembles a listing. `trial SEED SIZE STEPS` tries a program made at random: SEED is 0 to
/// 18446744073709551615 in at most 20 digits, SIZE 1 to 1000 in at most 4, and STEPS as that of `--steps`.
#[tactic(auto, unfolding(crate::specs::Words::job_of))]
pub fn job_of(words: &[String]) -> Option<Job<'_>>
    ensures job { MatchOption result (job_of (map string_bytes words.now) ≡ None)
        (λ job. job_of (map string_bytes words.now) ≡ Some (job_read job)) }
    ensures sized { IfSome result IsSized }
{
    let (command, rest) = words.split_first()?;
    let found = found_in(rest)?;
    match command_of(command.as_str())? {
        Command::Makes(product) => found.make(product),
        Command::Run => Some(Job::Execute(found.execution()?)),
        Command::Watch => Some(Job::ExecuteWatched(found.execution()?)),
        Command::RunC => Some(Job::ExecuteText(found.text_execution()?)),
        Command::Asm => Some(Job::Assemble(found.listing()?)),
        Command::Trial => Some(Job::Try(found.attempt()?)),
    }
}

/// The job of words is the one that they ask for: a law for all words.
pub fn words_ask_for_one_job()
    ensures { AskForOneJob }
{}
