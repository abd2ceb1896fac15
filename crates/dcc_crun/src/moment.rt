//! The state of a run, and what statements do to it.

ghost use Rattle.std.specs.Prelude.{◌≡◌, ◌≤◌, ◌==◌, ℕ, List, [], ◌∷◌, length, map, option_map, Option, Some, None};
ghost use Rattle.std.specs.Prelude.{if◌then◌else◌, IfOk, OnOk, OnErr, IfErr, IsErrOf, slice_get};
ghost use Rattle.std.specs.List.{list_any};
ghost use Rattle.dcc_c.specs.declared.syntax.Base.TheVariants.{Uchar, Uint};
ghost use Rattle.dcc_c.specs.Types.{plain};
ghost use Rattle.dcc_c.specs.Tree.{Word, Expr, Assign, Return, Function, Tree};
ghost use Rattle.dcc_c.specs.Value.{number, is_zero, converted, given, and_then, Gives, Target as Place};
ghost use Rattle.dcc_c.specs.Placement.{below};
ghost use Rattle.dcc_c.specs.Dos.{dos_signature};
ghost use Rattle.dcc_c.specs.Run.{Continuation, State, takes, result_step, back_step, close_step, enter_step};
ghost use Rattle.dcc_c.specs.Run.{arguments_of, result_target, stmt_step};
ghost use Rattle.dcc_value.specs.Evaluation.{typed, itself, outcome_of};
ghost use Rattle.dcc_value.specs.Resolved.{Names, Fits, Stands, IsTargetIn, contents_of, scope_over, evaluated};
ghost use Rattle.dcc_value.specs.Resolved.{target_named};
ghost use Rattle.dcc_prepare.specs.Lines.{next_line, IsLine};
ghost use Rattle.dcc_prepare.specs.Points.{Goes, StandsIf, StandAll, case_point, label_point, locals_declared};
ghost use Rattle.dcc_prepare.specs.Points.{dos_call};
ghost use Rattle.dcc_prepare.specs.declared.program.Dos.{Dos as DosCall};
ghost use Rattle.dcc_prepare.specs.Programs.{IsProgram, IsProcedure};
ghost use Rattle.dcc_console.specs.Counts.{CountsFaults};
ghost use Rattle.dcc_crun.specs.Standing.{IsTargetIf, IsRunning, IsGoing};
ghost use Rattle.dcc_crun.specs.Doing.{scene_in, names_at, AreGlobals, single, ArgumentsAre, resolved_arguments};
ghost use Rattle.dcc_crun.specs.Doing.{IsSame, StaysAt, StepsAside, Keeps, Led, IsLed, Kept, Stood, ComesTo};
ghost use Rattle.dcc_crun.specs.Doing.{StaysIfRefused, CallsForKey, CallsDos, CallsFunction, CallsAny, IsNoCall, Stays};
ghost use Rattle.dcc_crun.specs.Doing.{Performs, Steps, Does, Refuses, Counts, IsSole};
ghost use Rattle.dcc_crun.specs.Ending.{write_stop};

use crate::call::{Call, Waiting};
use crate::ending::{Ending, Refusal, Stop};
use dcc_c::{Base, CType};
use dcc_console::{put_string, take_key};
use dcc_io::{Failed, Sink, Source, put_all};
use dcc_prepare::program::{Action, CallRow, Callee, Case, Dos, Label, Procedure, Program, Row};
use dcc_value::expression::{Resolved, Target, take};
use dcc_value::value::{NoValue, Value, converted, is_zero, number};
use dcc_value::variable::{Binding, Contents};
use std::alloc::{AllocError, Global};
use std::mem;

/// The state of a run.
#[derive(Drop)]
pub struct Moment {
    /// The call that runs.
    pub call: Call,
    /// The calls that wait, the newest last.
    pub waiting: Vec<Waiting>,
    /// What variables hold before they have a value.
    pub fill: u16,
    /// The memory, of 65,536 bytes.
    pub memory: Vec<u8>,
    /// How the run has ended, if it has.
    pub end: Ending,
}

// The point of the case that the value is, or else the last one.
fn case_point(cases: &[Case], n: u16, otherwise: usize) -> usize
    ensures { result ≡ case_point cases.now n otherwise }
{
    let mut point = otherwise;
    for case in cases {
        point = case_or(case, n, point);
    }
    point
}

// The point of the case, where the value is one of it, or else the other one.
fn case_or(case: &Case, n: u16, otherwise: usize) -> usize
    ensures { result ≡ (if list_any (λ v. v == n) case.now.values.items then case.now.point else otherwise) }
{
    if has_value(&case.values, n) {
        case.point
    } else {
        otherwise
    }
}

// Whether the value is one of the list.
fn has_value(values: &[u16], n: u16) -> bool
    ensures { result ≡ list_any (λ v. v == n) values.now }
{
    values.iter().any(|v| *v == n)
}

// The base of a call with this depth below the base of its caller.
fn base_below(base: u16, depth: u32) -> u16
    ensures { result ≡ below base depth }
{
    base.wrapping_sub((depth % 0x1_0000) as u16)
}

// The point where the label stands.
fn label_point(labels: &[Label], number: usize) -> Result<usize, NoValue>
    ensures { outcome_of itself result ≡ given (label_point labels.now number) }
{
    match labels.get(number) {
        Some(label) => label.point.ok_or(NoValue::Undefined),
        None => Err(NoValue::Undefined),
    }
}

// The value of the only argument, converted to the type.
fn only_argument(scene: &Contents<'_>, ty: CType, arguments: &[Resolved]) -> Result<Value, NoValue>
    ensures value { (names : Names) (es : List Expr) → StandAll names es arguments.now →
        Fits names (contents_of scene.now) →
        outcome_of single result ≡ arguments_of (scope_over names (contents_of scene.now)) (ty ∷ []) es }
    ensures kind { IfOk result (λ v. v.ty ≡ ty) }
{
    match arguments {
        [] => Err(NoValue::Undefined),
        [e] => Ok(converted(ty, e.evaluate(scene)?)),
        [e, ..] => {
            e.evaluate(scene)?;
            Err(NoValue::Undefined)
        }
    }
}

// The values of arguments, from left to right, each converted to the type of its parameter.
fn argument_values(
    alloc: Global,
    scene: &Contents<'_>,
    procedure: &Procedure,
    arguments: &[Resolved],
) -> Result<Vec<Value>, Stop>
    ensures { ArgumentsAre result
        (resolved_arguments (contents_of scene.now) (map (λ p. p.ty) procedure.now.params.items) arguments.now) }
{
    let mut values = Vec::new(alloc);
    for (i, e) in arguments.iter().enumerate() {
        if i >= procedure.params.len() {
            return Err(Stop::Undefined);
        }
        let param = &procedure.params[i];
        let value = e.evaluate(scene)?;
        values.push(converted(param.ty, value))?;
    }
    if arguments.len() < procedure.params.len() {
        return Err(Stop::Undefined);
    }
    Ok(values)
}

// What a write comes to.
fn write_stop(written: Result<(), Failed>) -> Result<(), Stop>
    ensures { result ≡ write_stop written }
{
    match written {
        Ok(()) => Ok(()),
        Err(Failed) => Err(Stop::Refused(Refusal::Output)),
    }
}

// Where the result of a call goes, if it goes anywhere.
fn result_target(scene: &Contents<'_>, place: &Option<Resolved>) -> Result<Option<Target>, NoValue>
    ensures value { (names : Names) (e : Option Expr) → StandsIf names e place.now → Fits names (contents_of scene.now)
        →
        outcome_of (option_map (target_named names.locals)) result
        ≡ result_target (scope_over names (contents_of scene.now)) e }
    ensures lands { (names : Names) (e : Option Expr) → StandsIf names e place.now → Fits names (contents_of scene.now)
        →
        IfOk result (IsTargetIf names.locals) }
{
    match place {
        Some(place) => Ok(Some(place.target(scene)?)),
        None => Ok(None),
    }
}

impl Moment {
    // What expressions are evaluated over.
    fn scene<'a>(&'a self, globals: &'a [Binding]) -> Contents<'a>
        ensures { contents_of result ≡ scene_in self.now globals.now }
    {
        Contents {
            frame: self.call.variables.as_slice(),
            globals,
            memory: self.memory.as_slice(),
        }
    }

    // Gives the target the value, converted to its type.
    fn take(&mut self, target: Target, v: Value)
        ensures state { (tree : Tree) (points : ℕ → List Continuation) (s : State) → IsRunning tree points self.old s →
            IsTargetIn (locals_declared s.frame.function) target →
            IsRunning tree points self.new
            (takes (target_named (locals_declared s.frame.function) target) (typed v) s) }
        ensures at { StepsAside self.old self.new }
    {
        take(target, v, &mut self.call.variables, &mut self.memory);
    }

    // Gives the place the value of the expression.
    fn assign(&mut self, globals: &[Binding], place: &Resolved, e: &Resolved) -> Result<(), NoValue>
        ensures state { (tree : Tree) (points : ℕ → List Continuation) (s : State) (place_expr expr : Expr) (line : ℕ) →
            AreGlobals tree globals.now → IsRunning tree points self.old s →
            Stands (names_at tree s) place_expr place.now → Stands (names_at tree s) expr e.now →
            Keeps tree points line result self.new s (stmt_step tree (Assign place_expr expr) line s) }
        ensures at { StepsAside self.old self.new }
    {
        let scene = self.scene(globals);
        let v = e.evaluate(&scene)?;
        let target = place.target(&scene)?;
        self.take(target, v);
        Ok(())
    }

    // The point where the run goes on after a `switch` is tested.
    fn switch(
        &self,
        globals: &[Binding],
        e: &Resolved,
        cases: &[Case],
        otherwise: usize,
    ) -> Result<usize, NoValue>
        ensures { outcome_of itself result
            ≡ and_then (λ v. Gives (case_point cases.now (converted (plain Uint) v).bits otherwise))
            (evaluated (scene_in self.now globals.now) e.now) }
    {
        let v = e.evaluate(&self.scene(globals))?;
        let n = (converted(CType::plain(Base::Uint), v).bits % 0x1_0000) as u16;
        Ok(case_point(cases, n, otherwise))
    }

    // The point where the run goes on after a test.
    fn test(
        &self,
        globals: &[Binding],
        e: &Resolved,
        yes: usize,
        no: usize,
    ) -> Result<usize, NoValue>
        ensures { outcome_of itself result ≡ and_then (λ v. Gives (if is_zero v then no else yes))
            (evaluated (scene_in self.now globals.now) e.now) }
    {
        let v = e.evaluate(&self.scene(globals))?;
        Ok(if is_zero(v) { no } else { yes })
    }

    // Gives the waiting call the result, if it wants one.
    fn take_result(&mut self, target: Option<Target>, v: Option<Value>) -> Result<(), NoValue>
        ensures state { (tree : Tree) (points : ℕ → List Continuation) (s : State) (line : ℕ) →
            IsRunning tree points self.old s →
            IsTargetIf (locals_declared s.frame.function) target →
            Keeps tree points line result self.new s
            (result_step (option_map (target_named (locals_declared s.frame.function)) target)
            (option_map typed v) line s) }
        ensures at { StepsAside self.old self.new }
    {
        match (target, v) {
            (None, _) => Ok(()),
            (Some(target), Some(v)) => {
                self.take(target, v);
                Ok(())
            }
            (Some(_), None) => Err(NoValue::Undefined),
        }
    }

    // Goes on with the newest of the waiting calls.
    fn go_back(&mut self, v: Option<Value>) -> Result<(), NoValue>
        ensures { (tree : Tree) (points : ℕ → List Continuation) (s : State) (line : ℕ) →
            IsRunning tree points self.old s →
            Led tree points line result self.new s (back_step s.waiting (option_map typed v) line s) }
    {
        let Some(waiting) = self.waiting.pop() else {
            return Err(NoValue::Undefined);
        };
        let Waiting { call, target } = waiting;
        self.call = call;
        self.take_result(target, v)
    }

    // Executes the closing brace of a function.
    fn close(&mut self, procedure: &Procedure) -> Result<(), NoValue>
        ensures { (tree : Tree) (points : ℕ → List Continuation) (s : State) (line : ℕ) →
            IsRunning tree points self.old s →
            IsProcedure tree s.frame.function (points self.old.call.procedure) procedure.now →
            Led tree points line result self.new s (close_step line s) }
    {
        if procedure.is_start || procedure.result.is_some() {
            return Err(NoValue::Undefined);
        }
        self.go_back(None)
    }

    // Executes a `return`, with a value where there is one, which becomes one of the function's result.
    fn give(
        &mut self,
        globals: &[Binding],
        procedure: &Procedure,
        e: &Option<Resolved>,
    ) -> Result<(), NoValue>
        ensures { (tree : Tree) (points : ℕ → List Continuation) (s : State) (expr : Option Expr) (line : ℕ) →
            AreGlobals tree globals.now → IsRunning tree points self.old s →
            IsProcedure tree s.frame.function (points self.old.call.procedure) procedure.now →
            StandsIf (names_at tree s) expr e.now →
            Led tree points line result self.new s (stmt_step tree (Return expr) line s) }
    {
        if procedure.is_start {
            return Err(NoValue::Undefined);
        }
        let Some(e) = e else {
            return self.go_back(None);
        };
        let Some(ty) = procedure.result else {
            return Err(NoValue::Undefined);
        };
        let v = e.evaluate(&self.scene(globals))?;
        self.go_back(Some(converted(ty, v)))
    }

    // Begins a function's body, whose caller waits.
    fn enter(
        &mut self,
        alloc: Global,
        number: usize,
        procedure: &Procedure,
        row: &CallRow,
        target: Option<Target>,
        arguments: &[Value],
    ) -> Result<(), AllocError>
        ensures state { (tree : Tree) (points : ℕ → List Continuation) (s : State) (f : Function) →
            IsRunning tree points self.old s → Goes tree (points self.old.call.procedure) row.now.next s.rest →
            slice_get tree.functions number ≡ Some f → IsProcedure tree f (points number) procedure.now →
            IsTargetIf (locals_declared s.frame.function) target → length arguments.now ≡ length f.params →
            OnOk result (IsLed tree points self.new s (enter_step f row.now.depth
            (option_map (target_named (locals_declared s.frame.function)) target) (map typed arguments.now) s)) }
        ensures same { OnErr result (IsSame self.old self.new) }
    {
        let base = base_below(self.call.base, row.depth);
        let callee = Call {
            procedure: number,
            at: procedure.entry,
            base,
            variables: procedure.variables(alloc, base, self.fill, arguments)?,
        };
        let at = self.call.at;
        self.call.at = row.next;
        let caller = Waiting {
            call: mem::replace(&mut self.call, callee),
            target,
        };
        if let Err(refused) = self.waiting.push(caller) {
            let Waiting { call, target: _ } = refused.value;
            self.call = call;
            self.call.at = at;
            return Err(AllocError);
        }
        procedure.put_arguments(base, arguments, &mut self.memory);
        Ok(())
    }

    // Gives the running call a key, if it wants one.
    fn take_byte(&mut self, target: Option<Target>, byte: u8)
        ensures state { (tree : Tree) (points : ℕ → List Continuation) (s : State) (line : ℕ) →
            IsRunning tree points self.old s →
            IsTargetIf (locals_declared s.frame.function) target →
            IsRunning tree points self.new
            (result_step (option_map (target_named (locals_declared s.frame.function)) target)
            (Some (number Uchar byte)) line s) }
        ensures at { StepsAside self.old self.new }
    {
        if let Some(target) = target {
            self.take(target, number(Base::Uchar, u32::from(byte)));
        }
    }

    // Makes a DOS call that takes a key.
    fn key<I: Source, O: Sink>(
        &mut self,
        echo: bool,
        target: Option<Target>,
        input: &mut I,
        out: &mut O,
    ) -> Result<(), Stop>
        ensures comes { (line : ℕ) → ComesTo line result (CallsForKey self.old echo target line) (Kept self.new)
            (I.left input.old) (O.taken out.old) (I.left input.new) (O.taken out.new) }
        ensures stays { StaysIfRefused result self.old self.new }
        ensures at { StepsAside self.old self.new }
        ensures faults { Counts result
            (I.faults input.old) (I.faults input.new) (O.faults out.old) (O.faults out.new) }
    {
        let byte = take_key(echo, input, out)?;
        self.take_byte(target, byte);
        Ok(())
    }

    // The value of the only argument of a DOS call that gives nothing.
    fn sole_value(
        &self,
        globals: &[Binding],
        base: Base,
        target: Option<Target>,
        arguments: &[Resolved],
    ) -> Result<Value, NoValue>
        ensures { (dos : DosCall) → plain base ∷ [] ≡ (dos_signature (dos_call dos)).params →
            IsSole globals.now self.now dos target arguments.now result }
    {
        let v = only_argument(&self.scene(globals), CType::plain(base), arguments)?;
        if target.is_some() {
            return Err(NoValue::Undefined);
        }
        Ok(v)
    }

    // Makes a DOS call.
    fn dos<I: Source, O: Sink>(
        &mut self,
        globals: &[Binding],
        dos: Dos,
        target: Option<Target>,
        arguments: &[Resolved],
        input: &mut I,
        out: &mut O,
    ) -> Result<(), Stop>
        ensures comes { (line : ℕ) →
            ComesTo line result (CallsDos self.old globals.now dos target arguments.now line) (Kept self.new)
            (I.left input.old) (O.taken out.old) (I.left input.new) (O.taken out.new) }
        ensures stays { StaysIfRefused result self.old self.new }
        ensures at { StepsAside self.old self.new }
        ensures faults { Counts result
            (I.faults input.old) (I.faults input.new) (O.faults out.old) (O.faults out.new) }
    {
        match dos {
            Dos::Getche if arguments.is_empty() => self.key(true, target, input, out),
            Dos::Getch if arguments.is_empty() => self.key(false, target, input, out),
            Dos::Getche | Dos::Getch => Err(Stop::Undefined),
            Dos::Putc => {
                let byte = self.sole_value(globals, Base::Uchar, target, arguments)?;
                write_stop(put_all(out, &[(byte.bits % 256) as u8]))
            }
            Dos::Puts => {
                let string = self.sole_value(globals, Base::Uint, target, arguments)?;
                write_stop(put_string(&self.memory, 0, string.bits, out))
            }
            Dos::Leave => {
                let code = self.sole_value(globals, Base::Uchar, target, arguments)?;
                self.end = Ending::Exit((code.bits % 256) as u8);
                Ok(())
            }
        }
    }

    // Makes a call of a function of the text.
    fn call_function(
        &mut self,
        alloc: Global,
        program: &Program,
        row: &CallRow,
        number: usize,
        target: Option<Target>,
    ) -> Result<(), Stop>
        ensures comes { (line : ℕ) (left taken : Option (List ℕ)) →
            ComesTo line result (CallsFunction self.old program.now row.now number target line) (Stood self.new)
            left taken left taken }
        ensures stays { StaysIfRefused result self.old self.new }
        ensures no_fault { IsErrOf result (Stop.Refused Refusal.Input) → ⊥ }
        ensures no_write { IsErrOf result (Stop.Refused Refusal.Output) → ⊥ }
    {
        if number >= program.procedures.len() {
            return Err(Stop::Undefined);
        }
        let procedure = &program.procedures[number];
        let values = argument_values(
            alloc,
            &self.scene(&program.globals),
            procedure,
            &row.arguments,
        )?;
        self.enter(alloc, number, procedure, row, target, &values)?;
        Ok(())
    }

    // Makes a call.
    fn call<I: Source, O: Sink>(
        &mut self,
        alloc: Global,
        program: &Program,
        row: &CallRow,
        input: &mut I,
        out: &mut O,
    ) -> Result<(), Stop>
        ensures comes { (line : ℕ) → ComesTo line result (CallsAny self.old program.now row.now line) (Stood self.new)
            (I.left input.old) (O.taken out.old) (I.left input.new) (O.taken out.new) }
        ensures stays { StaysIfRefused result self.old self.new }
        ensures faults { Counts result
            (I.faults input.old) (I.faults input.new) (O.faults out.old) (O.faults out.new) }
    {
        let target = result_target(&self.scene(&program.globals), &row.place)?;
        match row.callee {
            Callee::Dos(dos) => {
                self.dos(&program.globals, dos, target, &row.arguments, input, out)?;
                self.call.at = row.next;
                Ok(())
            }
            Callee::Function(number) => self.call_function(alloc, program, row, number, target),
            Callee::Unknown => Err(Stop::Undefined),
        }
    }

    // Performs an action that reads and writes nothing.
    fn act(
        &mut self,
        program: &Program,
        procedure: &Procedure,
        action: &Action,
    ) -> Result<(), NoValue>
        ensures { (tree : Tree) (points : ℕ → List Continuation) (s now : State) (line : ℕ) → IsNoCall action.now →
            Performs program.now procedure.now line action.now self.old tree points s now →
            Stays tree points line result self.new s now }
    {
        match action {
            Action::Pass(next) => self.call.at = *next,
            Action::Assign(place, e, next) => {
                self.assign(&program.globals, place, e)?;
                self.call.at = *next;
            }
            Action::Test(e, yes, no) => {
                self.call.at = self.test(&program.globals, e, *yes, *no)?;
            }
            Action::Switch(e, cases, otherwise) => {
                self.call.at = self.switch(&program.globals, e, cases, *otherwise)?;
            }
            Action::Goto(label) => self.call.at = label_point(&procedure.labels, *label)?,
            Action::Return(e) => self.give(&program.globals, procedure, e)?,
            Action::Close => self.close(procedure)?,
            Action::Call(_) | Action::Stuck => return Err(NoValue::Undefined),
        }
        Ok(())
    }

    // Performs what stands at a point of a function.
    fn perform<I: Source, O: Sink>(
        &mut self,
        alloc: Global,
        program: &Program,
        procedure: &Procedure,
        action: &Action,
        input: &mut I,
        out: &mut O,
    ) -> Result<(), Stop>
        ensures comes { (line : ℕ) →
            ComesTo line result (Performs program.now procedure.now line action.now self.old) (Stood self.new)
            (I.left input.old) (O.taken out.old) (I.left input.new) (O.taken out.new) }
        ensures stays { StaysIfRefused result self.old self.new }
        ensures faults { Counts result
            (I.faults input.old) (I.faults input.new) (O.faults out.old) (O.faults out.new) }
    {
        match action {
            Action::Call(row) => self.call(alloc, program, row, input, out),
            _ => Ok(self.act(program, procedure, action)?),
        }
    }

    /// The line of the next step of a run that is not over.
    pub(crate) fn line(&self, program: &Program) -> u32
        ensures { (tree : Tree) (points : ℕ → List Continuation) (s : State) → IsProgram tree points program.now →
            IsGoing tree points self.now s → IsLine (next_line s.rest) result }
    {
        let number = self.call.procedure;
        if number >= program.procedures.len() {
            return 0;
        }
        let procedure = &program.procedures[number];
        let at = self.call.at;
        if at >= procedure.rows.len() {
            return 0;
        }
        let row = &procedure.rows[at];
        row.line
    }

    /// Makes one step of a run that is not over.
    pub(crate) fn advance<I: Source, O: Sink>(
        &mut self,
        alloc: Global,
        program: &Program,
        input: &mut I,
        out: &mut O,
    ) -> Result<(), Refusal>
        ensures made { OnOk result (Does (Steps program.now self.old) (Stood self.new)
            (I.left input.old) (O.taken out.old) (I.left input.new) (O.taken out.new)) }
        ensures refused { IfErr result (λ fault. Refuses fault (Steps program.now self.old)
            (I.left input.old) (O.taken out.old) (I.left input.new) (O.taken out.new)) }
        ensures stays { IfErr result (λ fault. StaysAt fault self.old self.new) }
        ensures faults { CountsFaults (IsErrOf result Refusal.Input) (IsErrOf result Refusal.Output)
            (I.faults input.old) (I.faults input.new) (O.faults out.old) (O.faults out.new) }
    {
        let number = self.call.procedure;
        if number >= program.procedures.len() {
            self.end = Ending::Stuck(0);
            return Ok(());
        }
        let procedure = &program.procedures[number];
        let at = self.call.at;
        if at >= procedure.rows.len() {
            self.end = Ending::Stuck(0);
            return Ok(());
        }
        let row = &procedure.rows[at];
        match self.perform(alloc, program, procedure, &row.action, input, out) {
            Ok(()) => Ok(()),
            Err(Stop::Divides) => {
                self.end = Ending::Divide;
                Ok(())
            }
            Err(Stop::Undefined) => {
                self.end = Ending::Stuck(row.line);
                Ok(())
            }
            Err(Stop::Refused(fault)) => Err(fault),
        }
    }
}
