ghost use Rattle.std.specs.Prelude.{◌≡◌, ◌≤◌, ◌++◌, IfOk, codes, decimal, length};
ghost use Rattle.mt_eval_meaning.specs.declared.state.State.{State};
ghost use Rattle.mt_stage.specs.Accepted.{IsAccepted};
ghost use Rattle.mt_eval_meaning.specs.Host.{done_ran};
ghost use Rattle.mt_start.specs.Starts as spec;
ghost use Rattle.mt_start.specs.Starts.{EndsLike, StartMeans, ending_of, ending_on, start_of};
ghost use Rattle.mt_tree.specs.Limits.{source_limit};

use mt_builtins::PlainHost;
use mt_eval::evaluate;
use mt_eval_meaning::{Budget, Done, Stop};
use mt_ops::plain;
use mt_ops_properties::error_text;
use mt_resolve::{resolve, shallow_programs_are_within};
use mt_source::{SourceRefusal, read_source};
use mt_syntax::Program;
use mt_tree::{NoMemory, STEP_LIMIT, Text};
use mt_value::{Globals, Store};
use std::alloc::Global;

/// How the start of an application ends.
#[derive(Drop)]
pub enum Startup {
    /// It reached the end: the lines that it logged.
    Started(Vec<u8>),
    /// It threw a value that nothing caught, or was stopped: the text of the value, or of the stop.
    Failed(Text),
    /// It made a frame, client code or an element, which this host does not build.
    NotBuilt,
    /// The text is not accepted, for this reason; or memory ran out while it was read.
    Refused(SourceRefusal),
}

/// Starts the application of a text of at most 1,048,576 bytes.
///
/// # Errors
/// `NoMemory`.
pub fn start(alloc: Global, text: &[u8]) -> Result<Startup, NoMemory>
    requires short { length text.now ≤ source_limit }
    ensures { IfOk result (λ ended. StartMeans text.now ended) }
{
    match read_source(alloc, text) {
        Ok(checked) => start_program(alloc, checked.program()),
        Err(refusal) => Ok(Startup::Refused(refusal)),
    }
}

// Resolves the names of an accepted program, and evaluates the top level of its file.
fn start_program(alloc: Global, program: &Program) -> Result<Startup, NoMemory>
    requires { IsAccepted program.now }
    ensures { IfOk result (λ ended. EndsLike (ending_of (start_of program.now)) ended) }
{
    shallow_programs_are_within();
    let units = resolve(alloc, program)?;
    let mut store = Store::new(alloc);
    let mut globals = Globals::new(alloc);
    let mut host = PlainHost::new(alloc);
    let mut budget = Budget { left: STEP_LIMIT };
    let done = evaluate(
        alloc,
        units.functions(),
        units.unit(units.top()),
        &mut store,
        &mut globals,
        &mut host,
        &mut budget,
    )?;
    reported(alloc, done, &store, &host)
}

// What is reported of the end of an evaluation.
fn reported(alloc: Global, done: Done, store: &Store, host: &PlainHost) -> Result<Startup, NoMemory>
    ensures { (s : State) → s.store ≡ store.now → IfOk result (λ ended. EndsLike (ending_on (done_ran done (s, host.now))) ended) }
{
    if host.is_beyond() {
        return Ok(Startup::NotBuilt);
    }
    match done {
        Done::Value(_value) => Ok(Startup::Started(Vec::from_slice(alloc, host.log())?)),
        Done::Throw(value) => Ok(Startup::Failed(error_text(alloc, &value, store)?)),
        Done::Stop(stop) => Ok(Startup::Failed(stop_text(alloc, stop)?)),
    }
}

fn stop_text(alloc: Global, stop: Stop) -> Result<Text, NoMemory>
    ensures { IfOk result (λ text. text ≡ spec.stop_text stop) }
{
    match stop {
        Stop::Budget => plain(alloc, "stop budget"),
        Stop::Depth => plain(alloc, "stop depth"),
        Stop::Marshal(rule) => marshal_text(alloc, rule),
    }
}

fn marshal_text(alloc: Global, rule: u8) -> Result<Text, NoMemory>
    ensures { IfOk result (λ text. text ≡ codes "stop marshal M" ++ decimal rule) }
{
    let text = format!(in alloc; "stop marshal M{rule}")?;
    Text::from_str(alloc, text.as_str())
}
