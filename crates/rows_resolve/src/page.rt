//! A page without nodes, on which client codes run one after another.

ghost use Rattle.std.specs.Prelude.{◌≡◌, ◌≤◌, ◌<◌, length, IfOk};
ghost use Rattle.mt_syntax.specs.Depth.{depth_of};
ghost use Rattle.mt_tree.specs.Limits.{depth_limit};
ghost use Rattle.rows_resolve.specs.Pages.{IsPage};

use anyhow::{Context, Result, bail};
use mt_builtins::PlainHost;
use mt_eval::{call, evaluate};
use mt_eval_meaning::{Budget, Done, Stop};
use mt_json::data_text;
use mt_marshal::{Refused, snapshot};
use mt_ops_properties::error_text;
use mt_resolve::{UnitId, Units, resolve_client};
use mt_script_read::read_code;
use mt_syntax::Stmt;
use mt_tree::{NoMemory, Row, STEP_LIMIT, Text};
use mt_value::{Globals, Store, Value};
use rows::{made, quoted};
use std::alloc::Global;

/// The codes of a page that were resolved so far, and what they left.
#[derive(Drop)]
pub struct Page {
    units: Units,
    store: Store,
    globals: Globals,
    host: PlainHost,
}

impl Page {
    /// A page on which no code ran yet.
    pub fn new(alloc: Global) -> Result<Page>
        ensures { IfOk result (λ page. IsPage page.units) }
    {
        match Units::new(alloc) {
            Ok(units) => Ok(Page {
                units,
                store: Store::new(alloc),
                globals: Globals::new(alloc),
                host: PlainHost::new(alloc),
            }),
            Err(NoMemory) => bail!("no memory"),
        }
    }

    /// How a code ends that runs on the page, the value of the global variable whose name stands behind `?`, or how its call ends where the
    /// name stands behind `!`.
    pub fn reported(&mut self, alloc: Global, text: &str) -> Result<String>
        requires { IsPage self.old.units }
        ensures { IsPage self.new.units }
    {
        if let Some(name) = text.strip_prefix("?") {
            let value = self.global(alloc, name)?;
            return self.shown(alloc, &value);
        }
        if let Some(name) = text.strip_prefix("!") {
            let value = self.global(alloc, name)?;
            return self.called(alloc, &value);
        }
        self.run(alloc, text)
    }

    // The value of a global variable.
    fn global(&self, alloc: Global, name: &str) -> Result<Value> {
        let name = made(Text::from_str(alloc, name))?;
        let value = self.globals.find(&name).context("no such variable")?;
        made(value.share())
    }

    // Runs a code, which is resolved beside those before it.
    fn run(&mut self, alloc: Global, text: &str) -> Result<String>
        requires { IsPage self.old.units }
        ensures { IsPage self.new.units }
    {
        let id = match read_code(alloc, text.as_bytes()) {
            Ok(code) => self.add(alloc, &code.body)?,
            Err(_refusal) => bail!("no code"),
        };
        let mut budget = Budget { left: STEP_LIMIT };
        let done = made(evaluate(
            alloc,
            self.units.functions(),
            self.units.unit(id),
            &mut self.store,
            &mut self.globals,
            &mut self.host,
            &mut budget,
        ))?;
        self.ended(alloc, done)
    }

    fn add(&mut self, alloc: Global, body: &Row<Stmt>) -> Result<UnitId>
        requires page { IsPage self.old.units }
        requires deep { depth_of body.now ≤ depth_limit }
        ensures page { IsPage self.new.units }
        ensures id { IfOk result (λ id. id < length self.new.units.units) }
    {
        match resolve_client(alloc, body, &mut self.units) {
            Ok(id) => Ok(id),
            Err(NoMemory) => bail!("no memory"),
        }
    }

    // Calls a value without arguments.
    fn called(&mut self, alloc: Global, value: &Value) -> Result<String>
        ensures { self.new.units ≡ self.old.units }
    {
        let mut budget = Budget { left: STEP_LIMIT };
        let done = made(call(
            alloc,
            self.units.functions(),
            value,
            &[],
            &mut self.store,
            &mut self.globals,
            &mut self.host,
            &mut budget,
        ))?;
        self.ended(alloc, done)
    }

    fn ended(&self, alloc: Global, done: Done) -> Result<String> {
        match done {
            Done::Value(value) => self.shown(alloc, &value),
            Done::Throw(value) => {
                let text = made(error_text(alloc, &value, &self.store))?;
                let text = quoted(alloc, text.as_str())?;
                Ok(format!(in alloc; "throws {text}")?)
            }
            Done::Stop(Stop::Budget) => Ok(format!(in alloc; "stops budget")?),
            Done::Stop(Stop::Depth) => Ok(format!(in alloc; "stops depth")?),
            Done::Stop(Stop::Marshal(rule)) => Ok(format!(in alloc; "stops M{rule}")?),
        }
    }

    // The data of a value, or the rule that keeps it from being data.
    fn shown(&self, alloc: Global, value: &Value) -> Result<String> {
        let mut values = Vec::new(alloc);
        values.push(made(value.share())?)?;
        match snapshot(alloc, &self.store, values.as_slice()) {
            Ok(data) => {
                let mut text = Vec::new(alloc);
                for datum in data.items() {
                    made(data_text(alloc, datum, &mut text))?;
                }
                Ok(String::from_utf8(text)?)
            }
            Err(Refused::Rule { rule, .. }) => Ok(format!(in alloc; "M{}", rule.number())?),
            Err(Refused::NoMemory) => bail!("no memory"),
        }
    }
}
