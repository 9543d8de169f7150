use crate::page::Given;
use crate::step::Step;
use anyhow::{Context, Result, bail};
use mt_events::{Dispatch, Listeners, Turn};
use mt_value::{Address, Cell, Store};
use rows::{add, made};
use std::alloc::Global;

/// A page, who listens on it, and an event on its way.
#[derive(Drop)]
pub struct Scene {
    page: Given,
    functions: Vec<Address>,
    listeners: Listeners,
    dispatch: Option<Dispatch>,
}

impl Scene {
    /// An empty page, without listeners and events.
    pub fn new(alloc: Global) -> Result<Scene> {
        Ok(Scene {
            page: Given {
                path: Vec::new(alloc),
                handlers: Vec::new(alloc),
            },
            functions: functions(alloc)?,
            listeners: Listeners::new(alloc),
            dispatch: None,
        })
    }

    /// Runs a step, and adds what it prints.
    pub fn run(&mut self, alloc: Global, step: &Step<'_>, answer: &mut String) -> Result<()> {
        match step.word(0)? {
            "path" => self.page.path = step.numbers(alloc, 1)?,
            "handlers" => self.page.handlers = step.numbers(alloc, 1)?,
            "add" => {
                let function = function(&self.functions, step.number(3)?)?;
                made(self.listeners.add(step.number(1)?, step.kind(2)?, function))?;
            }
            "drop" => {
                let function = function(&self.functions, step.number(3)?)?;
                self.listeners
                    .drop_one(step.number(1)?, step.kind(2)?, function);
            }
            "start" => {
                let start = Dispatch::start(alloc, &self.page, step.number(1)?, step.kind(2)?);
                self.dispatch = Some(made(start)?);
            }
            "next" => {
                let turn = self.next()?;
                add(answer, shown(alloc, &self.functions, turn)?.as_str())?;
            }
            "stop" => self.dispatch.as_mut().context("no dispatch")?.stop(),
            other => bail!("no step {other}"),
        }
        Ok(())
    }

    fn next(&mut self) -> Result<Option<Turn>> {
        let dispatch = self.dispatch.as_mut().context("no dispatch")?;
        made(dispatch.next(&self.page, &self.listeners))
    }
}

// The cells of four functions.
fn functions(alloc: Global) -> Result<Vec<Address>> {
    let mut store = Store::new(alloc);
    let mut functions = Vec::new(alloc);
    for _function in 0..4 {
        functions.push(made(store.add(Cell::Variable(None)))?)?;
    }
    Ok(functions)
}

fn function(functions: &[Address], number: usize) -> Result<Address> {
    Ok(*functions.get(number).context("no function")?)
}

fn number_of(functions: &[Address], function: Address) -> Option<usize> {
    for number in 0..functions.len() {
        if functions[number] == function {
            return Some(number);
        }
    }
    None
}

fn listener(
    alloc: Global,
    functions: &[Address],
    node: usize,
    function: Address,
) -> Result<String> {
    let number = number_of(functions, function).context("no function")?;
    Ok(format!(in alloc; "listener {node} {number}")?)
}

// A turn in words: a function is given by its number.
fn words(alloc: Global, functions: &[Address], turn: Turn) -> Result<String> {
    match turn {
        Turn::Handler(node) => Ok(format!(in alloc; "handler {node}")?),
        Turn::Listener(node, function) => listener(alloc, functions, node, function),
    }
}

fn shown(alloc: Global, functions: &[Address], turn: Option<Turn>) -> Result<String> {
    match turn {
        Some(turn) => words(alloc, functions, turn),
        None => Ok(String::from_str(alloc, "over")?),
    }
}
