//! Names that are resolved to slots.

ghost use Rattle.std.specs.Prelude.{◌≤◌};
ghost use Rattle.mt_syntax.specs.Depth.{depth_of};
ghost use Rattle.mt_tree.specs.Limits.{depth_limit};

use crate::sources::resolved;
use anyhow::{Result, bail};
use mt_resolve::{Units, resolve_client};
use mt_script_read::read_code;
use mt_syntax::Stmt;
use mt_tree::{Row, Text};
use rows::{Line, add, made};
use std::alloc::Global;

/// The places of the cells that a service of an application captures.
pub fn captured(alloc: Global, line: &Line) -> Result<String> {
    let units = resolved(alloc, line.text(0)?)?;
    let name = made(Text::from_str(alloc, line.text(1)?))?;
    match units.service(&name) {
        Some(function) => listed(alloc, units.captured(function)),
        None => bail!("no service"),
    }
}

fn listed(alloc: Global, places: &[u32]) -> Result<String> {
    let mut all = String::from_str(alloc, "captured")?;
    for place in places {
        add(&mut all, &format!(in alloc; "{place}")?)?;
    }
    Ok(all)
}

/// How many functions there are once client code is added to the code of a page.
pub fn client(alloc: Global, line: &Line) -> Result<String> {
    match read_code(alloc, line.text(0)?.as_bytes()) {
        Ok(code) => added(alloc, &code.body),
        Err(_refusal) => bail!("no code"),
    }
}

fn added(alloc: Global, body: &Row<Stmt>) -> Result<String>
    requires { depth_of body.now ≤ depth_limit }
{
    let mut units = made(Units::new(alloc))?;
    let _unit = made(resolve_client(alloc, body, &mut units))?;
    let count = units.functions().len();
    Ok(format!(in alloc; "functions {count}")?)
}
