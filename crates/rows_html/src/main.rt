//! Calls of the crate of HTML elements, one for each line of standard input, and an answer for each on standard output: the elements that
//! are made, with their children in normal form, or why none is. A line that begins with `#` is printed as it is.
//!
//! It promises nothing: its answers are compared with `stdout`, which is written from the rules of the language.
#![tactic(auto)]

mod making;
mod shown;

use anyhow::{Result, bail};
use mt_tree::Text;
use rows::{Line, made};
use std::alloc::Global;

fn main(rt: HostRuntime) -> Result<()> {
    for text in rt.lines(rt.alloc()) {
        let text = text?;
        if text.starts_with('#') {
            println!(rt; "{text}")?;
        } else {
            let answer = answer(rt.alloc(), &Line::read(rt.alloc(), &text)?)?;
            println!(rt; "{answer}")?;
        }
    }
    Ok(())
}

fn answer(alloc: Global, line: &Line) -> Result<String> {
    match line.call() {
        "element" => making::element(alloc, line),
        "has_nul" => has_nul(alloc, line),
        other => bail!("no call {other}"),
    }
}

fn has_nul(alloc: Global, line: &Line) -> Result<String> {
    let text = made(Text::from_str(alloc, line.text(0)?))?;
    Ok(format!(in alloc; "{}", mt_html::has_nul(&text))?)
}
