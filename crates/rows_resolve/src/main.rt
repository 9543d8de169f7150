//! Client codes that run on one page, for each line of standard input, and how each ends on standard output. A line is `page` with a list
//! of texts: a code is resolved beside those before it and runs on the page; a name behind `?` asks for the value of a global variable, and
//! one behind `!` calls it. A line that begins with `#` is printed as it is.
//!
//! It promises nothing: its answers are compared with `stdout`, which is written from the rules of the language.
#![tactic(auto)]

mod page;

use anyhow::{Result, bail};
use page::Page;
use rows::{Line, add};
use std::alloc::Global;

fn main(rt: HostRuntime) -> Result<()> {
    for text in rt.lines(rt.alloc()) {
        let text = text?;
        if text.starts_with('#') {
            println!(rt; "{text}")?;
        } else {
            let answer = answer(rt.alloc(), &Line::read(rt.alloc(), &text)?)?;
            println!(rt; "{answer}")?;
        }
    }
    Ok(())
}

fn answer(alloc: Global, line: &Line) -> Result<String> {
    if line.call() != "page" {
        bail!("no such call");
    }
    let mut page = Page::new(alloc)?;
    let mut reported = String::new(alloc);
    for at in 0..line.arguments().len() {
        let word = page.reported(alloc, line.text(at)?)?;
        add(&mut reported, word.as_str())?;
    }
    Ok(reported)
}
