//! The terminals and places of tokens, and what texts of tokens stand for.

use crate::placing::spelled;
use anyhow::{Result, bail, ensure};
use mt_parser_marks::{child_text, end_place, name, number, text, tokens_of};
use mt_tree::SOURCE_LIMIT;
use rows::{Line, add, made, quoted};
use std::alloc::Global;

/// The place and the terminal of each token of a source, and the place of its end.
pub fn terminals(alloc: Global, line: &Line) -> Result<String> {
    let source = line.bytes(alloc, 0)?;
    ensure!(source.len() <= SOURCE_LIMIT, "too long");
    let end = spelled(alloc, end_place(&source))?;
    let Ok(tokens) = mt_lexer::lex(alloc, &source) else {
        bail!("no tokens");
    };
    ensure!(tokens.source().len() <= SOURCE_LIMIT, "too long");
    let mut all = String::new(alloc);
    for token in tokens_of(alloc, &tokens)? {
        let place = spelled(alloc, token.mark.place)?;
        let terminal = token.terminal;
        add(&mut all, &format!(in alloc; "{place} {terminal:?},")?)?;
    }
    add(&mut all, &format!(in alloc; "end {end}")?)?;
    Ok(all)
}

/// What the text of a token stands for.
pub fn value(alloc: Global, line: &Line) -> Result<String> {
    let spelling = line.bytes(alloc, 0)?;
    let value = match line.call() {
        "name" => made(name(alloc, &spelling))?,
        "text" => made(text(alloc, &spelling))?,
        "quoted" => made(mt_parser_marks::quoted(alloc, &spelling))?,
        "child_text" => made(child_text(alloc, &spelling))?,
        _ => {
            let value = number(&spelling);
            return Ok(format!(in alloc; "{value}")?);
        }
    };
    quoted(alloc, value.as_str())
}
