//! The tokens of a source.

use anyhow::{Result, ensure};
use mt_lexer::Tokens;
use mt_tree::SOURCE_LIMIT;
use rows::{Line, add, quoted};
use std::alloc::Global;
use std::str;

/// The tokens of a source with their texts, or its refusal; of a source of repeated text the number of the tokens.
pub fn lex(alloc: Global, line: &Line) -> Result<String> {
    let source = line.bytes(alloc, 0)?;
    ensure!(source.len() <= SOURCE_LIMIT, "too long");
    let tokens = match mt_lexer::lex(alloc, &source) {
        Ok(tokens) => tokens,
        Err(refusal) => return Ok(format!(in alloc; "{refusal:?}")?),
    };
    if line.count() == 1 {
        return listed(alloc, &tokens);
    }
    let bytes = tokens.source().len();
    let count = tokens.list().len();
    Ok(format!(in alloc; "{count} tokens of {bytes} bytes")?)
}

fn listed(alloc: Global, tokens: &Tokens<'_>) -> Result<String> {
    let mut all = String::new(alloc);
    for token in tokens.list() {
        let kind = token.kind;
        let text = quoted(alloc, str::from_utf8(token.text)?)?;
        add(&mut all, &format!(in alloc; "{kind:?} {text}")?)?;
    }
    Ok(all)
}
