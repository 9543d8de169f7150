//! The words, literals and operators that code begins with, and what follows them.

use anyhow::Result;
use mt_json::data_text;
use mt_script_words::{
    CodeRefusal, after_word, datum, find_keyword, find_leader, first, is_word, mark, name, number,
    read_operator, string, text, word,
};
use rows::{Line, made, quoted};
use std::alloc::Global;
use std::str;

pub fn found(alloc: Global, line: &Line) -> Result<String> {
    let found = line.text(0)?.as_bytes();
    match line.call() {
        "find_keyword" => Ok(format!(in alloc; "{:?}", find_keyword(found))?),
        "find_leader" => Ok(format!(in alloc; "{:?}", find_leader(found))?),
        _ => Ok(format!(in alloc; "{}", is_word(line.text(1)?.as_bytes(), found))?),
    }
}

/// The word that a text begins with, or what follows it.
pub fn cut(alloc: Global, line: &Line) -> Result<String> {
    let bytes = line.text(0)?.as_bytes();
    match line.call() {
        "word" => text_of(alloc, word(bytes)),
        _ => text_of(alloc, after_word(bytes)),
    }
}

/// The text that the bytes are.
pub fn text_of(alloc: Global, bytes: &[u8]) -> Result<String> {
    Ok(String::from_str(alloc, str::from_utf8(bytes)?)?)
}

pub fn refused(alloc: Global, refusal: CodeRefusal) -> Result<String> {
    Ok(format!(in alloc; "{refusal:?}")?)
}

pub fn first_byte(alloc: Global, line: &Line) -> Result<String> {
    match first(line.text(0)?.as_bytes()) {
        Ok((byte, rest)) => {
            let rest = text_of(alloc, rest)?;
            Ok(format!(in alloc; "{byte} then {rest}")?)
        }
        Err(refusal) => refused(alloc, refusal),
    }
}

pub fn operator(alloc: Global, line: &Line) -> Result<String> {
    match read_operator(line.text(0)?.as_bytes()) {
        Ok((operator, rest)) => {
            let rest = text_of(alloc, rest)?;
            Ok(format!(in alloc; "{operator:?} then {rest}")?)
        }
        Err(refusal) => refused(alloc, refusal),
    }
}

pub fn content(alloc: Global, line: &Line) -> Result<String> {
    match string(alloc, line.text(0)?.as_bytes()) {
        Ok((content, rest)) => {
            let content = text_of(alloc, content.as_slice())?;
            let content = quoted(alloc, content.as_str())?;
            let rest = text_of(alloc, rest)?;
            Ok(format!(in alloc; "{content} then {rest}")?)
        }
        Err(refusal) => refused(alloc, refusal),
    }
}

pub fn characters(alloc: Global, line: &Line) -> Result<String> {
    match text(alloc, line.text(0)?.as_bytes()) {
        Ok((characters, rest)) => {
            let characters = quoted(alloc, characters.as_str())?;
            let rest = text_of(alloc, rest)?;
            Ok(format!(in alloc; "{characters} then {rest}")?)
        }
        Err(refusal) => refused(alloc, refusal),
    }
}

pub fn marked(alloc: Global, line: &Line) -> Result<String> {
    match mark(alloc, line.text(0)?.as_bytes()) {
        Ok((found, rest)) => {
            let name = quoted(alloc, found.name.as_str())?;
            let rest = text_of(alloc, rest)?;
            Ok(format!(in alloc; "{name} then {rest}")?)
        }
        Err(refusal) => refused(alloc, refusal),
    }
}

pub fn named(alloc: Global, line: &Line) -> Result<String> {
    match name(alloc, line.text(0)?.as_bytes()) {
        Ok(found) => quoted(alloc, found.as_str()),
        Err(refusal) => refused(alloc, refusal),
    }
}

pub fn numbered(alloc: Global, line: &Line) -> Result<String> {
    match number(alloc, line.text(0)?.as_bytes()) {
        Ok(found) => Ok(format!(in alloc; "{found}")?),
        Err(refusal) => refused(alloc, refusal),
    }
}

pub fn data(alloc: Global, line: &Line) -> Result<String> {
    match datum(alloc, line.text(0)?.as_bytes()) {
        Ok(found) => {
            let mut text = Vec::new(alloc);
            made(data_text(alloc, &found, &mut text))?;
            text_of(alloc, text.as_slice())
        }
        Err(refusal) => refused(alloc, refusal),
    }
}
