//! What the readers and writers of texts of data are made of.

use anyhow::{Result, ensure};
use mt_json::{append_separator, hexadecimal, hexadecimal_digit, is_digit, past_comma, skip};
use rows::{Line, made};
use std::alloc::Global;
use std::str;

/// What is left of a text without some of its first bytes, or a text with a comma behind it.
pub fn cut(alloc: Global, line: &Line) -> Result<String> {
    let bytes = line.text(0)?.as_bytes();
    match line.call() {
        "past_comma" => Ok(String::from_str(alloc, str::from_utf8(past_comma(bytes))?)?),
        "skip" => {
            let count = usize::try_from(line.number(1)?)?;
            Ok(String::from_str(alloc, str::from_utf8(skip(bytes, count))?)?)
        }
        _ => {
            let mut into = Vec::from_slice(alloc, bytes)?;
            made(append_separator(!bytes.is_empty(), &mut into))?;
            Ok(String::from_str(alloc, str::from_utf8(into.as_slice())?)?)
        }
    }
}

/// What a byte is as a digit, or the digit of a number.
pub fn digit(alloc: Global, line: &Line) -> Result<String> {
    let byte = u8::try_from(line.number(0)?)?;
    match line.call() {
        "is_digit" => Ok(format!(in alloc; "{}", is_digit(byte))?),
        "hexadecimal" => Ok(format!(in alloc; "{}", hexadecimal(byte))?),
        _ => {
            ensure!(byte < 16, "no digit");
            Ok(format!(in alloc; "{}", hexadecimal_digit(byte))?)
        }
    }
}
