//! Elements that are made. A child is a text, as often as the count says, or client code by the number of its tilde, or, in a list, so
//! many elements in one another round a text. An attribute is a name and what it has, a text or the number of a tilde.

use crate::shown;
use anyhow::{Context, Result, bail};
use mt_tree::{Attribute, AttributeValue, Closure, Html, Row, Text, push};
use rows::{Line, made};
use serde_json::Value;
use std::alloc::Global;
use std::str;

/// The element of a tag, attributes and children.
pub fn element(alloc: Global, line: &Line) -> Result<String> {
    let tag = made(Text::from_str(alloc, line.text(0)?))?;
    let attributes = made(Row::from_vec(alloc, attributes(alloc, line)?))?;
    let children = made(Row::from_vec(alloc, children(alloc, line)?))?;
    match mt_html::element(alloc, &tag, attributes, children) {
        Ok(html) => shown::element(alloc, &html),
        Err(refusal) => Ok(format!(in alloc; "{refusal:?}")?),
    }
}

fn attributes(alloc: Global, line: &Line) -> Result<Vec<Attribute<Closure>>> {
    let list = line.argument(1)?.as_array().context("no attributes")?;
    let mut attributes = Vec::new(alloc);
    for pair in list.chunks_exact(2) {
        made(push(&mut attributes, attribute(alloc, pair)?))?;
    }
    Ok(attributes)
}

fn attribute(alloc: Global, pair: &[Value]) -> Result<Attribute<Closure>> {
    let [name, value] = pair else {
        bail!("no pair");
    };
    let name = made(Text::from_str(alloc, name.as_str().context("no name")?))?;
    let value = match value.as_str() {
        Some(text) => AttributeValue::Plain(made(Text::from_str(alloc, text))?),
        None => AttributeValue::Handler(closure(alloc, value)?),
    };
    Ok(Attribute { name, value })
}

fn closure(alloc: Global, tilde: &Value) -> Result<Closure> {
    let tilde = u32::try_from(tilde.as_i64().context("no tilde")?)?;
    let values = made(Row::from_vec(alloc, Vec::new(alloc)))?;
    Ok(Closure { tilde, values })
}

fn children(alloc: Global, line: &Line) -> Result<Vec<Html<Closure>>> {
    let list = line.argument(2)?.as_array().context("no children")?;
    let mut children = Vec::new(alloc);
    for child in list.iter() {
        made(push(&mut children, node(alloc, child, line.count())?))?;
    }
    Ok(children)
}

fn node(alloc: Global, child: &Value, count: usize) -> Result<Html<Closure>> {
    match child {
        Value::String(text) => Ok(Html::Text(repeated(alloc, text.as_str(), count)?)),
        Value::Array(levels) => {
            let levels = levels.as_slice().first().context("no levels")?;
            nested(alloc, levels.as_i64().context("no number")?)
        }
        tilde => Ok(Html::Script(closure(alloc, tilde)?)),
    }
}

fn repeated(alloc: Global, text: &str, count: usize) -> Result<Text> {
    let mut all = String::new(alloc);
    for _again in 0..count {
        all.push_str(text)?;
    }
    made(Text::from_str(alloc, all.as_str()))
}

fn nested(alloc: Global, levels: i64) -> Result<Html<Closure>> {
    let mut html = Html::Text(made(Text::from_str(alloc, "x"))?);
    for _level in 0..levels {
        html = round(alloc, html)?;
    }
    Ok(html)
}

fn round(alloc: Global, child: Html<Closure>) -> Result<Html<Closure>> {
    let tag = made(Text::from_str(alloc, "p"))?;
    let attributes = made(Row::from_vec(alloc, Vec::new(alloc)))?;
    let mut children = Vec::new(alloc);
    made(push(&mut children, child))?;
    let children = made(Row::from_vec(alloc, children))?;
    made(mt_html::element(alloc, &tag, attributes, children))
}
