//! How elements are written.

use anyhow::{Result, bail};
use mt_tree::{Attribute, AttributeValue, Closure, Html, Text};
use rows::{add, quoted};
use std::alloc::Global;

// A text of more units is written by their number.
const MOST: u64 = 100;

/// The tag, the attributes and the children of an element.
pub fn element(alloc: Global, html: &Html<Closure>) -> Result<String> {
    let Html::Element(element) = html else {
        bail!("no element");
    };
    let mut all = String::from_str(alloc, element.tag.as_str())?;
    attributes(alloc, element.attributes.items(), &mut all)?;
    for child in element.children.items() {
        add(&mut all, &node(alloc, child)?)?;
    }
    Ok(all)
}

fn attributes(alloc: Global, attributes: &[Attribute<Closure>], all: &mut String) -> Result<()> {
    for attribute in attributes {
        add(all, attribute.name.as_str())?;
        add(all, &value(alloc, &attribute.value)?)?;
    }
    Ok(())
}

fn value(alloc: Global, value: &AttributeValue<Closure>) -> Result<String> {
    match value {
        AttributeValue::Plain(plain) => text(alloc, plain),
        AttributeValue::Handler(code) => Ok(format!(in alloc; "tilde-{}", code.tilde)?),
    }
}

fn node(alloc: Global, html: &Html<Closure>) -> Result<String> {
    match html {
        Html::Element(element) => {
            let count = element.children.items().len();
            Ok(format!(in alloc; "{}-of-{count}", element.tag.as_str())?)
        }
        Html::Text(plain) => text(alloc, plain),
        Html::Script(code) => Ok(format!(in alloc; "tilde-{}", code.tilde)?),
    }
}

fn text(alloc: Global, text: &Text) -> Result<String> {
    let units = text.units();
    if units > MOST {
        return Ok(format!(in alloc; "{units}-units")?);
    }
    quoted(alloc, text.as_str())
}
