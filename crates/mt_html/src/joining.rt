ghost use Rattle.std.specs.Prelude.{◌≡◌, [], ◌∷◌, ◌++◌, List, IfOk, OnOk};
ghost use Rattle.std.specs.Option.{option_copied};
ghost use Rattle.std.specs.Str.{chars};
ghost use Rattle.std.specs.String.{string_bytes};
ghost use Rattle.mt_html.specs.Normal as spec;
ghost use Rattle.mt_html.specs.Normal.{normal, with_node, with_text};
ghost use Rattle.mt_tree.specs.declared.closure.Closure.{Closure};
ghost use Rattle.mt_tree.specs.declared.html.Html.{Html};

use mt_tree::{Closure, Element, Html, NoMemory, Row, Text, push};
use std::alloc::Global;

/// The text that a node is. Takes no memory.
pub(crate) fn text_in(node: &Html<Closure>) -> Option<&Text>
    ensures { option_copied result ≡ spec.text_of node.now }
{
    match node {
        Html::Text(text) => Some(text),
        Html::Element(_) | Html::Script(_) => None,
    }
}

/// An equal node, which shares what is in it.
///
/// # Errors
/// `NoMemory`.
fn shared(node: &Html<Closure>) -> Result<Html<Closure>, NoMemory>
    ensures { IfOk result (λ made. made ≡ node.now) }
{
    match node {
        Html::Element(element) => {
            let tag = element.tag.share()?;
            let attributes = element.attributes.share()?;
            let children = element.children.share()?;
            Ok(Html::Element(Element {
                tag,
                attributes,
                children,
            }))
        }
        Html::Text(text) => Ok(Html::Text(text.share()?)),
        Html::Script(code) => {
            let values = code.values.share()?;
            Ok(Html::Script(Closure {
                tilde: code.tilde,
                values,
            }))
        }
    }
}

/// Puts a text behind another.
#[tactic(auto, using(crate::proofs::Characters::pushed))]
fn push_text(into: &mut String, text: &Text) -> Result<(), NoMemory>
    ensures { OnOk result (chars (string_bytes into.new) ≡ chars (string_bytes into.old) ++ text.now) }
{
    into.push_str(text.as_str())?;
    Ok(())
}

/// Ends a run of texts: what was gathered is a text behind the nodes, unless it is empty.
fn end_run(alloc: Global, made: &mut Vec<Html<Closure>>, run: &mut String) -> Result<(), NoMemory>
    ensures made { OnOk result (made.new.items ≡ made.old.items ++ with_text (chars (string_bytes run.old)) []) }
    ensures run { OnOk result (chars (string_bytes run.new) ≡ []) }
{
    if !run.as_str().is_empty() {
        let text = Text::from_str(alloc, run.as_str())?;
        push(made, Html::Text(text))?;
        run.clear();
    }
    Ok(())
}

/// Puts a child behind what was made and gathered of those before it.
fn put(
    alloc: Global,
    made: &mut Vec<Html<Closure>>,
    run: &mut String,
    child: &Html<Closure>,
) -> Result<(), NoMemory>
    ensures { OnOk result ((rest : List (Html Closure)) → made.new.items ++ with_text (chars (string_bytes run.new)) rest
        ≡ made.old.items ++ with_text (chars (string_bytes run.old)) (with_node child.now (spec.text_of child.now) rest)) }
{
    match text_in(child) {
        Some(text) => {
            push_text(run, text)?;
            Ok(())
        }
        None => {
            end_run(alloc, made, run)?;
            let node = shared(child)?;
            push(made, node)?;
            Ok(())
        }
    }
}

/// The children in normal form. Takes memory in proportion to them and to the texts among them.
///
/// # Errors
/// `NoMemory`.
pub(crate) fn joined(
    alloc: Global,
    children: &[Html<Closure>],
) -> Result<Row<Html<Closure>>, NoMemory>
    ensures { IfOk result (λ row. row ≡ normal children.now) }
{
    let mut made = Vec::new(alloc);
    let mut run = String::new(alloc);
    for child in children {
        put(alloc, &mut made, &mut run, child)?;
    }
    end_run(alloc, &mut made, &mut run)?;
    Row::from_vec(alloc, made)
}
