ghost use Rattle.mt_page_read.specs.Machine.{is_root as stage_is_root};
ghost use Rattle.mt_page_tokens.specs.Reading.{opening_at};
ghost use Rattle.std.specs.Str.{bytes_eq};
ghost use Rattle.mt_page_tokens.specs.Tokens.{closing, doctype};
ghost use Rattle.std.specs.Prelude.{◌≡◌, ◌∷◌, [], Option, Some, MatchOption, OnOk, IfOk, length};
ghost use Rattle.mt_page_tokens.specs.Limits.{is_element as of_element};
ghost use Rattle.mt_page_read.specs.Machine.{rooted, grown as tree_grown, opened as tree_opened, closed as tree_closed, tagged as tree_tagged, worded as tree_worded, scripted as tree_scripted, element_of, refused as tree_refused, growing};

use crate::children::Children;
use crate::stack::Stack;
use mt_page_tokens::{Opening, ReadRefusal, is_same, read_opening, read_script, read_words};
use mt_syntax::Code;
use mt_tree::{Attribute, Element, Html, NoMemory, Row, Text, append, tag_void};
use std::alloc::Global;

/// An element that is open.
#[derive(Drop)]
pub struct Frame {
    /// The tag's name.
    pub tag: Text,
    /// The attributes, in text order.
    pub attributes: Row<Attribute<Code>>,
    /// The children so far, in document order.
    pub children: Children<Html<Code>>,
}

/// How far the tree is.
#[derive(Drop)]
pub enum Stage {
    /// Before `<!DOCTYPE html>`.
    Doctype,
    /// Before the end of the root.
    Root,
    /// Behind the root.
    Done(Html<Code>),
    /// In bytes with which nothing begins.
    Refused,
}

/// What was read of the tree.
#[derive(Drop)]
pub struct Growing {
    /// How far it is.
    pub stage: Stage,
    /// The open elements, the innermost on top.
    pub frames: Stack<Frame>,
}

fn is_element(page: &Html<Code>) -> bool
    ensures { result ≡ of_element page.now }
{
    match page {
        Html::Element(_) => true,
        Html::Text(_) | Html::Script(_) => false,
    }
}

fn element_of(alloc: Global, frame: Frame) -> Result<Html<Code>, NoMemory>
    ensures { IfOk result (λ page. page ≡ element_of frame) }
{
    let children = frame.children.into_row(alloc)?;
    Ok(Html::Element(Element {
        tag: frame.tag,
        attributes: frame.attributes,
        children,
    }))
}

impl Growing {
    fn refuse(&mut self, alloc: Global)
        ensures { self.new ≡ tree_refused }
    {
        self.stage = Stage::Refused;
        self.frames = Stack::new(alloc);
    }

    fn root(&mut self, page: Html<Code>)
        ensures { self.new ≡ growing (rooted page self.old.stage) self.old.frames }
    {
        let waits = match self.stage {
            Stage::Root => true,
            _ => false,
        };
        if waits && is_element(&page) {
            self.stage = Stage::Done(page);
        } else {
            self.stage = Stage::Refused;
        }
    }

    #[tactic(auto, unfolding(crate::specs::Machine::grown))]
    fn grow(&mut self, page: Html<Code>) -> Result<(), NoMemory>
        ensures { OnOk result (self.new ≡ tree_grown page self.old) }
    {
        match self.frames.pop() {
            None => {
                self.root(page);
                Ok(())
            }
            Some(mut frame) => {
                frame.children.push(page)?;
                self.frames.push(frame)
            }
        }
    }

    fn is_root(&self) -> bool
        ensures { result ≡ stage_is_root self.now.stage }
    {
        match self.stage {
            Stage::Root => true,
            _ => false,
        }
    }

    #[tactic(auto, unfolding(crate::specs::Machine::opened))]
    fn open_with(&mut self, alloc: Global, opening: Opening) -> Result<(), NoMemory>
        ensures { OnOk result (self.new ≡ tree_opened (Some opening) self.old) }
    {
        let room = self.is_root() && self.frames.len() < 60;
        if !room {
            self.refuse(alloc);
            return Ok(());
        }
        let closes = tag_void(opening.tag.as_bytes());
        let frame = Frame {
            tag: opening.tag,
            attributes: opening.attributes,
            children: Children::new(alloc),
        };
        if closes {
            let page = element_of(alloc, frame)?;
            self.grow(page)
        } else {
            self.frames.push(frame)
        }
    }

    #[tactic(auto, unfolding(crate::specs::Machine::opened))]
    fn open(&mut self, alloc: Global, bytes: &[u8]) -> Result<(), NoMemory>
        ensures { OnOk result (self.new ≡ tree_opened (opening_at bytes.now) self.old) }
    {
        match read_opening(alloc, bytes) {
            Ok(found) => self.open_with(alloc, found),
            Err(ReadRefusal::NotPage) => {
                self.refuse(alloc);
                Ok(())
            }
            Err(ReadRefusal::NoMemory) => Err(NoMemory),
        }
    }

    #[tactic(auto, unfolding(crate::specs::Machine::closed))]
    fn close(&mut self, alloc: Global, bytes: &[u8]) -> Result<(), NoMemory>
        ensures { OnOk result (self.new ≡ tree_closed bytes.now self.old) }
    {
        match self.frames.pop() {
            None => {
                self.refuse(alloc);
                Ok(())
            }
            Some(frame) => {
                if closes(alloc, &frame.tag, bytes)? {
                    let page = element_of(alloc, frame)?;
                    self.grow(page)
                } else {
                    self.refuse(alloc);
                    Ok(())
                }
            }
        }
    }

    /// Takes a tag, of its bytes before the `>`.
    #[tactic(auto, unfolding(crate::specs::Machine::tagged))]
    pub(crate) fn tag(&mut self, alloc: Global, bytes: &[u8]) -> Result<(), NoMemory>
        ensures { OnOk result (self.new ≡ tree_tagged bytes.now self.old) }
    {
        match self.stage {
            Stage::Doctype => {
                if is_doctype(bytes) {
                    self.stage = Stage::Root;
                } else {
                    self.refuse(alloc);
                }
                Ok(())
            }
            _ => {
                if bytes.starts_with(b"</") {
                    self.close(alloc, bytes)
                } else {
                    self.open(alloc, bytes)
                }
            }
        }
    }

    /// Takes a text, if there is one.
    #[tactic(auto, unfolding(crate::specs::Machine::worded))]
    pub(crate) fn words(&mut self, alloc: Global, bytes: &[u8]) -> Result<(), NoMemory>
        ensures { OnOk result (self.new ≡ tree_worded bytes.now self.old) }
    {
        if bytes.is_empty() {
            return Ok(());
        }
        match read_words(alloc, bytes) {
            Ok(found) => self.grow(Html::Text(found)),
            Err(ReadRefusal::NotPage) => {
                self.refuse(alloc);
                Ok(())
            }
            Err(ReadRefusal::NoMemory) => Err(NoMemory),
        }
    }

    /// Takes a script, of its bytes before the last `>`.
    #[tactic(auto, unfolding(crate::specs::Machine::scripted))]
    pub(crate) fn script(&mut self, alloc: Global, bytes: &[u8]) -> Result<(), NoMemory>
        ensures { OnOk result (self.new ≡ tree_scripted bytes.now self.old) }
    {
        match read_script(alloc, bytes) {
            Ok(found) => self.grow(Html::Script(found)),
            Err(ReadRefusal::NotPage) => {
                self.refuse(alloc);
                Ok(())
            }
            Err(ReadRefusal::NoMemory) => Err(NoMemory),
        }
    }
}

fn is_doctype(bytes: &[u8]) -> bool
    ensures { result ≡ bytes_eq doctype bytes.now }
{
    is_same(b"<!DOCTYPE html", bytes)
}

fn closes(alloc: Global, tag: &Text, bytes: &[u8]) -> Result<bool, NoMemory>
    ensures { IfOk result (λ b. b ≡ bytes_eq (closing tag.now) bytes.now) }
{
    let mut again = Vec::new(alloc);
    append(b"</", &mut again)?;
    append(tag.as_bytes(), &mut again)?;
    Ok(is_same(again.as_slice(), bytes))
}
