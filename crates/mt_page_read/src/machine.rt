ghost use Rattle.std.specs.Prelude.{◌≡◌, Err, IsTrue, OnOk};
ghost use Rattle.mt_page_tokens.specs.Reading.{Gives};
ghost use Rattle.mt_page_read.specs.Machine.{after, finished, run, start, step as stepped};
ghost use Rattle.mt_page_read.specs.declared.machine.Mode.TheVariants as mode;
ghost use Rattle.mt_page_read.specs.Over.{IsOver};

use crate::stack::Stack;
use crate::tree::{Growing, Stage};
use mt_page_tokens::{ReadRefusal, is_same};
use mt_syntax::Code;
use mt_tree::{Buffer, Html, NoMemory};
use std::alloc::Global;

/// In what the bytes end.
#[derive(Clone, Copy)]
pub enum Mode {
    /// A text, or nothing.
    Words,
    /// A tag, behind its `<`.
    Tag,
    /// The code of a script.
    Script,
    /// The code of a script, behind a `<`.
    Less,
    /// The closing tag of a script, behind its `</`.
    Slash,
}

/// A reader of pages and fragments of any length.
#[derive(Drop)]
pub struct Machine {
    /// In what the bytes end.
    pub mode: Mode,
    /// The bytes behind the last whole token.
    pub held: Buffer<u8>,
    /// What the tokens made.
    pub tree: Growing,
}

impl Machine {
    /// A reader that was fed nothing. Takes no memory.
    pub fn new(alloc: Global, whole: bool) -> Machine
        ensures { result ≡ start whole }
    {
        let stage = if whole { Stage::Doctype } else { Stage::Root };
        Machine {
            mode: Mode::Words,
            held: Buffer::new(alloc),
            tree: Growing {
                stage,
                frames: Stack::new(alloc),
            },
        }
    }

    // Takes a byte behind a text.
    #[tactic(auto, unfolding(crate::specs::Machine::step))]
    fn step_words(&mut self, alloc: Global, byte: u8) -> Result<(), NoMemory>
        requires { self.old.mode ≡ mode.Words }
        ensures { OnOk result (self.new ≡ after byte mode.Words self.old.held self.old.tree) }
    {
        if byte == b'<' {
            self.tree.words(alloc, self.held.items())?;
            self.held = Buffer::new(alloc);
            self.mode = Mode::Tag;
        }
        self.held.push(byte)
    }

    // Takes a byte of a tag.
    fn step_tag(&mut self, alloc: Global, byte: u8) -> Result<(), NoMemory>
        requires { self.old.mode ≡ mode.Tag }
        ensures { OnOk result (self.new ≡ after byte mode.Tag self.old.held self.old.tree) }
    {
        if byte != b'>' {
            return self.held.push(byte);
        }
        if is_same(b"<script", self.held.items()) {
            self.mode = Mode::Script;
            return self.held.push(byte);
        }
        self.tree.tag(alloc, self.held.items())?;
        self.held = Buffer::new(alloc);
        self.mode = Mode::Words;
        Ok(())
    }

    // Takes a byte of the closing tag of a script.
    fn step_slash(&mut self, alloc: Global, byte: u8) -> Result<(), NoMemory>
        requires { self.old.mode ≡ mode.Slash }
        ensures { OnOk result (self.new ≡ after byte mode.Slash self.old.held self.old.tree) }
    {
        if byte != b'>' {
            return self.held.push(byte);
        }
        self.tree.script(alloc, self.held.items())?;
        self.held = Buffer::new(alloc);
        self.mode = Mode::Words;
        Ok(())
    }

    #[tactic(auto, unfolding(crate::specs::Machine::step))]
    fn step(&mut self, alloc: Global, byte: u8) -> Result<(), NoMemory>
        ensures { OnOk result (self.new ≡ stepped byte self.old) }
    {
        match self.mode {
            Mode::Words => self.step_words(alloc, byte),
            Mode::Tag => self.step_tag(alloc, byte),
            Mode::Script => {
                if byte == b'<' {
                    self.mode = Mode::Less;
                }
                self.held.push(byte)
            }
            Mode::Less => {
                self.mode = match byte {
                    b'/' => Mode::Slash,
                    b'<' => Mode::Less,
                    _ => Mode::Script,
                };
                self.held.push(byte)
            }
            Mode::Slash => self.step_slash(alloc, byte),
        }
    }

    /// Takes the next bytes.
    ///
    /// # Errors
    /// `NoMemory`; the reader may then only be dropped.
    pub fn take(&mut self, alloc: Global, piece: &[u8]) -> Result<(), NoMemory>
        ensures { OnOk result (self.new ≡ run piece.now self.old) }
    {
        for byte in piece {
            self.step(alloc, *byte)?;
        }
        Ok(())
    }

    /// Whether neither what was read nor anything that begins with it is whole. Takes no memory.
    pub fn is_over(&self) -> bool
        ensures { IsTrue result → IsOver self.now }
    {
        match self.tree.stage {
            Stage::Refused => self.tree.frames.is_empty(),
            Stage::Done(_) => !self.held.items().is_empty() && self.tree.frames.is_empty(),
            _ => false,
        }
    }

    /// What was read, where it is whole.
    ///
    /// # Errors
    /// `NotPage` exactly where it is not.
    pub fn finish(self) -> Result<Html<Code>, ReadRefusal>
        ensures found { Gives (λ page. page) result (finished self) }
        ensures memory { result ≡ Err ReadRefusal.NoMemory → ⊥ }
    {
        let Machine {
            mode: _,
            held,
            tree,
        } = self;
        let Growing { stage, frames: _ } = tree;
        match stage {
            Stage::Done(page) => {
                if held.items().is_empty() {
                    Ok(page)
                } else {
                    Err(ReadRefusal::NotPage)
                }
            }
            _ => Err(ReadRefusal::NotPage),
        }
    }
}
