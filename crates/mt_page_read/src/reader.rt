use crate::machine::Machine;
use mt_page_tokens::ReadRefusal;
use mt_syntax::Code;
use mt_tree::{BODY_LIMIT, Html, NoMemory};
use std::alloc::Global;

/// Reads a page or a fragment as its bytes come, in pieces of any size. It keeps the tree so far and the bytes behind the last whole
/// token, at most 4,194,304 of them, and nothing any more once neither a page nor a fragment begins with the bytes that were fed.
#[derive(Drop)]
pub struct PageReader {
    alloc: Global,
    // How many bytes may still come.
    left: usize,
    // Nothing where the bytes are refused.
    machine: Option<Machine>,
}

impl PageReader {
    ghost use Rattle.std.specs.Prelude.{◌≡◌, ◌++◌, ◌≤◌, [], true, false, length, Bool, Err, IfOk, IsTrue, List, OnOk, ℕ};
    ghost use Rattle.mt_page_tokens.specs.Limits.{IsPage};
    ghost use Rattle.mt_page_tokens.specs.Tokens.{Page, text_of};
    ghost use Rattle.mt_page_read.specs.Fed.{BeginsNone, HasRead};
    ghost use Rattle.mt_page_read.specs.Held.{held_of, tokens_of};

    /// A reader of a page, which was fed nothing. Takes no memory.
    pub fn new(alloc: Global) -> PageReader
        ensures { HasRead true [] result }
    {
        PageReader {
            alloc,
            left: BODY_LIMIT,
            machine: Some(Machine::new(alloc, true)),
        }
    }

    /// A reader of a fragment, which was fed nothing. Takes no memory.
    pub fn fragment(alloc: Global) -> PageReader
        ensures { HasRead false [] result }
    {
        PageReader {
            alloc,
            left: BODY_LIMIT,
            machine: Some(Machine::new(alloc, false)),
        }
    }

    // Takes the next bytes, of which there aren't too many.
    fn take(&mut self, piece: &[u8]) -> Result<(), NoMemory>
        requires { length piece.now ≤ self.old.left }
        ensures { OnOk result ((whole : Bool) (fed : List ℕ) → HasRead whole fed self.old → HasRead whole (fed ++ piece.now) self.new) }
    {
        match &mut self.machine {
            Some(machine) => {
                machine.take(self.alloc, piece)?;
                self.left -= piece.len();
                Ok(())
            }
            None => Ok(()),
        }
    }

    // Whether nothing begins with what was read.
    fn is_over(&self) -> bool
        ensures { IsTrue result → (whole : Bool) (fed : List ℕ) → HasRead whole fed self.now → BeginsNone whole fed }
    {
        match &self.machine {
            Some(machine) => machine.is_over(),
            None => false,
        }
    }

    /// Takes the next bytes.
    ///
    /// # Errors
    /// `NoMemory`; the reader may then only be dropped.
    pub fn feed(&mut self, piece: &[u8]) -> Result<(), NoMemory>
        ensures { OnOk result ((whole : Bool) (fed : List ℕ) → HasRead whole fed self.old → HasRead whole (fed ++ piece.now) self.new) }
    {
        if piece.len() > self.left {
            self.machine = None;
            return Ok(());
        }
        self.take(piece)?;
        if self.is_over() {
            self.machine = None;
        }
        Ok(())
    }

    /// The bytes behind the last whole token, as long as a page within the limits, or a fragment, begins with the bytes that were fed. The
    /// tokens are `<!DOCTYPE html>`, an opening tag, a closing tag, a text up to the next `<`, and a script with its tags. Takes no memory.
    pub fn held(&self) -> &[u8]
        ensures { (whole : Bool) (fed more : List ℕ) (page : Page) → HasRead whole fed self.now → IsPage whole page → text_of whole page ≡ fed ++ more → result.now ≡ held_of (tokens_of whole page) fed }
    {
        match &self.machine {
            Some(machine) => machine.held.items(),
            None => &[],
        }
    }

    /// The page, or the fragment, whose text the bytes fed are. Takes no memory.
    ///
    /// # Errors
    /// `NotPage` exactly where no page within the limits has this text, or no fragment.
    pub fn finish(self) -> Result<Html<Code>, ReadRefusal>
        ensures found { IfOk result (λ page. (whole : Bool) (fed : List ℕ) → HasRead whole fed self → IsPage whole page × (text_of whole page ≡ fed)) }
        ensures refused { result ≡ Err ReadRefusal.NotPage → (whole : Bool) (fed : List ℕ) (page : Page) → HasRead whole fed self → IsPage whole page → text_of whole page ≡ fed → ⊥ }
        ensures memory { result ≡ Err ReadRefusal.NoMemory → ⊥ }
    {
        let PageReader {
            alloc: _,
            left: _,
            machine,
        } = self;
        match machine {
            Some(machine) => machine.finish(),
            None => Err(ReadRefusal::NotPage),
        }
    }
}
