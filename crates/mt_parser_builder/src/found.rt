ghost use Rattle.std.specs.Prelude.{◌≡◌, [], length};
ghost use Rattle.mt_parser_builder.specs.Answer.{Gives};
ghost use Rattle.mt_parser_builder.specs.Found.{next_tilde, number_of};
ghost use Rattle.mt_parser_builder.specs.State.{found_of};

use crate::fault::Fault;
use mt_syntax::{Expr, Tilde};
use mt_tree::Row;
use std::alloc::Global;

// The tildes and dollars that were found so far.
#[derive(Drop)]
pub(crate) struct Found {
    // How many tildes begin before the first of these.
    pub(crate) before: u32,
    // In text order.
    pub(crate) tildes: Vec<Tilde>,
    // Of the tilde that is being read, in text order.
    pub(crate) dollars: Vec<Expr>,
}

impl Found {
    // The number of the next tilde. A number fits 32 bits, and so does the one behind it.
    pub(crate) fn next_tilde(&self) -> Result<u32, Fault>
        ensures { Gives result (number_of (next_tilde (found_of self.now))) }
    {
        let number = self.before as u64 + self.tildes.len() as u64;
        if number < u32::MAX as u64 {
            Ok(number as u32)
        } else {
            Err(Fault::Malformed)
        }
    }

    // The number of the next dollar.
    pub(crate) fn next_dollar(&self) -> Result<u32, Fault>
        ensures { Gives result (number_of (length (found_of self.now).dollars)) }
    {
        let number = self.dollars.len();
        if number < u32::MAX as usize {
            Ok(number as u32)
        } else {
            Err(Fault::Malformed)
        }
    }
}

// Nothing was found yet behind `before` tildes.
pub(crate) fn nothing_after(alloc: Global, before: u32) -> Found
    ensures { found_of result ≡ record { before = before; tildes = []; dollars = [] } }
{
    Found {
        before,
        tildes: Vec::new(alloc),
        dollars: Vec::new(alloc),
    }
}
