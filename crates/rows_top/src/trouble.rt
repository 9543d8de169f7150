ghost use Rattle.std.specs.Prelude.{◌<◌};

use anyhow::{Result, ensure};
use mt_outside::{Alteration, Slot};
use rows::Line;
use std::alloc::Global;

/// The numbers of the calls that fail, which bytes arrive as others, and the length of a piece, which is not 0.
#[derive(Drop)]
pub struct Trouble {
    pub files: Vec<u64>,
    pub sink: Vec<u64>,
    pub wire: Vec<u64>,
    pub alterations: Vec<Alteration>,
    pub piece: usize,
    ghost positive: { 0 < piece },
}

impl Trouble {
    /// What a line says: a call of `files`, `sink` or `wire` by its number that fails, or a byte of the `request` or `reply` by its place
    /// that arrives as another.
    pub fn read(alloc: Global, line: &Line, number: u64, byte: u8) -> Result<Trouble> {
        let piece = usize::try_from(line.number(1)?)?;
        ensure!(piece > 0, "no piece");
        let mut trouble = Trouble {
            files: Vec::new(alloc),
            sink: Vec::new(alloc),
            wire: Vec::new(alloc),
            alterations: Vec::new(alloc),
            piece,
        };
        match line.text(2)? {
            "files" => trouble.files.push(number)?,
            "sink" => trouble.sink.push(number)?,
            "wire" => trouble.wire.push(number)?,
            "request" => trouble.alterations.push(altered(false, number, byte))?,
            "reply" => trouble.alterations.push(altered(true, number, byte))?,
            _ => {}
        }
        Ok(trouble)
    }
}

fn altered(reply: bool, offset: u64, byte: u8) -> Alteration {
    let slot = Slot {
        client: 1,
        message: 1,
        reply,
    };
    Alteration { slot, offset, byte }
}
