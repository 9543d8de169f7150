ghost use Rattle.std.specs.Prelude.{None};

use mt_outside::{SendFault, Sink};
use std::io::{Stdout, Write};

/// Standard output. It tells nothing of what it holds.
#[derive(Drop)]
pub struct StandardOutput {
    stream: Stdout,
    faults: u64,
}

impl StandardOutput {
    pub fn new(stream: Stdout) -> StandardOutput {
        StandardOutput { stream, faults: 0 }
    }
}

impl Sink for StandardOutput {
    ghost held = { λ _. None };

    ghost faults = { λ output. output.faults };

    fn write(&mut self, piece: &[u8]) -> Result<usize, SendFault> {
        match self.stream.write(piece) {
            // A stream that takes nothing of some bytes is full.
            Ok(0) if !piece.is_empty() => {
                self.faults = self.faults.saturating_add(1);
                Err(SendFault::Failed)
            }
            Ok(count) => Ok(count),
            Err(_error) => {
                self.faults = self.faults.saturating_add(1);
                Err(SendFault::Failed)
            }
        }
    }
}
