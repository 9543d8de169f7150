ghost use Rattle.std.specs.Prelude.{◌≡◌, ◌<◌, ◌↔◌, [], Some, List, ℕ, IfOk, IsErrOf, Contains, length, min};
ghost use Rattle.std.specs.Io.{WritesAtMost};
ghost use Rattle.mt_outside.specs.Cause.{SendCause, SendCount};
ghost use Rattle.mt_outside.specs.Sink.{WriteGrows};
ghost use Rattle.mt_outside.specs.Calls.{fresh_plan, next_plan, FailsNext};

use crate::calls::{Calls, raise};
use crate::fault::SendFault;
use crate::fault_plan::{FaultPlan, PieceLimit};
use crate::sink::Sink;
use std::alloc::Global;

/// A sink in memory, which tells the bytes that it holds.
///
/// Each call takes at most `piece` bytes. A call fails exactly where its number, counted from 1, is in `failing`.
#[derive(Drop)]
pub struct MemorySink {
    bytes: Vec<u8>,
    calls: Calls,
    faults: u64,
    piece: usize,
    ghost positive: { 0 < piece },
}

impl FaultPlan for MemorySink {
    ghost plan = { λ s. record { made = s.calls.made; failing = s.calls.failing.items } };
}

impl PieceLimit for MemorySink {
    ghost piece_limit = { λ s. s.piece };
}

impl MemorySink {
    /// An empty sink that no call was made on. Takes no memory.
    ///
    /// `failing` lists the numbers, from 1, of the calls that are to fail, in any order. `piece` is the most bytes that one
    /// call takes, at least 1. The sink keeps `alloc` to grow by.
    pub fn new(alloc: Global, failing: Vec<u64>, piece: usize) -> MemorySink
        requires { 0 < piece }
        ensures held { ⟦<MemorySink as Sink>⟧.held result ≡ Some [] }
        ensures faults { ⟦<MemorySink as Sink>⟧.faults result ≡ 0 }
        ensures plan { ⟦<MemorySink as FaultPlan>⟧.plan result ≡ fresh_plan failing.items }
        ensures piece { ⟦<MemorySink as PieceLimit>⟧.piece_limit result ≡ piece }
    {
        MemorySink {
            bytes: Vec::new(alloc),
            calls: Calls { made: 0, failing },
            faults: 0,
            piece,
        }
    }

    /// The bytes that were written so far. Takes no memory.
    pub fn bytes(&self) -> &[u8]
        ensures { ⟦<MemorySink as Sink>⟧.held self.now ≡ Some result.now }
    {
        self.bytes.as_slice()
    }
}

impl Sink for MemorySink {
    ghost held = { λ s. Some s.bytes.items };

    ghost faults = { λ s. s.faults };

    /// Takes as many bytes as `piece` of `new` allows. `Failed` comes exactly at the calls that are to fail, and
    /// `NoMemory` where the sink can't grow.
    fn write(&mut self, piece: &[u8]) -> Result<usize, SendFault>
        ensures bound { WritesAtMost result piece.now }
        ensures some { IfOk result (λ n. 0 < length piece.now → 0 < n) }
        ensures taken { IfOk result (λ n. n ≡ min (⟦<MemorySink as PieceLimit>⟧.piece_limit self.old) (length piece.now)) }
        ensures bytes { WriteGrows (⟦<MemorySink as Sink>⟧.held self.old) (⟦<MemorySink as Sink>⟧.held self.new) result piece.now }
        ensures cause { SendCause (⟦<MemorySink as Sink>⟧.faults self.old) (⟦<MemorySink as Sink>⟧.faults self.new) result }
        ensures counted { SendCount (⟦<MemorySink as Sink>⟧.faults self.old) (⟦<MemorySink as Sink>⟧.faults self.new) result }
        ensures exact { IsErrOf result SendFault.Failed
            ↔ FailsNext (⟦<MemorySink as FaultPlan>⟧.plan self.old) }
        ensures plan { ⟦<MemorySink as FaultPlan>⟧.plan self.new ≡ next_plan (⟦<MemorySink as FaultPlan>⟧.plan self.old) }
        ensures piece { ⟦<MemorySink as PieceLimit>⟧.piece_limit self.new ≡ ⟦<MemorySink as PieceLimit>⟧.piece_limit self.old }
    {
        if self.calls.next_fails() {
            raise(&mut self.faults);
            return Err(SendFault::Failed);
        }
        let count = self.piece.min(piece.len());
        match self.bytes.extend_from_slice(&piece[..count]) {
            Ok(()) => Ok(count),
            Err(_refused) => Err(SendFault::NoMemory),
        }
    }
}
