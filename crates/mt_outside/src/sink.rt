ghost use Rattle.std.specs.Prelude.{◌≡◌, ◌<◌, List, ℕ, Option, IfOk, length};
ghost use Rattle.std.specs.Io.{WritesAtMost};
ghost use Rattle.mt_outside.specs.Cause.{SendCause};
ghost use Rattle.mt_outside.specs.Sink.{WriteGrows};

use crate::fault::SendFault;

/// What output is written to.
pub trait Sink {
    /// The bytes that it holds, where it tells them.
    ghost held: { Self → Option (List ℕ) };

    /// How often it has failed: a count that never falls and stays at 2^64 - 1.
    ghost faults: { Self → ℕ };

    /// Appends a prefix of the piece and gives its length in bytes: at least one where the piece isn't empty.
    ///
    /// `Failed` comes only where the count rose in this call, or stands at 2^64 - 1, and `NoMemory` where a form in memory
    /// can't grow. After either nothing was appended.
    fn write(&mut self, piece: &[u8]) -> Result<usize, SendFault>
        ensures bound { WritesAtMost result piece.now }
        ensures some { IfOk result (λ n. 0 < length piece.now → 0 < n) }
        ensures bytes { WriteGrows (held self.old) (held self.new) result piece.now }
        ensures cause { SendCause (faults self.old) (faults self.new) result };
}
