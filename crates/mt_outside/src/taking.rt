ghost use Rattle.std.specs.Prelude.{◌≡◌, ◌+◌, ◌<◌, ◌≤◌, ◌++◌, ℕ, true, false, take, length, IsSome, IfOk, OnErr, vec_len};
ghost use Rattle.std.specs.Option.{ForSome, option_map};
ghost use Rattle.mt_outside.specs.Message.{with_given, was_sent, is_end, TookSome};
ghost use Rattle.mt_outside.specs.Take.{TakeCause};

use crate::wire::{Slot, Wire};
use std::alloc::Global;

const PIECE: usize = 4096;

/// Why a message could not be taken.
#[derive(Clone, Copy, Debug, PartialEq, Eq)]
pub enum TakeFault {
    /// A call of the wire failed. Its count of faults rose, or stands at 2^64 - 1.
    Failed,
    /// There is no room for the bytes.
    NoMemory,
}

/// What was taken of a message, and whether that was to its end.
#[derive(Drop)]
pub struct Taken {
    /// The bytes, in order.
    pub bytes: Vec<u8>,
    /// Whether the message's end was given after them.
    pub ended: bool,
}

/// Takes the rest of a message, to its end or as far as `bound` bytes, in pieces of at most 4,096 bytes.
///
/// No other message is touched. After an error a part of the message may have been given. `Failed` comes only where the
/// wire's count of faults rose in this call, or stands at 2^64 - 1.
pub fn take_slot<W: Wire>(
    alloc: Global,
    wire: &mut W,
    slot: Slot,
    bound: usize,
) -> Result<Taken, TakeFault>
    requires begun { IsSome (W.mode wire.old) }
    requires sent { ForSome (W.messages wire.old) (λ ms. was_sent slot ms ≡ true) }
    ensures mode { W.mode wire.new ≡ W.mode wire.old }
    ensures taken { IfOk result (λ taken. W.messages wire.new
        ≡ option_map (with_given slot taken.bytes.items taken.ended) (W.messages wire.old)) }
    ensures within { IfOk result (λ taken. length taken.bytes.items ≤ bound) }
    ensures whole { IfOk result (λ taken. taken.ended ≡ false → length taken.bytes.items ≡ bound) }
    ensures err { OnErr result (TookSome slot (W.messages wire.old) (W.messages wire.new)) }
    ensures cause { TakeCause (W.faults wire.old) (W.faults wire.new) result }
{
    let mut bytes = Vec::new(alloc);
    let mut piece = [0u8; PIECE];
    'pieces: while bytes.len() < bound {
        let room = PIECE.min(bound - bytes.len());
        let count = take_piece(wire, slot, &mut piece[..room], &mut bytes)?;
        if count == 0 {
            return Ok(Taken { bytes, ended: true });
        }
    }
    Ok(Taken {
        bytes,
        ended: false,
    })
}

// Takes the next piece and appends it.
fn take_piece<W: Wire>(
    wire: &mut W,
    slot: Slot,
    into: &mut [u8],
    bytes: &mut Vec<u8>,
) -> Result<usize, TakeFault>
    requires begun { IsSome (W.mode wire.old) }
    requires sent { ForSome (W.messages wire.old) (λ ms. was_sent slot ms ≡ true) }
    ensures mode { W.mode wire.new ≡ W.mode wire.old }
    ensures taken { IfOk result (λ n. W.messages wire.new
        ≡ option_map (with_given slot (take n into.new) (is_end n into.new)) (W.messages wire.old)) }
    ensures grown { IfOk result (λ n. bytes.new.items ≡ bytes.old.items ++ take n into.new) }
    ensures count { IfOk result (λ n. n ≤ length into.old) }
    ensures len { IfOk result (λ n. vec_len bytes.new ≡ vec_len bytes.old + n) }
    ensures err { OnErr result (TookSome slot (W.messages wire.old) (W.messages wire.new)) }
    ensures cause { TakeCause (W.faults wire.old) (W.faults wire.new) result }
{
    match wire.take(slot, into) {
        Err(_failed) => Err(TakeFault::Failed),
        Ok(count) => match bytes.extend_from_slice(&into[..count]) {
            Ok(()) => Ok(count),
            Err(_refused) => Err(TakeFault::NoMemory),
        },
    }
}
