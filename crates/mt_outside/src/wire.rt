ghost use Rattle.std.specs.Prelude.{◌≡◌, List, ℕ, Bool, true, false, [], take, Option, None, Some, IsSome, IfSome, IfOk, OnOk, OnErr};
ghost use Rattle.std.specs.Option.{ForSome, option_map};
ghost use Rattle.std.specs.Io.{ReadsAtMost};
ghost use Rattle.mt_outside.specs.Cause.{HasCause, SendCause};
ghost use Rattle.mt_outside.specs.Message.{Message, with_send, with_given, was_sent, ended_of, is_end, Begins};

use crate::fault::{Failed, SendFault};

/// The place of one message: the request or the reply of one exchange between a client and the server.
#[derive(Clone, Copy, Debug, PartialEq, Eq, Hash)]
pub struct Slot {
    /// The number of the client.
    pub client: u32,
    /// The number of the exchange among those of its client.
    pub message: u64,
    /// Whether it is the reply.
    pub reply: bool,
}

/// What carries messages. Each is sent whole into its slot, and taken from there piece by piece.
pub trait Wire {
    /// Whether it was begun, and if so, with loopback or without.
    ghost mode: { Self → Option Bool };

    /// The messages sent, in order, each with the bytes given of it so far and whether its end was given, where the wire
    /// tells them. A wire that doesn't tell them never begins to.
    ghost messages: { Self → Option (List Message) };

    /// How often it has failed: a count that never falls and stays at 2^64 - 1.
    ghost faults: { Self → ℕ };

    /// Begins the wire, once, before any other call.
    ///
    /// Ok or not, the mode is then the one given, and nothing was sent, as before. A wire that tells its messages and is begun
    /// without loopback goes on telling them. `Failed` comes only where the count rose in this call, or stands at 2^64 - 1.
    fn begin(&mut self, loopback: bool) -> Result<(), SendFault>
        requires { mode self.old ≡ None }
        ensures mode { mode self.new ≡ Some loopback }
        ensures lists { Begins loopback (messages self.old) (messages self.new) }
        ensures empty_before { IfSome (messages self.old) (λ ms. ms ≡ []) }
        ensures empty { IfSome (messages self.new) (λ ms. ms ≡ []) }
        ensures cause { SendCause (faults self.old) (faults self.new) result };

    /// Sends a message into its slot, which holds none yet, and makes the room that `take` needs.
    ///
    /// After any answer but Ok nothing was sent. `Failed` comes only where the count rose in this call, or stands at
    /// 2^64 - 1, and `NoMemory` where there is no room for the message.
    fn send(&mut self, slot: Slot, bytes: &[u8]) -> Result<(), SendFault>
        requires begun { IsSome (mode self.old) }
        requires unsent { ForSome (messages self.old) (λ ms. was_sent slot ms ≡ false) }
        ensures mode { mode self.new ≡ mode self.old }
        ensures ok { OnOk result (messages self.new ≡ option_map (with_send slot bytes.now) (messages self.old)) }
        ensures err { OnErr result (messages self.new ≡ messages self.old) }
        ensures cause { SendCause (faults self.old) (faults self.new) result };

    /// Takes the next bytes of a message that was sent, and gives how many they are. They stand at the front of `into`.
    ///
    /// It gives at least one byte where there are any and `into` isn't empty: a 0 into a buffer that isn't empty gives the
    /// message's end, after which there are none. `Failed` comes only where the count rose in this call, or stands at
    /// 2^64 - 1, and nothing was given then.
    fn take(&mut self, slot: Slot, into: &mut [u8]) -> Result<usize, Failed>
        requires begun { IsSome (mode self.old) }
        requires sent { ForSome (messages self.old) (λ ms. was_sent slot ms ≡ true) }
        ensures bound { ReadsAtMost result into.new }
        ensures mode { mode self.new ≡ mode self.old }
        ensures ok { IfOk result (λ n. messages self.new
            ≡ option_map (with_given slot (take n into.new) (is_end n into.new)) (messages self.old)) }
        ensures err { OnErr result (messages self.new ≡ messages self.old) }
        ensures over { IfOk result (λ n. IfSome (messages self.old) (λ ms. ended_of slot ms ≡ true → n ≡ 0)) }
        ensures cause { HasCause (faults self.old) (faults self.new) result };
}
