ghost use Rattle.std.specs.Prelude.{◌≡◌, ◌+◌, ◌<◌, List, ℕ, Bool, true, false, take, length, Option, None, Some, IfSome, IfOk, OnOk, OnErr, if◌then◌else◌};
ghost use Rattle.std.specs.Option.{option_map};
ghost use Rattle.std.specs.Result.{is_ok};
ghost use Rattle.std.specs.Io.{ReadsAtMost, WritesAtMost};
ghost use Rattle.mt_outside.specs.Cause.{HasCause, SendCause};
ghost use Rattle.mt_outside.specs.Files.{ReadsPart};
ghost use Rattle.mt_outside.specs.Message.{is_end};
ghost use Rattle.mt_outside.specs.Connection.{Connection, read_more, written_more, on_last, OfLast, Accepts};

use crate::fault::{Failed, SendFault};

/// What connections come through, one after the other, on one port. No two are open at once.
pub trait Door {
    /// The port that was asked for.
    ghost asked_port: { Self → Option ℕ };

    /// Whether it listens on that port.
    ghost listens: { Self → Bool };

    /// Whether a connection is open.
    ghost is_open: { Self → Bool };

    /// How many connections were accepted.
    ghost accepted: { Self → ℕ };

    /// The connections that were accepted, in order, where it tells them. While one is open it is the last.
    ghost connections: { Self → Option (List Connection) };

    /// How often `open` and `accept` have failed: the door's count, which never falls and stays at 2^64 - 1.
    ghost faults: { Self → ℕ };

    /// How often `read` and `write` have failed: the connections' count, which never falls and stays at 2^64 - 1.
    ghost connection_faults: { Self → ℕ };

    /// Asks for a port, once. After Ok the door listens on it; after `Failed` the port asked for is this one too.
    ///
    /// `Failed` comes only where the door's count rose in this call, or stands at 2^64 - 1.
    fn open(&mut self, port: u16) -> Result<(), Failed>
        requires { asked_port self.old ≡ None }
        ensures port { asked_port self.new ≡ Some port }
        ensures listens { listens self.new ≡ is_ok result }
        ensures is_open { is_open self.new ≡ is_open self.old }
        ensures accepted { accepted self.new ≡ accepted self.old }
        ensures connections { connections self.new ≡ connections self.old }
        ensures cause { HasCause (faults self.old) (faults self.new) result }
        ensures others { connection_faults self.new ≡ connection_faults self.old };

    /// Accepts the next connection, which is then open. Nothing was read or written on it yet.
    ///
    /// `Failed` comes only where the door's count rose in this call, or stands at 2^64 - 1. No connection was accepted then,
    /// and none is open.
    fn accept(&mut self) -> Result<(), Failed>
        requires listens { listens self.old ≡ true }
        requires closed { is_open self.old ≡ false }
        ensures port { asked_port self.new ≡ asked_port self.old }
        ensures listens { listens self.new ≡ listens self.old }
        ensures is_open { is_open self.new ≡ is_ok result }
        ensures accepted { accepted self.new ≡ (if is_ok result then accepted self.old + 1 else accepted self.old) }
        ensures ok { OnOk result (Accepts (connections self.old) (connections self.new)) }
        ensures err { OnErr result (connections self.new ≡ connections self.old) }
        ensures cause { HasCause (faults self.old) (faults self.new) result }
        ensures others { connection_faults self.new ≡ connection_faults self.old };

    /// Reads the next incoming bytes of the open connection, and gives how many they are. They stand at the front of `into`.
    ///
    /// It gives at least one byte where there are any and `into` isn't empty, and 0 at their end: the end is given by a 0 into
    /// a buffer that isn't empty. `Failed` comes only where the connections' count rose in this call, or stands at 2^64 - 1,
    /// and nothing was given then.
    fn read(&mut self, into: &mut [u8]) -> Result<usize, Failed>
        requires { is_open self.old ≡ true }
        ensures bound { ReadsAtMost result into.new }
        ensures port { asked_port self.new ≡ asked_port self.old }
        ensures listens { listens self.new ≡ listens self.old }
        ensures is_open { is_open self.new ≡ is_open self.old }
        ensures accepted { accepted self.new ≡ accepted self.old }
        ensures bytes { IfOk result (λ n. IfSome (connections self.old) (OfLast (λ t. ReadsPart t.incoming t.given n into.new))) }
        ensures ok { IfOk result (λ n. connections self.new ≡ option_map (on_last (read_more n (is_end n into.new))) (connections self.old)) }
        ensures err { OnErr result (connections self.new ≡ connections self.old) }
        ensures cause { HasCause (connection_faults self.old) (connection_faults self.new) result }
        ensures others { faults self.new ≡ faults self.old };

    /// Appends a prefix of the piece to the outgoing bytes of the open connection, and gives its length in bytes: at least one
    /// where the piece isn't empty.
    ///
    /// `Failed` comes only where the connections' count rose in this call, or stands at 2^64 - 1, and `NoMemory` where a form
    /// in memory can't grow. After either nothing was appended.
    fn write(&mut self, piece: &[u8]) -> Result<usize, SendFault>
        requires { is_open self.old ≡ true }
        ensures bound { WritesAtMost result piece.now }
        ensures some { IfOk result (λ n. 0 < length piece.now → 0 < n) }
        ensures port { asked_port self.new ≡ asked_port self.old }
        ensures listens { listens self.new ≡ listens self.old }
        ensures is_open { is_open self.new ≡ is_open self.old }
        ensures accepted { accepted self.new ≡ accepted self.old }
        ensures ok { IfOk result (λ n. connections self.new ≡ option_map (on_last (written_more (take n piece.now))) (connections self.old)) }
        ensures err { OnErr result (connections self.new ≡ connections self.old) }
        ensures cause { SendCause (connection_faults self.old) (connection_faults self.new) result }
        ensures others { faults self.new ≡ faults self.old };

    /// Closes the open connection. It can't fail.
    fn close(&mut self)
        requires { is_open self.old ≡ true }
        ensures port { asked_port self.new ≡ asked_port self.old }
        ensures listens { listens self.new ≡ listens self.old }
        ensures is_open { is_open self.new ≡ false }
        ensures accepted { accepted self.new ≡ accepted self.old }
        ensures connections { connections self.new ≡ connections self.old }
        ensures faults { faults self.new ≡ faults self.old }
        ensures others { connection_faults self.new ≡ connection_faults self.old };
}
