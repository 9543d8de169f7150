ghost use Rattle.std.specs.Prelude.{◌≡◌, ℕ, Option, None, Some, Err, IsErr, true, false};
ghost use Rattle.mt_outside.specs.Cause.{HasCause, SendCause};
ghost use Rattle.mt_outside.specs.Calls.{next_count};

use crate::calls::raise;
use crate::door::Door;
use crate::fault::{Failed, SendFault};

/// A door that never opens: each of its calls but `close` raises its count of faults and answers `Failed`.
#[derive(Drop)]
pub struct ClosedDoor {
    port: Option<u16>,
    // No call sets either of these. They stand for what the conditions of the calls speak of.
    listens: bool,
    is_open: bool,
    faults: u64,
    connection_faults: u64,
}

impl ClosedDoor {
    /// A door of which no port was asked yet. Takes no memory.
    pub fn new() -> ClosedDoor
        ensures port { ⟦<ClosedDoor as Door>⟧.asked_port result ≡ None }
        ensures listens { ⟦<ClosedDoor as Door>⟧.listens result ≡ false }
        ensures is_open { ⟦<ClosedDoor as Door>⟧.is_open result ≡ false }
        ensures accepted { ⟦<ClosedDoor as Door>⟧.accepted result ≡ 0 }
        ensures connections { ⟦<ClosedDoor as Door>⟧.connections result ≡ None }
        ensures faults { ⟦<ClosedDoor as Door>⟧.faults result ≡ 0 }
        ensures others { ⟦<ClosedDoor as Door>⟧.connection_faults result ≡ 0 }
    {
        ClosedDoor {
            port: None,
            listens: false,
            is_open: false,
            faults: 0,
            connection_faults: 0,
        }
    }
}

impl Door for ClosedDoor {
    ghost asked_port = { λ d. d.port };

    ghost listens = { λ d. d.listens };

    ghost is_open = { λ d. d.is_open };

    ghost accepted = { λ d. 0 };

    ghost connections = { λ d. None };

    ghost faults = { λ d. d.faults };

    ghost connection_faults = { λ d. d.connection_faults };

    /// Always `Failed`. It raises the door's count.
    fn open(&mut self, port: u16) -> Result<(), Failed>
        requires { ⟦<ClosedDoor as Door>⟧.asked_port self.old ≡ None }
        ensures fails { IsErr result }
        ensures counted { ⟦<ClosedDoor as Door>⟧.faults self.new ≡ next_count (⟦<ClosedDoor as Door>⟧.faults self.old) }
        ensures cause { HasCause (⟦<ClosedDoor as Door>⟧.faults self.old) (⟦<ClosedDoor as Door>⟧.faults self.new) result }
        ensures port { ⟦<ClosedDoor as Door>⟧.asked_port self.new ≡ Some port }
        ensures listens { ⟦<ClosedDoor as Door>⟧.listens self.new ≡ false }
        ensures is_open { ⟦<ClosedDoor as Door>⟧.is_open self.new ≡ ⟦<ClosedDoor as Door>⟧.is_open self.old }
        ensures accepted { ⟦<ClosedDoor as Door>⟧.accepted self.new ≡ ⟦<ClosedDoor as Door>⟧.accepted self.old }
        ensures connections { ⟦<ClosedDoor as Door>⟧.connections self.new ≡ ⟦<ClosedDoor as Door>⟧.connections self.old }
        ensures others { ⟦<ClosedDoor as Door>⟧.connection_faults self.new ≡ ⟦<ClosedDoor as Door>⟧.connection_faults self.old }
    {
        self.port = Some(port);
        self.listens = false;
        raise(&mut self.faults);
        Err(Failed)
    }

    /// Always `Failed`. It raises the door's count.
    fn accept(&mut self) -> Result<(), Failed>
        requires listens { ⟦<ClosedDoor as Door>⟧.listens self.old ≡ true }
        requires closed { ⟦<ClosedDoor as Door>⟧.is_open self.old ≡ false }
        ensures fails { IsErr result }
        ensures counted { ⟦<ClosedDoor as Door>⟧.faults self.new ≡ next_count (⟦<ClosedDoor as Door>⟧.faults self.old) }
        ensures cause { HasCause (⟦<ClosedDoor as Door>⟧.faults self.old) (⟦<ClosedDoor as Door>⟧.faults self.new) result }
        ensures port { ⟦<ClosedDoor as Door>⟧.asked_port self.new ≡ ⟦<ClosedDoor as Door>⟧.asked_port self.old }
        ensures listens { ⟦<ClosedDoor as Door>⟧.listens self.new ≡ ⟦<ClosedDoor as Door>⟧.listens self.old }
        ensures is_open { ⟦<ClosedDoor as Door>⟧.is_open self.new ≡ ⟦<ClosedDoor as Door>⟧.is_open self.old }
        ensures accepted { ⟦<ClosedDoor as Door>⟧.accepted self.new ≡ ⟦<ClosedDoor as Door>⟧.accepted self.old }
        ensures connections { ⟦<ClosedDoor as Door>⟧.connections self.new ≡ ⟦<ClosedDoor as Door>⟧.connections self.old }
        ensures others { ⟦<ClosedDoor as Door>⟧.connection_faults self.new ≡ ⟦<ClosedDoor as Door>⟧.connection_faults self.old }
    {
        raise(&mut self.faults);
        Err(Failed)
    }

    /// Always `Failed`. It raises the connections' count.
    fn read(&mut self, _into: &mut [u8]) -> Result<usize, Failed>
        requires { ⟦<ClosedDoor as Door>⟧.is_open self.old ≡ true }
        ensures fails { IsErr result }
        ensures counted { ⟦<ClosedDoor as Door>⟧.connection_faults self.new ≡ next_count (⟦<ClosedDoor as Door>⟧.connection_faults self.old) }
        ensures cause { HasCause (⟦<ClosedDoor as Door>⟧.connection_faults self.old) (⟦<ClosedDoor as Door>⟧.connection_faults self.new) result }
        ensures port { ⟦<ClosedDoor as Door>⟧.asked_port self.new ≡ ⟦<ClosedDoor as Door>⟧.asked_port self.old }
        ensures listens { ⟦<ClosedDoor as Door>⟧.listens self.new ≡ ⟦<ClosedDoor as Door>⟧.listens self.old }
        ensures is_open { ⟦<ClosedDoor as Door>⟧.is_open self.new ≡ ⟦<ClosedDoor as Door>⟧.is_open self.old }
        ensures accepted { ⟦<ClosedDoor as Door>⟧.accepted self.new ≡ ⟦<ClosedDoor as Door>⟧.accepted self.old }
        ensures connections { ⟦<ClosedDoor as Door>⟧.connections self.new ≡ ⟦<ClosedDoor as Door>⟧.connections self.old }
        ensures others { ⟦<ClosedDoor as Door>⟧.faults self.new ≡ ⟦<ClosedDoor as Door>⟧.faults self.old }
    {
        raise(&mut self.connection_faults);
        Err(Failed)
    }

    /// Always `Failed`. It raises the connections' count.
    fn write(&mut self, _piece: &[u8]) -> Result<usize, SendFault>
        requires { ⟦<ClosedDoor as Door>⟧.is_open self.old ≡ true }
        ensures fails { result ≡ Err SendFault.Failed }
        ensures counted { ⟦<ClosedDoor as Door>⟧.connection_faults self.new ≡ next_count (⟦<ClosedDoor as Door>⟧.connection_faults self.old) }
        ensures cause { SendCause (⟦<ClosedDoor as Door>⟧.connection_faults self.old) (⟦<ClosedDoor as Door>⟧.connection_faults self.new) result }
        ensures port { ⟦<ClosedDoor as Door>⟧.asked_port self.new ≡ ⟦<ClosedDoor as Door>⟧.asked_port self.old }
        ensures listens { ⟦<ClosedDoor as Door>⟧.listens self.new ≡ ⟦<ClosedDoor as Door>⟧.listens self.old }
        ensures is_open { ⟦<ClosedDoor as Door>⟧.is_open self.new ≡ ⟦<ClosedDoor as Door>⟧.is_open self.old }
        ensures accepted { ⟦<ClosedDoor as Door>⟧.accepted self.new ≡ ⟦<ClosedDoor as Door>⟧.accepted self.old }
        ensures connections { ⟦<ClosedDoor as Door>⟧.connections self.new ≡ ⟦<ClosedDoor as Door>⟧.connections self.old }
        ensures others { ⟦<ClosedDoor as Door>⟧.faults self.new ≡ ⟦<ClosedDoor as Door>⟧.faults self.old }
    {
        raise(&mut self.connection_faults);
        Err(SendFault::Failed)
    }

    fn close(&mut self) {
        self.is_open = false;
    }
}
