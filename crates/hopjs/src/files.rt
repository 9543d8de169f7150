ghost use Rattle.std.specs.Prelude.{None};
ghost use Rattle.std.specs.Io.{ReadsAtMost};

use mt_outside::{Failed, Files};
use std::os::unix::fs::FileExt;
use std::{fs, io};

/// The system's files. It tells nothing of what they hold, and has one count of faults for all names.
#[derive(Drop)]
pub struct SystemFiles {
    runtime: HostRuntime,
    faults: u64,
}

impl SystemFiles {
    pub fn new(runtime: HostRuntime) -> SystemFiles {
        SystemFiles { runtime, faults: 0 }
    }
}

impl Files for SystemFiles {
    ghost contents = { λ _ _. None };

    ghost is_missing = { λ _ _. ⊥ };

    ghost faults = { λ files _. files.faults };

    fn read_at(&mut self, name: &str, at: u64, into: &mut [u8]) -> Result<usize, Failed> {
        match read_part(&self.runtime, name, at, into) {
            Ok(count) => Ok(count),
            Err(_error) => {
                self.faults = self.faults.saturating_add(1);
                Err(Failed)
            }
        }
    }
}

fn read_part(runtime: &HostRuntime, name: &str, at: u64, into: &mut [u8]) -> io::Result<usize>
    ensures bound { ReadsAtMost result into.new }
{
    fs::open(runtime, name)?.read_at(into, at)
}
