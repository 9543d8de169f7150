ghost use Rattle.std.specs.Prelude.{◌≡◌, ◌≤◌};
ghost use Rattle.mt_schedule.specs.Command.{client_limit};
ghost use Rattle.mt_schedule.specs.Schedule.{line_limit};

/// The greatest number of a client in a version.
pub fn client_limit(version: u8) -> u64
    ensures exact { result ≡ client_limit version }
    ensures bound { result ≤ 512 }
{
    if version == 2 { 512 } else { 64 }
}

/// The lines that a schedule of a version may have, its heading counted.
pub fn line_limit(version: u8) -> u32
    ensures exact { result ≡ line_limit version }
    ensures bound { result ≤ 100000 }
{
    if version == 2 { 100_000 } else { 20_000 }
}
