ghost use Rattle.std.specs.Prelude.{◌≡◌, ℕ, List, [], MatchOption, IfOk, OnOk, Err};
ghost use Rattle.std.specs.List.{AllByRecursion};
ghost use Rattle.mt_small.specs.declared.command.SmallCommand.{SmallCommand};
ghost use Rattle.mt_small.specs.declared.schedule_reader.SmallLineRefusal.{SmallLineRefusal};
ghost use Rattle.mt_small.specs.Readable.{AsksForTarget};
ghost use Rattle.mt_small.specs.Schedule.{without_return, IsGoodLine, SpellsSchedule, IsFirstBad};
ghost use Rattle.mt_small.specs.ScheduleReader.{IsFirstLine, IsTaken};

use crate::command::SmallCommand;
use crate::command_reader::{LineKind, kind_of};
use crate::splitting::{before_back, place_of};
use mt_tree::{LINE_LIMIT, NoMemory, Row};
use std::alloc::Global;

/// Why a text isn't read as a schedule.
#[derive(Clone, Copy, Debug, PartialEq, Eq)]
pub enum SmallLineRefusal {
    /// The number of the first line that can't be read or that is one too many. Lines are counted from 1.
    BadLine(u32),
    /// Memory ran out.
    NoMemory,
}

/// The line without a carriage return at its end.
fn without_return(line: &[u8]) -> &[u8]
    ensures { result.now ≡ without_return line.now }
{
    before_back(b"\r", line).unwrap_or(line)
}

/// The first line of the text, and what follows it.
fn first_line(text: &[u8]) -> Option<(&[u8], &[u8])>
    ensures { MatchOption result (text.now ≡ []) (λ parts. IsFirstLine text.now parts.0.now parts.1.now) }
{
    if text.is_empty() {
        return None;
    }
    let (line, rest) = text.split_at(place_of(b'\n', text));
    match rest.split_first() {
        Some((_line_feed, after)) => Some((without_return(line), after)),
        None => Some((line, rest)),
    }
}

/// Adds the command of a line, which has this number in the text. A line that is skipped adds none.
fn take_line(
    alloc: Global,
    line: &[u8],
    number: u32,
    commands: &mut Vec<SmallCommand>,
) -> Result<(), SmallLineRefusal>
    ensures taken { OnOk result (IsTaken line.now commands.old.items commands.new.items) }
    ensures refused { (at : ℕ) → result ≡ Err (SmallLineRefusal.BadLine at) → (at ≡ number) × (IsGoodLine line.now → ⊥) }
{
    match kind_of(alloc, line) {
        Ok(LineKind::Skipped) => Ok(()),
        Ok(LineKind::Command(command)) => match commands.push(command) {
            Ok(()) => Ok(()),
            Err(_refused) => Err(SmallLineRefusal::NoMemory),
        },
        Ok(LineKind::Bad) => Err(SmallLineRefusal::BadLine(number)),
        Err(NoMemory) => Err(SmallLineRefusal::NoMemory),
    }
}

/// Reads the schedule of a small application, as the list of its commands in their order.
///
/// The bytes are UTF-8 in lines, each ended by a line feed (U+000A), the last one with or without. A carriage return
/// in front of a line feed is dropped. There are at most 20,000 lines. An empty line and a line that begins with `#`
/// are skipped, and counted as lines. Every other line is one of these, its words parted by one or more spaces, with
/// none before or after:
///
/// - `load K TARGET`: client K asks for the page of the target, which is `/hop/` and 1 to 32 lower-case ASCII letters;
/// - `serve K.M`: the server takes the request of message M of client K;
/// - `deliver K.M`: client K takes the reply to its message M.
///
/// K is 1 to 64 and M is 1 to 1,000,000, in decimal digits without leading zeros. The time that it takes grows with the
/// number of bytes. No bytes spell two lists.
///
/// # Errors
/// `BadLine` with the number, counted from 1, of the first line that is none of these or that is line 20,001, and
/// `NoMemory` where memory runs out. The bytes of a schedule never give `BadLine`.
pub fn read_small_schedule(
    alloc: Global,
    bytes: &[u8],
) -> Result<Row<SmallCommand>, SmallLineRefusal>
    ensures read { IfOk result (λ commands. SpellsSchedule bytes.now commands) }
    ensures targets { IfOk result (λ commands. AllByRecursion AsksForTarget commands) }
    ensures refused { (number : ℕ) → result ≡ Err (SmallLineRefusal.BadLine number) → IsFirstBad bytes.now number }
    ensures none { (number : ℕ) → result ≡ Err (SmallLineRefusal.BadLine number)
        → (commands : List SmallCommand) → SpellsSchedule bytes.now commands → ⊥ }
{
    let mut commands = Vec::new(alloc);
    let mut number: u32 = 0;
    let mut rest = bytes;
    'lines: while let Some((line, after)) = first_line(rest) {
        number += 1;
        if number > LINE_LIMIT {
            return Err(SmallLineRefusal::BadLine(number));
        }
        match take_line(alloc, line, number, &mut commands) {
            Ok(()) => rest = after,
            Err(refusal) => return Err(refusal),
        }
    }
    match Row::from_vec(alloc, commands) {
        Ok(row) => Ok(row),
        Err(NoMemory) => Err(SmallLineRefusal::NoMemory),
    }
}
