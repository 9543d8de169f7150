ghost use Rattle.std.specs.Prelude.{◌≡◌, ℕ, List, [], MatchOption, IfOk, OnOk, Err};
ghost use Rattle.mt_schedule.specs.declared.refusal.ScheduleRefusal.{ScheduleRefusal};
ghost use Rattle.mt_schedule.specs.Command.{IsGoodLine};
ghost use Rattle.mt_schedule.specs.Schedule.{version_of, heading_lines, lines, body, SpellsSchedule, IsFirstBad, HasTooMany, IsTaken};

use crate::command::{Command, Schedule};
use crate::keyword::same_bytes;
use crate::line_reader::{LineKind, kind_of};
use crate::refusal::ScheduleRefusal;
use crate::version::line_limit;
use mt_lines::first_line;
use mt_tree::{NoMemory, Row};
use std::alloc::Global;

/// The version of a schedule, the count of the lines of its heading, and what follows these lines.
fn heading(text: &[u8]) -> (u8, u32, &[u8])
    ensures version { result.0 ≡ version_of text.now }
    ensures count { result.1 ≡ heading_lines text.now }
    ensures rest { lines result.2.now ≡ body text.now }
{
    match first_line(text) {
        Some((line, after)) => {
            if same_bytes(line, b"schedule 2") {
                (2, 1, after)
            } else {
                (1, 0, text)
            }
        }
        None => (1, 0, text),
    }
}

/// Adds the command of a line, which has this number in the text. A line that is skipped adds none.
fn take_line(
    alloc: Global,
    version: u8,
    line: &[u8],
    number: u32,
    commands: &mut Vec<Command>,
) -> Result<(), ScheduleRefusal>
    ensures taken { OnOk result (IsTaken version line.now commands.old.items commands.new.items) }
    ensures refused { (at : ℕ) → result ≡ Err (ScheduleRefusal.BadLine at) → (at ≡ number) × (IsGoodLine version line.now → ⊥) }
    ensures one { (at : ℕ) → result ≡ Err (ScheduleRefusal.TooManyLines at) → ⊥ }
{
    match kind_of(alloc, version, line) {
        Ok(LineKind::Skipped) => Ok(()),
        Ok(LineKind::Command(command)) => match commands.push(command) {
            Ok(()) => Ok(()),
            Err(_refused) => Err(ScheduleRefusal::NoMemory),
        },
        Ok(LineKind::Bad) => Err(ScheduleRefusal::BadLine(number)),
        Err(NoMemory) => Err(ScheduleRefusal::NoMemory),
    }
}

/// Reads a schedule, as the list of its commands in their order.
///
/// The bytes are UTF-8 in lines, each ended by a line feed (U+000A), the last one with or without. A carriage return
/// in front of a line feed is dropped. A schedule whose first line is exactly `schedule 2` is of version 2, and has at most
/// 100,000 lines, that one counted; any other is of version 1, and has at most 20,000. An empty line and a line that begins with
/// `#` are skipped, and counted as lines. Every other line is one of these, its words parted by one or more spaces, with
/// none before or after:
///
/// - `load K TARGET`: client K asks for the page of the target, which is a slash and then at most 8,191 ASCII letters, digits
///   and signs among `-._~!$&'()*+,;=:@%/?`;
/// - `click K NODE`, `change K NODE`: the one who uses client K clicks on an element, or leaves it changed;
/// - `input K NODE JSONTEXT`: the text is put into an element;
/// - `serve K.M`: the server takes the request of message M of client K;
/// - `deliver K.M`: client K takes the reply to its message M;
/// - `lose K.M`: the request or the reply of message M of client K is lost.
///
/// K is 1 to 64, and 1 to 512 in version 2; M is 1 to 1,000,000; both are decimal digits without leading zeros. NODE is `@` and a
/// number from 1 to 4,294,967,295 without leading zeros, or `#` and one or more characters that are neither white space nor below
/// U+0020. JSONTEXT goes to the line's end, and is a JSON string (RFC 8259) that spells at most 1,048,576 units of UTF-16
/// and neither U+0000 nor a lone surrogate. The time that it takes grows with the number of bytes. No bytes spell two lists.
///
/// # Errors
/// `BadLine` with the number, counted from 1, of the first line that is none of these; `TooManyLines` with the number 20,001 or
/// 100,001 exactly where all lines before it can be read and it is there; `NoMemory`. The bytes of a schedule give none but the last.
pub fn read_schedule(alloc: Global, bytes: &[u8]) -> Result<Schedule, ScheduleRefusal>
    ensures read { IfOk result (λ schedule. SpellsSchedule bytes.now schedule.commands) }
    ensures refused { (number : ℕ) → result ≡ Err (ScheduleRefusal.BadLine number) → IsFirstBad bytes.now number }
    ensures many { (number : ℕ) → result ≡ Err (ScheduleRefusal.TooManyLines number) → HasTooMany bytes.now number }
{
    let mut commands = Vec::new(alloc);
    let (version, heading_lines, body) = heading(bytes);
    let limit = line_limit(version);
    let mut number = heading_lines;
    let mut rest = body;
    'lines: while let Some((line, after)) = first_line(rest) {
        number += 1;
        if number > limit {
            return Err(ScheduleRefusal::TooManyLines(number));
        }
        match take_line(alloc, version, line, number, &mut commands) {
            Ok(()) => rest = after,
            Err(refusal) => return Err(refusal),
        }
    }
    match Row::from_vec(alloc, commands) {
        Ok(commands) => Ok(Schedule { commands }),
        Err(NoMemory) => Err(ScheduleRefusal::NoMemory),
    }
}
