ghost use Rattle.std.specs.Prelude.{◌≡◌, ◌⊎◌, IfOk, MatchOption, Err};
ghost use Rattle.mt_lines.specs.Lines.{without_return};
ghost use Rattle.mt_schedule.specs.declared.refusal.LineRefusal.{LineRefusal};
ghost use Rattle.mt_schedule.specs.Command.{SpellsCommand, IsSkipped, IsGoodLine};
ghost use Rattle.mt_schedule.specs.Reading.{command_in, kind_of};

use crate::arguments::read_arguments;
use crate::command::Command;
use crate::keyword::keyword_of;
use crate::refusal::LineRefusal;
use crate::utf8::is_utf8;
use mt_lines::{after_spaces, place_of, without_return};
use mt_tree::NoMemory;
use std::alloc::Global;

/// What a line of a schedule is.
#[derive(Drop)]
pub enum LineKind {
    /// Empty, or a comment.
    Skipped,
    /// It spells this command.
    Command(Command),
    /// None of these.
    Bad,
}

/// The command of a line.
fn command_of(alloc: Global, version: u8, line: &[u8]) -> Result<Option<Command>, NoMemory>
    ensures { IfOk result (λ command. command ≡ command_in version line.now) }
{
    let (word, rest) = line.split_at(place_of(b' ', line));
    match keyword_of(word) {
        Some(keyword) => match after_spaces(rest) {
            Some(words) => read_arguments(alloc, version, keyword, words),
            None => Ok(None),
        },
        None => Ok(None),
    }
}

/// What a line is.
pub fn kind_of(alloc: Global, version: u8, line: &[u8]) -> Result<LineKind, NoMemory>
    ensures { IfOk result (λ kind. kind ≡ kind_of version line.now) }
{
    if line.is_empty() {
        return Ok(LineKind::Skipped);
    }
    if line[0] == b'#' {
        return Ok(if is_utf8(line) {
            LineKind::Skipped
        } else {
            LineKind::Bad
        });
    }
    match command_of(alloc, version, line)? {
        Some(command) => Ok(LineKind::Command(command)),
        None => Ok(LineKind::Bad),
    }
}

/// The command of one line of a schedule of version 1 or 2, without the line feed that ends it; a carriage return at its end is
/// dropped. `None` exactly for an empty line, and for a line in UTF-8 that begins with `#`.
///
/// # Errors
/// `Bad` exactly for a line that spells no command and isn't skipped, and `NoMemory`.
pub fn read_command(alloc: Global, line: &[u8], version: u8) -> Result<Option<Command>, LineRefusal>
    requires known { (version ≡ 1) ⊎ (version ≡ 2) }
    ensures read { IfOk result (λ found. MatchOption found (IsSkipped (without_return line.now)) (SpellsCommand version (without_return line.now))) }
    ensures refused { result ≡ Err LineRefusal.Bad → IsGoodLine version (without_return line.now) → ⊥ }
{
    match kind_of(alloc, version, without_return(line))? {
        LineKind::Skipped => Ok(None),
        LineKind::Command(command) => Ok(Some(command)),
        LineKind::Bad => Err(LineRefusal::Bad),
    }
}
