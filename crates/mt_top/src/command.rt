ghost use Rattle.std.specs.Prelude.{◌≡◌, ◌⊎◌, ◌≤◌, ℕ, List, None, map, string_bytes};
ghost use Rattle.mt_top.specs.declared.status.Status.{Status};
ghost use Rattle.mt_top.specs.Expected.{Expected, IsFault};
ghost use Rattle.mt_top.specs.Meaning.{StatusMeans, ModeIsFor};
ghost use Rattle.mt_top.specs.Words.{Asks, AsksForNoReplay, replay};

use crate::checking::check;
use crate::lines::usage;
use crate::output::write_output;
use crate::replaying::replay;
use crate::starting::start;
use crate::status::Status;
use crate::words::{Command, read_words};
use mt_outside::{Door, Files, Sink, Wire};
use std::alloc::Global;

/// Carries out the command that the words spell. They are the words after the program's name.
///
/// - `check APP` reads the application in the file APP, and accepts it or names its first refusal of spelling, grammar or stage rules.
/// - `start APP` evaluates the top level of the application in the file APP, and writes the lines that it logs, or why it failed.
/// - `replay APP SCHEDULE` reads the small application in the file APP and the schedule in the file SCHEDULE, plays the schedule
///   over the wire, and writes the transcript.
///
/// A file has at most 1,048,576 bytes. No name of a file is empty or begins with a dash. All other words are `Usage`.
///
/// The words come first, then the application's file, the schedule's file, the application's text, the schedule's text, the
/// wire, the start and the run: the first of them that fails gives the status. The sink holds nothing but what is said of the status.
pub fn run<F: Files, O: Sink, W: Wire, D: Door>(
    alloc: Global,
    words: &[String],
    files: &mut F,
    out: &mut O,
    wire: &mut W,
    _door: &mut D,
) -> Status
    requires idle { W.mode wire.old ≡ None }
    ensures meaning { StatusMeans (record {
      contents = F.contents files.old;
      faults = F.faults files.old;
      faults_after = F.faults files.new;
    }) (record {
      held = O.held out.old;
      held_after = O.held out.new;
      faults = O.faults out.old;
      faults_after = O.faults out.new;
    }) (record {
      messages = W.messages wire.new;
      faults = W.faults wire.old;
      faults_after = W.faults wire.new;
    }) (map string_bytes words.now) result }
    // Where the files tell their contents, the run ends as expected, or with a fault of the outside or want of memory.
    ensures exact { (expected : Status) → Expected (record {
      contents = F.contents files.old;
      faults = F.faults files.old;
      faults_after = F.faults files.new;
    }) (map string_bytes words.now) expected → (result ≡ expected) ⊎ IsFault result }
    ensures mode { (application schedule : List ℕ) → Asks (map string_bytes words.now) (replay application schedule) → ModeIsFor (W.mode wire.new) result }
    // Words that ask for no replay leave the wire as it was.
    ensures quiet { AsksForNoReplay (map string_bytes words.now) → wire.new ≡ wire.old }
    ensures door { _door.new ≡ _door.old }
    ensures contents { F.contents files.new ≡ F.contents files.old }
    ensures files_later { (name : List ℕ) → F.faults files.old name ≤ F.faults files.new name }
    ensures sink_later { O.faults out.old ≤ O.faults out.new }
    ensures wire_later { W.faults wire.old ≤ W.faults wire.new }
{
    carry_out(alloc, words, files, out, wire)
}

fn carry_out<F: Files, O: Sink, W: Wire>(
    alloc: Global,
    words: &[String],
    files: &mut F,
    out: &mut O,
    wire: &mut W,
) -> Status
    requires idle { W.mode wire.old ≡ None }
    ensures meaning { StatusMeans (record {
      contents = F.contents files.old;
      faults = F.faults files.old;
      faults_after = F.faults files.new;
    }) (record {
      held = O.held out.old;
      held_after = O.held out.new;
      faults = O.faults out.old;
      faults_after = O.faults out.new;
    }) (record {
      messages = W.messages wire.new;
      faults = W.faults wire.old;
      faults_after = W.faults wire.new;
    }) (map string_bytes words.now) result }
    ensures mode { (application schedule : List ℕ) → Asks (map string_bytes words.now) (replay application schedule) → ModeIsFor (W.mode wire.new) result }
    // Words that ask for no replay leave the wire as it was.
    ensures quiet { AsksForNoReplay (map string_bytes words.now) → wire.new ≡ wire.old }
    ensures contents { F.contents files.new ≡ F.contents files.old }
    ensures files_later { (name : List ℕ) → F.faults files.old name ≤ F.faults files.new name }
    ensures sink_later { O.faults out.old ≤ O.faults out.new }
    ensures wire_later { W.faults wire.old ≤ W.faults wire.new }
{
    match read_words(words) {
        Some(Command::Check(application)) => check(alloc, application, files, out),
        Some(Command::Start(application)) => start(alloc, application, files, out),
        Some(Command::Replay(application, schedule)) => {
            replay(alloc, application, schedule, files, out, wire)
        }
        None => match write_output(out, usage()) {
            Ok(()) => Status::Usage,
            Err(status) => status,
        },
    }
}
