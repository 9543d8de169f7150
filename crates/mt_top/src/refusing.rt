ghost use Rattle.std.specs.Prelude.{◌≡◌, ◌≤◌, ℕ, List, IfErr, IfOk, OnOk, length};
ghost use Rattle.std.specs.Io.KnownBytes.{append_known};
ghost use Rattle.mt_source.specs.Sources.{IsOfText};
ghost use Rattle.mt_top.specs.Lines.{source_line};
ghost use Rattle.mt_top.specs.Meaning.{IsOutputFault};
ghost use Rattle.mt_top.specs.Refusals.{IsUnplayedLine};
ghost use Rattle.mt_tree.specs.Limits.{source_limit};

use crate::lines::{grammar_line, not_built, rules_line, spelling_line};
use crate::output::write_output;
use crate::status::Status;
use mt_outside::Sink;
use mt_source::{SourceRefusal, check_source};
use mt_tree::NoMemory;
use std::alloc::Global;

/// Says why a source is not accepted. The error is the status with which the run ends.
pub fn write_refusal<O: Sink>(
    alloc: Global,
    refusal: SourceRefusal,
    out: &mut O,
) -> Result<(), Status>
    ensures ok { OnOk result (IsOfText refusal × (O.held out.new ≡ append_known (O.held out.old) (source_line refusal))) }
    ensures err { IfErr result (IsOutputFault (O.faults out.old) (O.faults out.new)) }
    ensures later { O.faults out.old ≤ O.faults out.new }
{
    match source_line(alloc, refusal) {
        Ok(line) => write_output(out, &line),
        Err(NoMemory) => Err(Status::NoMemory),
    }
}

/// Says why a text that is no small application is not played: it is not accepted, or it uses what is not built. The error is the status
/// with which the run ends.
pub fn write_unplayed<O: Sink>(alloc: Global, text: &[u8], out: &mut O) -> Result<(), Status>
    requires short { length text.now ≤ source_limit }
    ensures ok { OnOk result ((line : List ℕ) × IsUnplayedLine text.now line × (O.held out.new ≡ append_known (O.held out.old) line)) }
    ensures err { IfErr result (IsOutputFault (O.faults out.old) (O.faults out.new)) }
    ensures later { O.faults out.old ≤ O.faults out.new }
{
    match check_source(alloc, text) {
        Ok(()) => write_output(out, not_built()),
        Err(refusal) => write_refusal(alloc, refusal, out),
    }
}

fn source_line(alloc: Global, refusal: SourceRefusal) -> Result<Vec<u8>, NoMemory>
    ensures { IfOk result (λ line. IsOfText refusal × (line.items ≡ source_line refusal)) }
{
    match refusal {
        SourceRefusal::Spelling(spelling) => spelling_line(alloc, spelling),
        SourceRefusal::Grammar(grammar) => grammar_line(alloc, grammar),
        SourceRefusal::Rules(rules) => rules_line(alloc, rules),
    }
}
