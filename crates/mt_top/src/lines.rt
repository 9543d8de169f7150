ghost use Rattle.std.specs.Prelude.{◌≡◌, ◌++◌, IfOk, OnOk, Err, codes, decimal};
ghost use Rattle.mt_syntax.specs.First.{number_of};
ghost use Rattle.mt_top.specs.Lines.{usage_text, accepted_line, failed_line, grammar_line, not_built_line, file_fault_line, too_long_line, bad_line, refused_at, rules_line, spelling_line, started_line};
ghost use Rattle.mt_source.specs.Sources.{IsOfText};
ghost use Rattle.mt_source.specs.declared.refusal.SourceRefusal.TheVariants as source;

use mt_json::json_text;
use mt_lexer::LexRefusal;
use mt_parser::ParseRefusal;
use mt_stage::StageRefusal;
use mt_syntax::Rule;
use mt_tree::{NoMemory, Place, Text, append, append_count};
use std::alloc::Global;

/// What is written where the words are no command.
#[tactic(auto, unfolding(crate::specs::Lines::usage_text))]
pub fn usage() -> &'static [u8]
    ensures { result.now ≡ usage_text }
{
    b"usage: hopjs check APP\n       hopjs start APP\n       hopjs page APP TARGET\n       hopjs replay APP SCHEDULE [--loopback]\n       hopjs serve APP PORT COUNT\n       hopjs load N\n"
}

/// What is written where the application is accepted.
#[tactic(auto, unfolding(crate::specs::Lines::accepted_line))]
pub fn accepted() -> &'static [u8]
    ensures { result.now ≡ accepted_line }
{
    b"accepted\n"
}

/// What is written where the application reached the end of its start.
#[tactic(auto, unfolding(crate::specs::Lines::started_line))]
pub fn started() -> &'static [u8]
    ensures { result.now ≡ started_line }
{
    b"started\n"
}

/// What is written where its start failed, with this text.
pub fn failed_line(alloc: Global, text: &Text) -> Result<Vec<u8>, NoMemory>
    ensures { IfOk result (λ line. line.items ≡ failed_line text.now) }
{
    let mut line = Vec::new(alloc);
    append(b"start failed: ", &mut line)?;
    json_text(text, &mut line)?;
    append(b"\n", &mut line)?;
    Ok(line)
}

/// What is written where the application uses what is not built.
#[tactic(auto, unfolding(crate::specs::Lines::not_built_line))]
pub fn not_built() -> &'static [u8]
    ensures { result.now ≡ not_built_line }
{
    b"refused NotBuilt at 1:1\n"
}

/// What is written where a file failed.
#[tactic(auto, unfolding(crate::specs::Lines::file_fault_line))]
pub fn file_fault() -> &'static [u8]
    ensures { result.now ≡ file_fault_line }
{
    b"file fault\n"
}

/// What is written where a file is too long.
#[tactic(auto, unfolding(crate::specs::Lines::too_long_line))]
pub fn too_long() -> &'static [u8]
    ensures { result.now ≡ too_long_line }
{
    b"file too long\n"
}

/// What is written where this line of the schedule, counted from 1, is no command.
pub fn bad_schedule_line(alloc: Global, number: u32) -> Result<Vec<u8>, NoMemory>
    ensures { IfOk result (λ line. line.items ≡ bad_line number) }
{
    let mut line = Vec::new(alloc);
    append(b"bad schedule line ", &mut line)?;
    append_count(alloc, u64::from(number), &mut line)?;
    append(b"\n", &mut line)?;
    Ok(line)
}

fn append_rule(into: &mut Vec<u8>, rule: &[u8]) -> Result<(), NoMemory>
    ensures { OnOk result (into.new.items ≡ into.old.items ++ (codes "refused " ++ rule.now ++ codes " at ")) }
{
    append(b"refused ", into)?;
    append(rule, into)?;
    append(b" at ", into)
}

fn append_place(alloc: Global, into: &mut Vec<u8>, place: Place) -> Result<(), NoMemory>
    ensures { OnOk result (into.new.items ≡ into.old.items ++ (decimal place.line ++ codes ":" ++ decimal place.column)) }
{
    append_count(alloc, u64::from(place.line), into)?;
    append(b":", into)?;
    append_count(alloc, u64::from(place.column), into)
}

fn refused_line(alloc: Global, rule: &[u8], place: Place) -> Result<Vec<u8>, NoMemory>
    ensures { IfOk result (λ line. line.items ≡ refused_at rule.now place) }
{
    let mut line = Vec::new(alloc);
    append_rule(&mut line, rule)?;
    append_place(alloc, &mut line, place)?;
    append(b"\n", &mut line)?;
    Ok(line)
}

/// What is written where a text has no spelling: the rule that it breaks, and the place.
pub fn spelling_line(alloc: Global, refusal: LexRefusal) -> Result<Vec<u8>, NoMemory>
    ensures { IfOk result (λ line. IsOfText (source.Spelling refusal) × (line.items ≡ spelling_line refusal)) }
{
    match refusal {
        LexRefusal::NotUtf8(place) => refused_line(alloc, b"NotUtf8", place),
        LexRefusal::BadCharacter(place) => refused_line(alloc, b"BadCharacter", place),
        LexRefusal::BadEscape(place) => refused_line(alloc, b"BadEscape", place),
        LexRefusal::Unclosed(place) => refused_line(alloc, b"Unclosed", place),
        LexRefusal::NumberTooLarge(place) => refused_line(alloc, b"NumberTooLarge", place),
        LexRefusal::TooManyTokens(place) => refused_line(alloc, b"TooManyTokens", place),
        LexRefusal::NoMemory => Err(NoMemory),
    }
}

/// What is written where tokens are no program, or one whose tree is too deep: the rule, and the place.
pub fn grammar_line(alloc: Global, refusal: ParseRefusal) -> Result<Vec<u8>, NoMemory>
    ensures { IfOk result (λ line. IsOfText (source.Grammar refusal) × (line.items ≡ grammar_line refusal)) }
{
    match refusal {
        ParseRefusal::Syntax(place) => refused_line(alloc, b"Syntax", place),
        ParseRefusal::TooDeep(place) => refused_line(alloc, b"TooDeep", place),
        ParseRefusal::NoMemory => Err(NoMemory),
    }
}

fn append_rule_number(alloc: Global, into: &mut Vec<u8>, rule: Rule) -> Result<(), NoMemory>
    ensures { OnOk result (into.new.items ≡ into.old.items ++ (codes "S" ++ decimal (number_of rule))) }
{
    append(b"S", into)?;
    append_count(alloc, u64::from(rule.number()), into)
}

/// What is written where a program breaks a rule: the first that it breaks, and the place.
pub fn rules_line(alloc: Global, refusal: StageRefusal) -> Result<Vec<u8>, NoMemory>
    ensures { IfOk result (λ line. IsOfText (source.Rules refusal) × (line.items ≡ rules_line refusal)) }
{
    match refusal {
        StageRefusal::Broken { rule, place } => {
            let mut name = Vec::new(alloc);
            append_rule_number(alloc, &mut name, rule)?;
            refused_line(alloc, &name, place)
        }
        StageRefusal::NoMemory => Err(NoMemory),
    }
}
