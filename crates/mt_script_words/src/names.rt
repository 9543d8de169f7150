ghost use Rattle.std.specs.Prelude.{◌≡◌, ◌&&◌};
ghost use Rattle.std.specs.List.{list_all};
ghost use Rattle.std.specs.Str.{chars};
ghost use Rattle.unicode_ident.specs.Ident.{is_xid_continue};
ghost use Rattle.mt_syntax.specs.Names.{is_name as names_something, starts_name};
ghost use Rattle.mt_script_words.specs.Outcome.{Gives};
ghost use Rattle.mt_script_words.specs.Words.{begins_name, mark_at, name_of};

use crate::refusal::CodeRefusal;
use crate::texts::short_text;
use crate::words::{after_word, word};
use mt_syntax::Mark;
use mt_tree::{Place, Text, word_reserved};
use std::alloc::Global;

fn starts_name(c: char) -> bool
    ensures { result ≡ starts_name c }
{
    c == '_' || unicode_ident::is_xid_start(c)
}

fn begins_name(word: &str) -> bool
    ensures { result ≡ begins_name (chars word.now) }
{
    match word.chars().next() {
        Some(c) => starts_name(c),
        None => false,
    }
}

fn continues_name(word: &str) -> bool
    ensures { result ≡ list_all is_xid_continue (chars word.now) }
{
    for c in word.chars() {
        if !unicode_ident::is_xid_continue(c) {
            return false;
        }
    }
    true
}

fn is_spelled(word: &str) -> bool
    ensures { result ≡ (begins_name (chars word.now) && list_all is_xid_continue (chars word.now)) }
{
    begins_name(word) && continues_name(word)
}

fn is_name(word: &str) -> bool
    ensures { result ≡ names_something (chars word.now) }
{
    is_spelled(word) && !word_reserved(word.as_bytes())
}

/// The name that the word is.
///
/// # Errors
/// `NotCode` where it is a reserved word, a number or too long, or no name at all; `NoMemory`.
#[tactic(auto, unfolding(crate::specs::Words::name_of))]
pub fn name(alloc: Global, word: &[u8]) -> Result<Text, CodeRefusal>
    ensures { Gives (λ x. x) result (name_of word.now) }
{
    let text = short_text(alloc, word)?;
    if is_name(text.as_str()) {
        Ok(text)
    } else {
        Err(CodeRefusal::NotCode)
    }
}

/// The name that the bytes begin with, which stands nowhere in a source, and what follows it.
///
/// # Errors
/// `NotCode` where they begin with none; `NoMemory`.
pub fn mark(alloc: Global, bytes: &[u8]) -> Result<(Mark, &[u8]), CodeRefusal>
    ensures { Gives (λ x. (x.0, x.1.now)) result (mark_at bytes.now) }
{
    let name = name(alloc, word(bytes))?;
    let place = Place { line: 0, column: 0 };
    Ok((Mark { place, name }, after_word(bytes)))
}
