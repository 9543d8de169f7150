ghost use Rattle.std.specs.Prelude.{◌≡◌, true, option_copied, option_map, IfOk, Err};
ghost use Rattle.mt_small.specs.declared.application.Small.{Small};
ghost use Rattle.std.specs.Str.{chars};
ghost use Rattle.mt_small.specs.declared.application_reader.SmallRefusal.{SmallRefusal};
ghost use Rattle.mt_small.specs.Application.{IsSmall, Spells};
ghost use Rattle.mt_small.specs.Name.{is_service_name};
ghost use Rattle.mt_small.specs.Paragraph.{is_paragraph};
ghost use Rattle.mt_small.specs.ApplicationReader.{without_line_feed, text_from, named_from, parts_in, small_in};

use crate::application::Small;
use crate::name::service_name_fits;
use crate::plain::{paragraph_fits, utf8_text};
use crate::splitting::{after_front, before_back, place_of};
use mt_tree::NoMemory;
use std::alloc::Global;

/// Why a text isn't read as a small application.
#[derive(Clone, Copy, Debug, PartialEq, Eq)]
pub enum SmallRefusal {
    /// The text spells no small application.
    NotSmall,
    /// Memory ran out.
    NoMemory,
}

/// The bytes without a line feed at their end.
fn without_line_feed(bytes: &[u8]) -> &[u8]
    ensures { result.now ≡ without_line_feed bytes.now }
{
    before_back(b"\n", bytes).unwrap_or(bytes)
}

/// The text of the paragraph, where the parenthesis behind the name stands first.
#[tactic(auto, unfolding(crate::specs::Application::middle, crate::specs::Application::back))]
fn text_from(bytes: &[u8]) -> Option<&[u8]>
    ensures { option_copied result ≡ text_from bytes.now }
{
    let rest = after_front(b"() { return <p>", bytes)?;
    before_back(b"</p>; }", rest)
}

/// The name, which stands first, and the text.
fn named_from(bytes: &[u8]) -> Option<(&[u8], &[u8])>
    ensures { option_map (λ parts. (parts.0.now, parts.1.now)) result ≡ named_from bytes.now }
{
    let (service, rest) = bytes.split_at(place_of(b'(', bytes));
    let text = text_from(rest)?;
    Some((service, text))
}

/// The name and the text of an application, whatever they are.
#[tactic(auto, unfolding(crate::specs::Application::front))]
fn parts_of(bytes: &[u8]) -> Option<(&[u8], &[u8])>
    ensures { option_map (λ parts. (parts.0.now, parts.1.now)) result ≡ parts_in bytes.now }
{
    let rest = after_front(b"service ", without_line_feed(bytes))?;
    named_from(rest)
}

/// The name and the text of a small application.
fn small_parts(bytes: &[u8]) -> Option<(&[u8], &[u8])>
    ensures { option_map (λ parts. (parts.0.now, parts.1.now)) result ≡ small_in bytes.now }
{
    let (service, text) = parts_of(bytes)?;
    if service_name_fits(service) && paragraph_fits(text) {
        Some((service, text))
    } else {
        None
    }
}

/// Reads a small application: `service NAME() { return <p>TEXT</p>; }`, with or without one line feed (U+000A) after it.
///
/// NAME is 1 to 32 lower-case ASCII letters, and neither a reserved word nor a builtin's name. TEXT is 1 to 1,000 ASCII
/// letters, digits and spaces. The bytes may be any, and as many as memory holds. No bytes spell two applications.
///
/// # Errors
/// `NotSmall` where the bytes spell no small application, and `NoMemory` where memory runs out. Bytes that spell one
/// are never `NotSmall`.
pub fn read_small(alloc: Global, bytes: &[u8]) -> Result<Small, SmallRefusal>
    ensures read { IfOk result (λ small. IsSmall small × Spells bytes.now small) }
    ensures refused { result ≡ Err SmallRefusal.NotSmall → (small : Small) → IsSmall small → Spells bytes.now small → ⊥ }
{
    match small_parts(bytes) {
        Some((service, text)) => match small_of(alloc, service, text) {
            Ok(small) => Ok(small),
            Err(NoMemory) => Err(SmallRefusal::NoMemory),
        },
        None => Err(SmallRefusal::NotSmall),
    }
}

/// The application of this name and this text.
fn small_of(alloc: Global, service: &[u8], text: &[u8]) -> Result<Small, NoMemory>
    requires service { is_service_name service.now ≡ true }
    requires text { is_paragraph text.now ≡ true }
    ensures service { IfOk result (λ small. small.service ≡ chars service.now) }
    ensures text { IfOk result (λ small. small.text ≡ chars text.now) }
{
    let service = utf8_text(alloc, service)?;
    let text = utf8_text(alloc, text)?;
    Ok(Small { service, text })
}
