ghost use Rattle.std.specs.Prelude.{◌≡◌, true};
ghost use Rattle.mt_resolve_names.specs.Around.{tier_of};
ghost use Rattle.mt_eval_meaning.specs.Names.{builtin_of, builtin_of_tier};
ghost use Rattle.mt_ops.specs.Texts.{is_plain};
ghost use Rattle.mt_value.specs.Names.{is_same};

use mt_tree::{Text, builtin};
use mt_value::Native;

/// A tier of the language.
#[derive(Clone, Copy)]
pub enum Tier {
    Server,
    Client,
}

// The word is of ASCII characters.
fn is_spelled(name: &Text, word: &str) -> bool
    requires { is_plain word.now ≡ true }
    ensures { result ≡ is_same name.now word.now }
{
    name.is(word)
}

fn builtin_of_tier(tier: Tier, name: &Text) -> Option<Native>
    ensures { result ≡ builtin_of_tier (tier_of tier) name.now }
{
    match tier {
        Tier::Server => {
            if is_spelled(name, builtin::LOG) {
                Some(Native::Log)
            } else {
                None
            }
        }
        Tier::Client => {
            if is_spelled(name, builtin::ALERT) {
                Some(Native::Alert)
            } else if is_spelled(name, builtin::DOCUMENT) {
                Some(Native::Document)
            } else if is_spelled(name, builtin::EVENT) {
                Some(Native::Event)
            } else {
                None
            }
        }
    }
}

/// The builtin of the name, on the tier. Takes no memory.
#[tactic(auto, unfolding(mt_eval_meaning::specs::Names::builtin_of))]
pub fn builtin(tier: Tier, name: &Text) -> Option<Native>
    ensures { result ≡ builtin_of (tier_of tier) name.now }
{
    if is_spelled(name, builtin::OBJECT) {
        Some(Native::Object)
    } else if is_spelled(name, builtin::ARRAY) {
        Some(Native::Array)
    } else if is_spelled(name, builtin::STRING) {
        Some(Native::String)
    } else if is_spelled(name, builtin::NUMBER) {
        Some(Native::Number)
    } else if is_spelled(name, builtin::ERROR) {
        Some(Native::Error)
    } else {
        builtin_of_tier(tier, name)
    }
}
