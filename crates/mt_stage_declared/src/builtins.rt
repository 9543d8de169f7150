ghost use Rattle.std.specs.Prelude.{◌≡◌};
ghost use Rattle.mt_stage_declared.specs.Builtins.{is_builtin, is_spelled, is_builtin_of_both, is_client_builtin, is_server_builtin};

use mt_tree::{Text, builtin};

fn is_spelled(name: &Text, word: &str) -> bool
    ensures { result ≡ is_spelled name.now word.now }
{
    name.is(word)
}

/// Whether both tiers have a builtin of the name. Takes no memory.
pub fn builtin_of_both(name: &Text) -> bool
    ensures { result ≡ is_builtin_of_both name.now }
{
    is_spelled(name, builtin::OBJECT)
        || is_spelled(name, builtin::ARRAY)
        || is_spelled(name, builtin::STRING)
        || is_spelled(name, builtin::NUMBER)
        || is_spelled(name, builtin::ERROR)
}

/// Whether the server alone has a builtin of the name. Takes no memory.
pub fn server_builtin(name: &Text) -> bool
    ensures { result ≡ is_server_builtin name.now }
{
    is_spelled(name, builtin::LOG)
}

/// Whether the client alone has a builtin of the name. Takes no memory.
pub fn client_builtin(name: &Text) -> bool
    ensures { result ≡ is_client_builtin name.now }
{
    is_spelled(name, builtin::ALERT)
        || is_spelled(name, builtin::DOCUMENT)
        || is_spelled(name, builtin::EVENT)
}

/// Whether a tier has a builtin of the name. Takes no memory.
pub fn builtin(name: &Text) -> bool
    ensures { result ≡ is_builtin name.now }
{
    builtin_of_both(name) || server_builtin(name) || client_builtin(name)
}
