ghost use Rattle.std.specs.Prelude.{◌≡◌};
ghost use Rattle.mt_syntax.specs.First.{first_of};
ghost use Rattle.mt_stage_scopes.specs.Rules.{breaks_s5, breaks_s6, broken_by_name, broken_in_client, broken_in_server, broken_where, is_client_name, is_foreign, is_of_client, is_server_name, is_unknown};

use crate::around::{Around, Tier, bound};
use mt_stage_declared::{Scope, builtin_of_both, client_builtin, server_builtin};
use mt_syntax::{Broken, Mark, Rule, earlier};
use mt_tree::{Place, Text};

fn is_server_name(name: &Text, around: &Around) -> bool
    ensures { result ≡ is_server_name name.now around.now }
{
    bound(name, &around.server) || builtin_of_both(name) || server_builtin(name)
}

fn is_client_name(name: &Text, globals: &Scope, around: &Around) -> bool
    ensures { result ≡ is_client_name name.now globals.now around.now }
{
    bound(name, &around.client)
        || globals.declares(name)
        || builtin_of_both(name)
        || client_builtin(name)
}

// Whether the name is a client global, or client code binds it around the place.
fn is_of_client(name: &Text, globals: &Scope, around: &Around) -> bool
    ensures { result ≡ is_of_client name.now globals.now around.now }
{
    bound(name, &around.client) || bound(name, &around.outer) || globals.declares(name)
}

fn broken_where(holds: bool, rule: Rule, place: Place) -> Option<Broken>
    ensures { result ≡ first_of (broken_where holds rule place) }
{
    if holds {
        Some(Broken { place, rule })
    } else {
        None
    }
}

// Whether a name of client code, which may be a client name, is one that is bound in the server code around.
fn breaks_s5(client: bool, bound: bool) -> bool
    ensures { result ≡ breaks_s5 client bound }
{
    !client && bound
}

fn is_unknown(server: bool, client: bool) -> bool
    ensures { result ≡ is_unknown server client }
{
    !server && !client
}

// Whether a name of server code is unknown to both tiers, or no server name and one of client code.
fn breaks_s6(server: bool, client: bool, hidden: bool) -> bool
    ensures { result ≡ breaks_s6 server client hidden }
{
    is_unknown(server, client) || (!server && hidden)
}

// Whether a name is a builtin of the other tier alone, and no name of its own.
fn is_foreign(builtin: bool, own: bool) -> bool
    ensures { result ≡ is_foreign builtin own }
{
    builtin && !own
}

// The first rule that a name breaks in code of the tier that stands there.
pub(crate) fn broken_by_name(globals: &Scope, around: &Around, name: &Mark) -> Option<Broken>
    ensures { result ≡ first_of (broken_by_name globals.now around.now name.now) }
{
    match around.tier {
        Tier::Server => in_server(globals, around, name),
        Tier::Client => in_client(globals, around, name),
    }
}

fn in_client(globals: &Scope, around: &Around, name: &Mark) -> Option<Broken>
    ensures { result ≡ first_of (broken_in_client globals.now around.now name.now) }
{
    let own = is_client_name(&name.name, globals, around);
    let of_server = breaks_s5(own, bound(&name.name, &around.server));
    let unknown = is_unknown(is_server_name(&name.name, around), own);
    let foreign = is_foreign(server_builtin(&name.name), own);
    let first = broken_where(of_server, Rule::S5, name.place);
    let second = broken_where(unknown, Rule::S6, name.place);
    let third = broken_where(foreign, Rule::S8, name.place);
    earlier(first, earlier(second, third))
}

fn in_server(globals: &Scope, around: &Around, name: &Mark) -> Option<Broken>
    ensures { result ≡ first_of (broken_in_server globals.now around.now name.now) }
{
    let own = is_server_name(&name.name, around);
    let other = is_client_name(&name.name, globals, around);
    let unknown = breaks_s6(own, other, is_of_client(&name.name, globals, around));
    let foreign = is_foreign(client_builtin(&name.name), own);
    let first = broken_where(unknown, Rule::S6, name.place);
    let second = broken_where(foreign, Rule::S7, name.place);
    earlier(first, second)
}
