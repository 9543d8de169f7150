ghost use Rattle.std.specs.Prelude.{◌≡◌, [], ◌∷◌, ◌++◌, IfOk, OnOk};
ghost use Rattle.mt_stage_scopes.specs.Bound.{at_top, in_dollar, in_tilde, is_bound, within};

use mt_stage_declared::Scope;
use mt_tree::{NoMemory, Row, Text};
use std::alloc::Global;

/// A tier of the language.
#[derive(Clone, Copy, Debug, PartialEq, Eq)]
pub enum Tier {
    /// The server.
    Server,
    /// A client.
    Client,
}

/// What is around a place: the tier of the code that stands there, and the scopes of each tier, the innermost first.
#[derive(Drop)]
pub struct Around {
    /// The tier of the code at the place.
    pub tier: Tier,
    /// The scopes of server code.
    pub server: Row<Scope>,
    /// The scopes of client code inside the innermost tilde.
    pub client: Row<Scope>,
    /// The scopes of client code around that tilde.
    pub outer: Row<Scope>,
}

impl Around {
    // At the top of the file, which has the scope.
    pub(crate) fn at_top(alloc: Global, scope: Scope) -> Result<Around, NoMemory>
        ensures { IfOk result (λ around. around ≡ at_top scope) }
    {
        let none = Row::from_vec(alloc, Vec::new(alloc))?;
        Ok(Around {
            tier: Tier::Server,
            server: added(alloc, scope, &none)?,
            client: none.share()?,
            outer: none,
        })
    }

    // The same. Nothing is copied.
    pub(crate) fn share(&self) -> Result<Around, NoMemory>
        ensures { IfOk result (λ around. around ≡ self.now) }
    {
        Ok(Around {
            tier: self.tier,
            server: self.server.share()?,
            client: self.client.share()?,
            outer: self.outer.share()?,
        })
    }

    // Inside a scope of the code that stands there.
    pub(crate) fn within(&self, alloc: Global, scope: Scope) -> Result<Around, NoMemory>
        ensures { IfOk result (λ inner. inner ≡ within scope self.now) }
    {
        let mut inner = self.share()?;
        match self.tier {
            Tier::Server => inner.server = added(alloc, scope, &self.server)?,
            Tier::Client => inner.client = added(alloc, scope, &self.client)?,
        }
        Ok(inner)
    }

    // In the expression of a dollar, which is server code. Nothing is copied.
    pub(crate) fn in_dollar(&self) -> Result<Around, NoMemory>
        ensures { IfOk result (λ inner. inner ≡ in_dollar self.now) }
    {
        let mut inner = self.share()?;
        inner.tier = Tier::Server;
        Ok(inner)
    }

    // In the body of a tilde, which has the scope.
    pub(crate) fn in_tilde(&self, alloc: Global, scope: Scope) -> Result<Around, NoMemory>
        ensures { IfOk result (λ inner. inner ≡ in_tilde scope self.now) }
    {
        let none = Row::from_vec(alloc, Vec::new(alloc))?;
        Ok(Around {
            tier: Tier::Client,
            server: self.server.share()?,
            client: added(alloc, scope, &none)?,
            outer: joined(alloc, &self.client, &self.outer)?,
        })
    }
}

// Whether one of the scopes declares the name.
pub(crate) fn bound(name: &Text, scopes: &Row<Scope>) -> bool
    ensures { result ≡ is_bound name.now scopes.now }
{
    for scope in scopes.items() {
        if scope.declares(name) {
            return true;
        }
    }
    false
}

fn push(scopes: &mut Vec<Scope>, scope: Scope) -> Result<(), NoMemory>
    ensures { OnOk result (scopes.new.items ≡ scopes.old.items ++ scope ∷ []) }
{
    match scopes.push(scope) {
        Ok(()) => Ok(()),
        Err(_refused) => Err(NoMemory),
    }
}

fn push_all(from: &Row<Scope>, into: &mut Vec<Scope>) -> Result<(), NoMemory>
    ensures { OnOk result (into.new.items ≡ into.old.items ++ from.now) }
{
    for scope in from.items() {
        push(into, scope.share()?)?;
    }
    Ok(())
}

fn added(alloc: Global, scope: Scope, around: &Row<Scope>) -> Result<Row<Scope>, NoMemory>
    ensures { IfOk result (λ scopes. scopes ≡ scope ∷ around.now) }
{
    let mut scopes = Vec::new(alloc);
    push(&mut scopes, scope)?;
    push_all(around, &mut scopes)?;
    Row::from_vec(alloc, scopes)
}

fn joined(alloc: Global, inner: &Row<Scope>, outer: &Row<Scope>) -> Result<Row<Scope>, NoMemory>
    ensures { IfOk result (λ both. both ≡ inner.now ++ outer.now) }
{
    let mut scopes = Vec::new(alloc);
    push_all(inner, &mut scopes)?;
    push_all(outer, &mut scopes)?;
    Row::from_vec(alloc, scopes)
}
