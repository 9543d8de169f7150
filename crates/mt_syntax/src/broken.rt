ghost use Rattle.std.specs.Prelude.{◌≡◌};
ghost use Rattle.mt_syntax.specs.First.{comes_before, earlier, earlier_of, stands_before};

use crate::rule::Rule;
use mt_tree::Place;

/// A rule that is broken, and where.
#[derive(Clone, Copy, Debug, PartialEq, Eq)]
pub struct Broken {
    /// Where it is broken.
    pub place: Place,
    /// The rule.
    pub rule: Rule,
}

impl Broken {
    /// The one whose place is earlier; of two at one place, the one whose rule has the lower number. Takes no memory.
    pub fn earlier(self, other: Broken) -> Broken
        ensures { result ≡ earlier self other }
    {
        if other.comes_before(self) {
            other
        } else {
            self
        }
    }

    fn comes_before(self, other: Broken) -> bool
        ensures { result ≡ comes_before self other }
    {
        stands_before(self.place, other.place)
            || (self.place == other.place && self.rule.number() < other.rule.number())
    }
}

fn stands_before(a: Place, b: Place) -> bool
    ensures { result ≡ stands_before a b }
{
    a.line < b.line || (a.line == b.line && a.column < b.column)
}

/// The earlier of what was found in two parts of a program; `None` where nothing is broken. Takes no memory.
pub fn earlier(one: Option<Broken>, other: Option<Broken>) -> Option<Broken>
    ensures { result ≡ earlier_of one other }
{
    match (one, other) {
        (None, found) => found,
        (found, None) => found,
        (Some(a), Some(b)) => Some(a.earlier(b)),
    }
}
