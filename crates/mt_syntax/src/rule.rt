ghost use Rattle.std.specs.Prelude.{◌≡◌};
ghost use Rattle.mt_syntax.specs.First.{number_of};

use std::fmt;
use std::fmt::Display;

/// A rule that an accepted program keeps. It is written `S` and its number.
#[derive(Clone, Copy, Debug, PartialEq, Eq)]
pub enum Rule {
    /// A dollar stands directly in a tilde, or as an attribute's value or a child of an element.
    S1,
    /// No tilde stands directly in a tilde.
    S2,
    /// A service is declared at the top of the file.
    S3,
    /// No element stands in client code.
    S4,
    /// Client code uses no name of the server.
    S5,
    /// Each name is known where it is used.
    S6,
    /// Server code uses no builtin of the client.
    S7,
    /// Client code uses no builtin of the server.
    S8,
    /// No name is declared twice in a scope.
    S9,
    /// The value of a handler attribute is a tilde or a dollar.
    S10,
    /// The value of any other attribute is no tilde.
    S11,
    /// Tags and attributes have names of HTML's tables, and no tag has an attribute twice.
    S12,
    /// `return` stands in a function or service, `break` and `continue` in a loop of the same function.
    S13,
}

impl Rule {
    /// Its number, from 1 to 13.
    pub fn number(self) -> u8
        ensures { result ≡ number_of self }
    {
        match self {
            Rule::S1 => 1,
            Rule::S2 => 2,
            Rule::S3 => 3,
            Rule::S4 => 4,
            Rule::S5 => 5,
            Rule::S6 => 6,
            Rule::S7 => 7,
            Rule::S8 => 8,
            Rule::S9 => 9,
            Rule::S10 => 10,
            Rule::S11 => 11,
            Rule::S12 => 12,
            Rule::S13 => 13,
        }
    }
}

impl Display for Rule {
    fn fmt<W: fmt::Write>(&self, f: &mut fmt::Formatter<W>) -> fmt::Result {
        let number = self.number();
        write!(f, "S{number}")
    }
}
