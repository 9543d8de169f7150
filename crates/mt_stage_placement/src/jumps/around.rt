ghost use Rattle.std.specs.Prelude.{◌≡◌};
ghost use Rattle.mt_stage_placement.specs.Jumps.{at_node, in_function, in_loop, broken_unless};
ghost use Rattle.mt_syntax.specs.Joining.{first};

use mt_syntax::{Broken, Rule};
use mt_tree::Place;

/// What stands around a part of a program, up to the whole body that it is part of.
#[derive(Clone, Copy)]
pub struct Around {
    /// Where the innermost statement or expression stands.
    pub place: Place,
    /// Whether the body is that of a function or service.
    pub function: bool,
    /// Whether a loop of the body is around.
    pub repeated: bool,
}

impl Around {
    pub(crate) fn at_node(self, place: Place) -> Around
        ensures { result ≡ at_node place self }
    {
        Around { place, ..self }
    }

    pub(crate) fn in_function(self) -> Around
        ensures { result ≡ in_function self }
    {
        Around {
            place: self.place,
            function: true,
            repeated: false,
        }
    }

    pub(crate) fn in_loop(self) -> Around
        ensures { result ≡ in_loop self }
    {
        Around {
            repeated: true,
            ..self
        }
    }

    // The rule on jumps is broken here, unless the jump fits.
    pub(crate) fn broken_unless(self, fits: bool) -> Option<Broken>
        ensures { result ≡ broken_unless first fits self }
    {
        if fits {
            None
        } else {
            Some(Broken {
                place: self.place,
                rule: Rule::S13,
            })
        }
    }
}
