ghost use Rattle.std.specs.Prelude.{◌≡◌};
ghost use Rattle.mt_stage_declared.specs.Repeated.{twice_at};

use mt_syntax::{Broken, Mark, Rule};

// A name that is declared where it may not be.
pub(crate) fn twice_at(name: &Mark) -> Broken
    ensures { result ≡ twice_at name.now }
{
    Broken {
        place: name.place,
        rule: Rule::S9,
    }
}
