ghost use Rattle.std.specs.Prelude.{◌≡◌};

use mt_tree::NoMemory;

// Why no tree was made.
#[derive(Clone, Copy, Debug, PartialEq, Eq)]
pub(crate) enum Fault {
    NoMemory,
    // These are not the nodes of a program.
    Malformed,
}

impl From<NoMemory> for Fault {
    ghost use Rattle.mt_parser_builder.specs.declared.fault.Fault.TheVariants as fault;

    ghost from_gives = { λ _ made. made ≡ fault.NoMemory };

    fn from(_refused: NoMemory) -> Fault {
        Fault::NoMemory
    }
}
