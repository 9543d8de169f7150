ghost use Rattle.std.specs.Prelude.{◌≡◌};
ghost use Rattle.mt_html.specs.declared.refusal.HtmlRefusal.TheVariants.{NoMemory as Memory};

use mt_tree::NoMemory;

/// Why no element is made.
#[derive(Clone, Copy, Debug, PartialEq, Eq)]
pub enum HtmlRefusal {
    /// The element would nest to depth 61, or a joined text would have more than 1,048,576 units of UTF-16.
    TooLarge,
    /// A text among the children or the value of a plain attribute holds U+0000.
    Nul,
    /// Memory ran out. It stands for no other cause.
    NoMemory,
}

impl From<NoMemory> for HtmlRefusal {
    ghost from_gives = { λ _ refused. refused ≡ Memory };

    fn from(_refused: NoMemory) -> HtmlRefusal {
        HtmlRefusal::NoMemory
    }
}
