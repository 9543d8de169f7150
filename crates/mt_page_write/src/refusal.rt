use mt_tree::NoMemory;

/// Why a page or a fragment is not written.
#[derive(Clone, Copy, Debug, PartialEq, Eq)]
pub enum PageRefusal {
    /// Its text has more than 4,194,304 bytes.
    TooLong,
    /// Memory ran out. It stands for no other cause.
    NoMemory,
}

impl From<NoMemory> for PageRefusal {
    ghost use Rattle.std.specs.Prelude.{◌≡◌};
    ghost use Rattle.mt_page_write.specs.declared.refusal.PageRefusal.TheVariants.{NoMemory as Memory};

    ghost from_gives = { λ _ refusal. refusal ≡ Memory };

    fn from(_refused: NoMemory) -> PageRefusal {
        PageRefusal::NoMemory
    }
}
