ghost use Rattle.std.specs.Prelude.{◌≡◌, ℕ, List};
ghost use Rattle.mt_start.specs.Starts.{Ending, StartsAs};

/// A text starts with one ending alone, log lines and texts included.
pub fn a_text_has_one_ending()
    ensures { (text : List ℕ) (x y : Ending) → StartsAs text x → StartsAs text y → x ≡ y }
{}
