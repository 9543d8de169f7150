ghost use Rattle.std.specs.Prelude.{◌≡◌, ◌++◌, ◌∷◌, Bool, List, ℕ};
ghost use Rattle.mt_page_tokens.specs.Limits.{IsPage};
ghost use Rattle.mt_page_tokens.specs.Tokens.{Page, text_of};

/// No two pages within the limits have one text, and no two fragments.
pub fn one_page_each()
    ensures { (whole : Bool) (p q : Page) → IsPage whole p → IsPage whole q → text_of whole p ≡ text_of whole q → p ≡ q }
{}

/// No text of a page within the limits is a proper beginning of another's, and no text of a fragment.
pub fn no_page_begins_another()
    ensures { (whole : Bool) (p q : Page) (b : ℕ) (more : List ℕ) → IsPage whole p → IsPage whole q → text_of whole p ++ b ∷ more ≡ text_of whole q → ⊥ }
{}
