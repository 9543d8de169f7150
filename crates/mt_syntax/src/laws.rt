ghost use Rattle.std.specs.Prelude.{◌≡◌, ◌++◌, List, [], Option, None, Some, All, Contains, false};
ghost use Rattle.mt_syntax.specs.First.{comes_before, earlier_of, first_of};
ghost use Rattle.mt_syntax.specs.declared.broken.Broken.{Broken};

/// What was found in parts of a program can be joined in any grouping and any order, and twice.
pub fn order_of_finding_is_free()
    ensures grouping { (a b c : Option Broken) → earlier_of a (earlier_of b c) ≡ earlier_of (earlier_of a b) c }
    ensures order { (a b : Option Broken) → earlier_of a b ≡ earlier_of b a }
    ensures repetition { (a : Option Broken) → earlier_of a a ≡ a }
{}

/// The first of two lists is the earlier of the first of each.
pub fn first_broken_of_lists()
    ensures { (xs ys : List Broken) → first_of (xs ++ ys) ≡ earlier_of (first_of xs) (first_of ys) }
{}

/// The first of a list is one of the list, and none of the list comes before it; a list without a first is empty.
pub fn first_broken_is_the_least()
    ensures member { (b : Broken) (bs : List Broken) → first_of bs ≡ Some b → Contains bs b }
    ensures least { (b : Broken) (bs : List Broken) → first_of bs ≡ Some b → All (λ c. comes_before c b ≡ false) bs }
    ensures none { (bs : List Broken) → first_of bs ≡ None → bs ≡ [] }
{}
