ghost use Rattle.mt_tree.specs.Units.{CutIsBetween, FindIsFirst};

/// A cut gives the characters that stand between its two places, wherever there are some.
pub fn cut_is_between()
    ensures { CutIsBetween }
{}

/// A search gives the first place at which the sought text stands, wherever there is one.
pub fn find_is_first()
    ensures { FindIsFirst }
{}
