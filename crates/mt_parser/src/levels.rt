ghost use Rattle.std.specs.Prelude.{◌≡◌, ◌++◌, [], OnOk, IfOk, replicate};
ghost use Rattle.mt_parser.specs.Levels.{levels_of, first_level, later_levels, IsPopped};

use std::alloc::{AllocError, Global};

// A tree at one level, and `more` others at it.
#[derive(Clone, Copy)]
pub(crate) struct Run {
    pub(crate) level: u32,
    pub(crate) more: u128,
}

// The levels of the trees that are still to come. The last run comes next.
#[derive(Drop)]
pub(crate) struct Levels {
    // The level of a tree for which none is given.
    pub(crate) top: u32,
    pub(crate) runs: Vec<Run>,
}

impl Levels {
    #[tactic(auto, unfolding(crate::specs::Levels::levels_of))]
    pub(crate) fn new(alloc: Global, top: u32) -> Levels
        ensures levels { levels_of result.runs.items ≡ [] }
        ensures top { result.top ≡ top }
    {
        Levels {
            top,
            runs: Vec::new(alloc),
        }
    }

    // The level of the next tree.
    pub(crate) fn next(&mut self) -> Result<u32, AllocError>
        ensures first { IfOk result (λ level. level ≡ first_level self.old.top (levels_of self.old.runs.items)) }
        ensures later { OnOk result (levels_of self.new.runs.items ≡ later_levels (levels_of self.old.runs.items)) }
        ensures top { self.new.top ≡ self.old.top }
    {
        match self.pop() {
            Some(run) => {
                self.add(run.level, run.more)?;
                Ok(run.level)
            }
            None => Ok(self.top),
        }
    }

    fn pop(&mut self) -> Option<Run>
        ensures popped { IsPopped result (levels_of self.old.runs.items) (levels_of self.new.runs.items) }
        ensures top { self.new.top ≡ self.old.top }
    {
        self.runs.pop()
    }

    // Some more trees come next, all at this level.
    pub(crate) fn add(&mut self, level: u32, count: u128) -> Result<(), AllocError>
        ensures added { OnOk result (levels_of self.new.runs.items ≡ replicate count level ++ levels_of self.old.runs.items) }
        ensures top { self.new.top ≡ self.old.top }
    {
        if count > 0 {
            let more = count - 1;
            self.runs.push(Run { level, more })?;
        }
        Ok(())
    }
}
