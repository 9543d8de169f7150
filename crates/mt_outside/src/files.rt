ghost use Rattle.std.specs.Prelude.{◌≡◌, ◌≤◌, List, ℕ, Option, IsErr};
ghost use Rattle.std.specs.Str.{chars};
ghost use Rattle.std.specs.Io.{ReadsAtMost};
ghost use Rattle.mt_outside.specs.Cause.{HasCause};
ghost use Rattle.mt_outside.specs.Files.{ReadsFrom};

use crate::fault::Failed;

/// Files by name. Contracts see a name as the list of its characters.
pub trait Files {
    /// The bytes under a name, where they are told. No call changes them.
    ghost contents: { Self → List ℕ → Option (List ℕ) };

    /// What is told of a name that is missing. No call makes the name come up.
    ghost is_missing: { Self → List ℕ → Type 0 };

    /// How often reads of a name have failed: a count for each name, which never falls and stays at 2^64 - 1.
    ghost faults: { Self → List ℕ → ℕ };

    /// Reads the bytes of a file from the place `at` on, counted in bytes from 0, and gives how many were read.
    ///
    /// They stand at the front of `into`: at least one where there are any and `into` isn't empty, and none at the end of the
    /// file. `Failed` comes for a missing name, and else only where the count of that name rose in this call, or stands at
    /// 2^64 - 1.
    fn read_at(&mut self, name: &str, at: u64, into: &mut [u8]) -> Result<usize, Failed>
        ensures bound { ReadsAtMost result into.new }
        ensures bytes { ReadsFrom (contents self.old (chars name.now)) at result into.new }
        ensures missing { is_missing self.old (chars name.now) → IsErr result }
        ensures kept { contents self.new ≡ contents self.old }
        ensures still_missing { (other : List ℕ) → is_missing self.old other → is_missing self.new other }
        ensures later { (other : List ℕ) → faults self.old other ≤ faults self.new other }
        ensures cause { HasCause (faults self.old (chars name.now)) (faults self.new (chars name.now)) result };
}
