ghost use Rattle.std.specs.Prelude.{◌≡◌, ◌≤◌, ◌↔◌, None, ℕ, List, IfOk, IsErr, vec_len, length, min, IfSome, ◌-◌, ◌&&◌, ◌⊎◌, if◌then◌else◌};
ghost use Rattle.std.specs.Result.{is_err};
ghost use Rattle.std.specs.Str.{chars};
ghost use Rattle.std.specs.Io.{ReadsAtMost};
ghost use Rattle.mt_outside.specs.Calls.{next_count, fresh_plan, next_plan, FailsNext};
ghost use Rattle.mt_outside.specs.Cause.{HasCause};
ghost use Rattle.mt_outside.specs.Files.{ReadsFrom, shares_count};

use crate::calls::{Calls, raise};
use crate::entries::{place_named, read_part};
use crate::fault::Failed;
use crate::fault_plan::FaultPlan;
use crate::files::Files;
use mt_tree::{Buffer, NoMemory, Text};
use std::alloc::Global;

/// A file in memory: its name and its bytes.
#[derive(Drop)]
pub struct FileEntry {
    /// The name that it is read by.
    pub name: Text,
    /// All of its bytes.
    pub bytes: Buffer<u8>,
}

/// Files in memory, which tell their contents. Of two entries of one name the first one counts.
///
/// A read fails exactly where its number, counted from 1, is in `failing`, or where its name is missing. Each name that is
/// there has its own count of faults, and the missing names share one.
#[derive(Drop)]
pub struct MemoryFiles {
    entries: Vec<FileEntry>,
    counts: Vec<u64>,
    missing: u64,
    calls: Calls,
    ghost counted: { vec_len counts ≡ vec_len entries },
}

impl FaultPlan for MemoryFiles {
    ghost plan = { λ f. record { made = f.calls.made; failing = f.calls.failing.items } };
}

impl MemoryFiles {
    ghost use Rattle.mt_outside.specs.Entries.{content_of};

    /// Files of these entries, on which no call was made. The one error is `NoMemory`: there is no room for the counts.
    ///
    /// `failing` lists the numbers, from 1, of the calls that are to fail, in any order.
    pub fn new(
        alloc: Global,
        entries: Vec<FileEntry>,
        failing: Vec<u64>,
    ) -> Result<MemoryFiles, NoMemory>
        ensures contents { IfOk result (λ made. ⟦<MemoryFiles as Files>⟧.contents made ≡ content_of entries.items) }
        ensures faults { IfOk result (λ made. (name : List ℕ) → ⟦<MemoryFiles as Files>⟧.faults made name ≡ 0) }
        ensures plan { IfOk result (λ made. ⟦<MemoryFiles as FaultPlan>⟧.plan made ≡ fresh_plan failing.items) }
    {
        match vec![in alloc; 0u64; entries.len()] {
            Ok(counts) => Ok(MemoryFiles {
                entries,
                counts,
                missing: 0,
                calls: Calls { made: 0, failing },
            }),
            Err(_refused) => Err(NoMemory),
        }
    }
}

impl Files for MemoryFiles {
    ghost use Rattle.mt_outside.specs.Entries.{content_of, count_of};

    ghost contents = { λ f. content_of f.entries.items };

    ghost is_missing = { λ f name. content_of f.entries.items name ≡ None };

    ghost faults = { λ f. count_of f.entries.items f.counts.items f.missing };

    /// Reads as many bytes as there are and `into` has room for. `Failed` comes exactly at the calls that are to fail and at a
    /// missing name.
    fn read_at(&mut self, name: &str, at: u64, into: &mut [u8]) -> Result<usize, Failed>
        ensures bound { ReadsAtMost result into.new }
        ensures bytes { ReadsFrom (⟦<MemoryFiles as Files>⟧.contents self.old (chars name.now)) at result into.new }
        ensures full { IfOk result (λ n. IfSome (⟦<MemoryFiles as Files>⟧.contents self.old (chars name.now)) (λ content. n ≡ min (length into.new) (length content - at))) }
        ensures missing { ⟦<MemoryFiles as Files>⟧.is_missing self.old (chars name.now) → IsErr result }
        ensures kept { ⟦<MemoryFiles as Files>⟧.contents self.new ≡ ⟦<MemoryFiles as Files>⟧.contents self.old }
        ensures still_missing { (other : List ℕ) → ⟦<MemoryFiles as Files>⟧.is_missing self.old other → ⟦<MemoryFiles as Files>⟧.is_missing self.new other }
        ensures later { (other : List ℕ) → ⟦<MemoryFiles as Files>⟧.faults self.old other ≤ ⟦<MemoryFiles as Files>⟧.faults self.new other }
        ensures cause { HasCause (⟦<MemoryFiles as Files>⟧.faults self.old (chars name.now)) (⟦<MemoryFiles as Files>⟧.faults self.new (chars name.now)) result }
        ensures counted { (other : List ℕ) → ⟦<MemoryFiles as Files>⟧.faults self.new other
            ≡ (if is_err result && shares_count (⟦<MemoryFiles as Files>⟧.contents self.old) (chars name.now) other then next_count (⟦<MemoryFiles as Files>⟧.faults self.old other) else ⟦<MemoryFiles as Files>⟧.faults self.old other) }
        ensures exact { IsErr result ↔ (FailsNext (⟦<MemoryFiles as FaultPlan>⟧.plan self.old) ⊎ (⟦<MemoryFiles as Files>⟧.contents self.old (chars name.now) ≡ None)) }
        ensures plan { ⟦<MemoryFiles as FaultPlan>⟧.plan self.new ≡ next_plan (⟦<MemoryFiles as FaultPlan>⟧.plan self.old) }
    {
        let fails = self.calls.next_fails();
        let place = place_named(&self.entries, name);
        if place < self.entries.len() {
            if fails {
                raise(&mut self.counts[place]);
                return Err(Failed);
            }
            Ok(read_part(self.entries[place].bytes.items(), at, into))
        } else {
            raise(&mut self.missing);
            Err(Failed)
        }
    }
}
