//! The plain host, which has no DOM and no page, keeps all: over it each job leaves a lawful state.
//!
//! The function here is a law, whose contract states it and whose body is empty. It shows that what `mt_eval_keeps` asks of a host can be met.
#![tactic(auto)]

ghost use Rattle.std.specs.Prelude.{◌<◌, ◌^◌, ℕ, Bool};
ghost use Rattle.mt_eval_keeps.specs.Hosts.{KeepsAll};
ghost use Rattle.mt_eval_keeps.specs.Kept.{allowed, owns};
ghost use Rattle.mt_builtins.specs.Plain.{plain};
ghost use Rattle.mt_builtins_keeps.specs.Plain.{tests};

/// Each call of a plain host leaves a lawful store, and gives or throws a lawful value; no node, event, frame, HTML or code is its own.
pub fn plain_keeps_all()
    ensures { (numbers : ℕ → Bool) (most : ℕ) → most < 2 ^ 53 → KeepsAll (owns (tests numbers)) most (allowed (tests numbers)) plain }
{}
