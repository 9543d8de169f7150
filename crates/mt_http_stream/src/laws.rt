ghost use Rattle.std.specs.Prelude.{◌≡◌, ◌++◌, List, Option, Some, ℕ};
ghost use Rattle.mt_http_stream.specs.Settling.{Found, IsFound, Settles};
ghost use Rattle.mt_http_stream.specs.declared.settled.Settled.{Settled};

/// In the same bytes no two heads are found.
pub fn one_head_found()
    ensures { (bytes : List ℕ) (a b : Found) → IsFound bytes a → IsFound bytes b → a ≡ b }
{}

/// Bytes decide one thing alone, and once they have decided, so does what begins with them.
pub fn settled_for_good()
    ensures one { (services : List (List ℕ)) (bytes : List ℕ) (a b : Option Settled) → Settles services bytes a → Settles services bytes b → a ≡ b }
    ensures good { (services : List (List ℕ)) (bytes more : List ℕ) (settled : Settled) → Settles services bytes (Some settled) → Settles services (bytes ++ more) (Some settled) }
{}
