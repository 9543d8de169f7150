//! Laws of a dispatch in any world: the turns act on the world, and so on the page and the listeners in it. Each is the contract of a
//! function with an empty body.
ghost use Rattle.std.specs.Prelude.{◌≡◌, ℕ, List, Bool, [], Some, None, if◌then◌else◌};
ghost use Rattle.mt_events.specs.declared.turn.Turn.{Turn};
ghost use Rattle.mt_events.specs.Dispatch.{advance, turn_first, along, to_come};

/// All is to come as a dispatch starts.
pub fn dispatch_begins<W>()
    ensures { (arrive : W → ℕ → List Turn) (act : W → Turn → W × Bool) (w : W) (path : List ℕ) → to_come arrive act w [] path ≡ along arrive act w path }
{}

/// What is to come before a turn is that turn, and what is to come after it: of the later nodes, where it doesn't stop them.
pub fn dispatch_goes_on<W>()
    ensures { (arrive : W → ℕ → List Turn) (act : W → Turn → W × Bool) (w : W) (left : List Turn) (path : List ℕ) (turn : Turn) (left' : List Turn) (path' : List ℕ)
        → advance (arrive w) left path ≡ (Some turn, left', path')
        → to_come arrive act w left path ≡ turn_first turn (to_come arrive act (act w turn).0 left' (if (act w turn).1 then [] else path')) }
{}

/// Nothing is to come where a dispatch has no next turn.
pub fn dispatch_ends<W>()
    ensures { (arrive : W → ℕ → List Turn) (act : W → Turn → W × Bool) (w : W) (left : List Turn) (path : List ℕ)
        → (advance (arrive w) left path).0 ≡ None → to_come arrive act w left path ≡ (w, []) }
{}
