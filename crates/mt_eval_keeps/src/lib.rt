//! What evaluation keeps: from a lawful state it leaves a lawful one, with a value that is lawful there.
//!
//! A state is lawful where its store and its global variables are, where each node and event in them, and what each frame, HTML and code
//! cell holds, passes the host's test of its own, where each function is one of the code, and where each array and object has room to grow by one at each step that is left
//! (`specs/Growth.antt`). A host's calls keep all that (`specs/Hosts.antt`). Each function here is a law, whose contract states it and
//! whose body is empty. The laws speak of the definition on slots, for each host whose calls keep all, and for each test of what is the
//! host's own (`specs/Kept.antt`). The evaluator, the server and the client stand on them.
//!
//! Each step may let an array or an object grow by one, and none may pass `most`, a number below 2^53 that a caller chooses. So a caller
//! whose jobs took, with what each left unspent counted as taken, `most - 64` steps may begin no further one.
#![tactic(auto)]

ghost use Rattle.std.specs.Prelude.{◌≡◌, ◌+◌, ◌<◌, ◌≤◌, ◌^◌, ℕ, List, [], ◌∷◌, ◌++◌, All, IsTrue, Some, length, slice_get};
ghost use Rattle.mt_eval_keeps.specs.Between.{empty_state, with_host, with_steps, with_store};
ghost use Rattle.mt_eval_keeps.specs.Growth.{Grew, Thing};
ghost use Rattle.mt_eval_keeps.specs.Growth as thing;
ghost use Rattle.mt_eval_keeps.specs.Kept.{Fit, IsFit, IsLawful, Kept, RunKept, Tests, UnitFits, has, owns};
ghost use Rattle.mt_eval_meaning.specs.Building.{build};
ghost use Rattle.mt_eval_meaning.specs.declared.state.State.{State};
ghost use Rattle.mt_eval_meaning.specs.Slots as slots;
ghost use Rattle.mt_eval_meaning.specs.declared.function.Function.{Function};
ghost use Rattle.mt_eval_meaning.specs.declared.function.Unit.{Unit as Unit'};
ghost use Rattle.mt_syntax.specs.DataLimits.{nodes_of_data};
ghost use Rattle.mt_tree.specs.declared.data.Data.{Data};
ghost use Rattle.mt_value.specs.Lawful.{Names, function, variable};
ghost use Rattle.mt_value.specs.Limits.{data_fits};
ghost use Rattle.mt_value.specs.declared.cell.Cell.TheVariants as cell;
ghost use Rattle.mt_value.specs.declared.cell.FunCell.{FunCell};
ghost use Rattle.mt_value.specs.declared.value.Value.{Value};
ghost use Rattle.mt_value.specs.declared.value.Value.TheVariants as value;

use mt_eval_meaning::Host;

/// The code of a tier, from a lawful state, leaves a lawful one, which grew of the first.
pub fn unit_keeps<H: Host>()
    ensures { (tests : Tests H) (most : ℕ) (functions : List Function) → Fit tests most H.meaning functions → (u : Unit') → UnitFits tests u → (s : State × H) → IsLawful tests most s → RunKept tests most s (slots.unit functions H.meaning u s) }
{}

/// So does a call that begins a job, where the function and its arguments are lawful.
pub fn call_keeps<H: Host>()
    ensures { (tests : Tests H) (most : ℕ) (functions : List Function) → Fit tests most H.meaning functions → (f : Value) (arguments : List Value) (s : State × H) → IsLawful tests most s → IsFit tests s f → All (IsFit tests s) arguments → RunKept tests most s (slots.called functions H.meaning f arguments s) }
{}

/// An empty store without global variables is lawful beside a sound host that keeps no function, with room for the steps of a job.
pub fn starts_lawful<H: Host>()
    ensures { (tests : Tests H) (most steps : ℕ) (host : H) → 64 + steps ≤ most → has tests host thing.itself → tests.addresses host ≡ [] → IsLawful tests most (empty_state steps, host) }
{}

/// Between two jobs a lawful state may get other steps, where the room grows by as many, less those that were left.
pub fn more_room<H: Host>()
    ensures { (tests : Tests H) (most more steps : ℕ) (s : State × H) → most + steps ≤ more + s.0.budget → IsLawful tests most s → IsLawful tests more (with_steps steps s) }
{}

/// It may get another host, which has all that the first had as its own, and keeps functions of the store.
pub fn other_host_keeps<H: Host>()
    ensures { (tests : Tests H) (most : ℕ) (s : State × H) (host : H) → ((x : Thing) → IsTrue (tests.own s.1 x) → IsTrue (tests.own host x)) → All (Names s.0.store function) (tests.addresses host) → IsLawful tests most s → Kept tests most s (with_host s host) }
{}

/// Data may be built in it, where they are within the limits and no more than the room allows. Their value is lawful there.
pub fn built_data_keep<H: Host>()
    ensures { (tests : Tests H) (most : ℕ) → most < 2 ^ 53 → (d : Data) → IsTrue (data_fits d) → (s : State × H) → nodes_of_data d + s.0.budget ≤ most → IsLawful tests most s → Kept tests most s (with_store s (build d s.0.store).1) × IsFit tests (with_store s (build d s.0.store).1) (build d s.0.store).0 }
{}

/// It may get a further function of the code, which captures variables.
pub fn further_function_keeps<H: Host>()
    ensures { (tests : Tests H) (most : ℕ) (f : FunCell) (s : State × H) → IsTrue (tests.function f.function) → All (Names s.0.store variable) f.captured → IsLawful tests most s → Kept tests most s (with_store s (s.0.store ++ cell.Fun f ∷ [])) × IsFit tests (with_store s (s.0.store ++ cell.Fun f ∷ [])) (value.Fun (length s.0.store)) }
{}

/// Each function in the store of a lawful state is one of the code.
pub fn functions_are_of_the_code<H: Host>()
    ensures { (tests : Tests H) (most : ℕ) (functions : List Function) → Fit tests most H.meaning functions → (s : State × H) → IsLawful tests most s → (at : ℕ) (f : FunCell) → slice_get s.0.store at ≡ Some (cell.Fun f) → (g : Function) × (slice_get functions f.function ≡ Some g) }
{}

/// The functions that the host of a lawful state keeps are lawful values.
pub fn kept_functions_fit<H: Host>()
    ensures { (tests : Tests H) (most : ℕ) (s : State × H) → IsLawful tests most s → All (λ at. IsFit tests s (value.Fun at)) (tests.addresses s.1) }
{}

/// What was lawful before a job or between two is so after it.
pub fn lawful_values_stay<H: Host>()
    ensures { (tests : Tests H) (s t : State × H) → Grew (owns tests) s t → (v : Value) → IsFit tests s v → IsFit tests t v }
{}

/// What grew of a state that grew of a first one grew of the first.
pub fn growth_goes_on<H: Host>()
    ensures { (tests : Tests H) (s t u : State × H) → Grew (owns tests) s t → Grew (owns tests) t u → Grew (owns tests) s u }
{}
