//! What resolved code and its state stand for: which code on slots stands for which syntax, and which state by names a state on slots
//! stands for.
//!
//! `specs/Stores.antt` says when a state on slots stands for one by names: it has the same cells at the same places, and each cell of a
//! function captures, for each name that is free in the function, the address that the function's environment gives.
//! `specs/Free.antt` says which names these are. Each function here is a law, whose contract states it and whose body is empty: code on
//! slots is evaluated as the syntax that it stands for, whose functions keep their whole environments. The resolver and the evaluator
//! stand on this crate.
#![tactic(auto)]

ghost use Rattle.std.specs.Prelude.{◌≡◌, ℕ, List, [], Option, Some, slice_get, true};
ghost use Rattle.mt_eval_meaning.specs.Agreement.{EvaluatesAs, FreeIsEnough, StartsAs, aside, file_on_slots, shown, shown_by_names, without_functions};
ghost use Rattle.mt_eval_meaning.specs.Code.{TableStands, FileStands, ClientCodeStands};
ghost use Rattle.mt_eval_meaning.specs.Free.{has, free_of};
ghost use Rattle.mt_eval_meaning.specs.States.{Numbered, kept_free, keeping_whole};
ghost use Rattle.mt_eval_meaning.specs.Stores.{StateStands};
ghost use Rattle.mt_eval_meaning.specs.Entering.{Named};
ghost use Rattle.mt_eval_meaning.specs.Evaluation.{file, client_code, called};
ghost use Rattle.mt_eval_meaning.specs.Names.{Environment, Surroundings, find};
ghost use Rattle.mt_eval_meaning.specs.declared.state.State.{State};
ghost use Rattle.mt_eval_meaning.specs.Slots as slots;
ghost use Rattle.mt_eval_meaning.specs.declared.function.Function.{Function};
ghost use Rattle.mt_eval_meaning.specs.declared.function.Unit.{Unit as Unit'};
ghost use Rattle.mt_syntax.specs.declared.program.Tilde.{Tilde};
ghost use Rattle.mt_syntax.specs.declared.tree.Function.{Function as Function'};
ghost use Rattle.mt_syntax.specs.declared.tree.Stmt.{Stmt};
ghost use Rattle.mt_value.specs.declared.value.Value.{Value};

use mt_eval_meaning::Host;

/// The top of a file on slots is evaluated as the file, for every host: the same ending, with the environment that the services have,
/// and a state that stands for the definition's.
pub fn file_agrees<H: Host>()
    ensures { (around : Surroundings) (units : List Function) (table : List Numbered) → TableStands around units table → (u : Unit') (items : List Stmt) → FileStands around units table u items → EvaluatesAs around.tildes table (file_on_slots units H.meaning u items) (file (keeping_whole around) H.meaning items) }
{}

/// On an empty store the unit of a file on slots ends as the file, in a state that stands for the definition's; where it comes to its
/// end, the cell of each name of the top stands at the place that is its slot.
pub fn file_starts<H: Host>()
    ensures { (around : Surroundings) (units : List Function) (table : List Numbered) → TableStands around units table → (u : Unit') (items : List Stmt) → FileStands around units table u items → (s : State × H) → s.0.store ≡ [] → StartsAs around.tildes table items (file (keeping_whole around) H.meaning items (without_functions s)) (slots.unit units H.meaning u s) }
{}

/// On an empty store the unit of a file on slots and the file end the same way, with the same throw or stop, host, globals and budget, and with
/// stores that a host sees as the same.
pub fn file_start_agrees<H: Host>()
    ensures { (around : Surroundings) (units : List Function) (table : List Numbered) → TableStands around units table → (u : Unit') (items : List Stmt) → FileStands around units table u items → (s : State × H) → s.0.store ≡ [] → shown_by_names (aside (file (keeping_whole around) H.meaning items (without_functions s))) ≡ shown (aside (slots.unit units H.meaning u s)) }
{}

/// The code of a tilde on slots is evaluated as the code, for every host.
pub fn client_code_agrees<H: Host>()
    ensures { (around : Surroundings) (units : List Function) (table : List Numbered) → TableStands around units table → (u : Unit') (items : List Stmt) → ClientCodeStands around units table u items → EvaluatesAs around.tildes table (slots.unit units H.meaning u) (client_code (keeping_whole around) H.meaning items) }
{}

/// A call that begins a job does on slots what it does by names, for every host and every value that is called.
pub fn call_agrees<H: Host>()
    ensures { (around : Surroundings) (units : List Function) (table : List Numbered) → TableStands around units table → (f : Value) (arguments : List Value) → EvaluatesAs around.tildes table (slots.called units H.meaning f arguments) (called (keeping_whole around) H.meaning f arguments) }
{}

/// Functions that keep the variables of the names that are free in them do all that they do with their whole environments, for every
/// host: each job ends the same way, with the same host and budget, and with a store that differs in what its functions keep alone.
pub fn what_is_free_is_enough<H: Host>()
    ensures { (around : Surroundings) → FreeIsEnough around H.meaning }
{}

/// What a function keeps of its environment finds each name that is free in it as the whole environment does.
pub fn each_free_name_is_kept()
    ensures { (tildes : List Tilde) (own : Option (List ℕ)) (f : Function') (environment : Environment) (name : List ℕ) → has (free_of tildes own f) name ≡ true → find name (kept_free tildes own f environment) ≡ find name environment }
{}

/// A state that stands for another goes on to stand for it where further functions get numbers.
pub fn further_functions_change_nothing<H: Host>()
    ensures { (tildes : List Tilde) (table more : List Numbered) → ((n : ℕ) (e : Numbered) → slice_get table n ≡ Some e → slice_get more n ≡ Some e) → (s : State × H) (n : State × Named H) → StateStands tildes table s n → StateStands tildes more s n }
{}
