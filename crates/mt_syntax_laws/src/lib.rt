//! What is true of the definitions on syntax trees, apart from any code: each function here is a law, whose contract states it and
//! whose body is empty.
//!
//! A tilde that the grammar derives becomes, by substitution, a code as deep as it was, with just the values given, each in the
//! place of its dollar; and two such codes of one tilde differ in the data of their values alone.
//!
//! `proofs` has the induction over whole trees (`Related`, with `Gathered` for results that are joined from the parts) and the
//! law that any result on a substituted tree is a result on the tree itself (`Substituted`). Layers above cite them for laws of
//! their own.
#![tactic(auto)]

ghost use Rattle.std.specs.Prelude.{◌≡◌, ◌≤◌, ℕ, List, [], flat_map, length, slice_get, Some, true};
ghost use Rattle.std.specs.List.{list_all};
ghost use Rattle.std.specs.Str.{IsUtf8};
ghost use Rattle.mt_tree.specs.declared.data.Data.{Data};
ghost use Rattle.mt_syntax.specs.declared.program.Program.{Program};
ghost use Rattle.mt_syntax.specs.declared.program.Tilde.{Tilde};
ghost use Rattle.mt_syntax.specs.declared.tree.Stmt.{Stmt};
ghost use Rattle.mt_syntax.specs.CodeText.{code_text, writing_code};
ghost use Rattle.mt_syntax.specs.Codes.{IsCode, is_plain};
ghost use Rattle.mt_syntax.specs.Data.{is_data};
ghost use Rattle.mt_syntax.specs.DataText.{data_text};
ghost use Rattle.mt_syntax.specs.Depth.{depth_of, depth_of_program};
ghost use Rattle.mt_syntax.specs.Derivation.{IsDerived, IsDerivedTilde};
ghost use Rattle.mt_syntax.specs.Fold.{Every, on_stmt};
ghost use Rattle.mt_syntax.specs.Numbering.{values_of};
ghost use Rattle.mt_syntax.specs.Shape.{is_shaped};
ghost use Rattle.mt_syntax.specs.Substitution.{subst, substituting};
ghost use Rattle.mt_syntax_laws.specs.Blanked.{blanked};
ghost use Rattle.mt_syntax_laws.specs.Openings.{opens_nothing};

/// Substitution keeps the depth of a body, whatever it puts in.
pub fn substitution_keeps_depth()
    ensures { (values : List Data) (body : List Stmt) → depth_of (subst values body) ≡ depth_of body }
{}

/// Substitution keeps whether a body has the form that the grammar gives.
pub fn substitution_keeps_shape()
    ensures { (values : List Data) (body : List Stmt) → is_shaped (subst values body) ≡ is_shaped body }
{}

/// The values of a substituted tilde are those that were given, in their order: one for each of its dollars.
pub fn each_dollar_has_its_value()
    ensures { (t : Tilde) (values : List Data) → IsDerivedTilde t → length values ≡ length t.dollars → values_of (subst values t.body) ≡ values }
{}

/// A tilde without services, tildes and elements becomes a code, where data are given for its dollars.
pub fn substituted_tilde_is_code()
    ensures { (t : Tilde) (values : List Data) → IsDerivedTilde t → length values ≡ length t.dollars → is_plain t.body ≡ true → list_all is_data values ≡ true → IsCode (subst values t.body) }
{}

/// Two codes of one body are the same, but for the data of their values.
pub fn only_values_differ()
    ensures { (ds es : List Data) (body : List Stmt) → length ds ≡ length es → blanked (subst ds body) ≡ blanked (subst es body) }
{}

/// The text of a substituted body is written from the body and the values, without making the substituted body.
pub fn text_of_substituted_body()
    ensures { (values : List Data) (body : List Stmt) → code_text (subst values body) ≡ flat_map (on_stmt (substituting (Every (List ℕ)) values writing_code)) body }
{}

/// A body in which nothing is put has its own text, so a writer of tildes writes codes as well.
pub fn text_without_values()
    ensures { (body : List Stmt) → code_text (subst [] body) ≡ code_text body }
{}

/// The tagged JSON of data is UTF-8.
pub fn data_text_is_utf8()
    ensures { (d : Data) → is_data d ≡ true → IsUtf8 (data_text d) }
{}

/// What a tilde of a derived program becomes by substitution is at most as deep as the program.
pub fn codes_are_at_most_as_deep()
    ensures { (p : Program) (number : ℕ) (t : Tilde) (values : List Data) → IsDerived p → slice_get p.tildes number ≡ Some t → depth_of (subst values t.body) ≤ depth_of_program p }
{}

/// In the text of code `<` stands only before a space or `=`, so that no text of code ends a script or opens an element.
pub fn code_text_opens_nothing()
    ensures { (body : List Stmt) → is_shaped body ≡ true → opens_nothing (code_text body) ≡ true }
{}
