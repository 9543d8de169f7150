ghost use Rattle.mt_script_read.specs.CodeAt.{code_at};
ghost use Rattle.mt_script_read.specs.Differing.{DifferAt};
ghost use Rattle.mt_script_read.specs.Fills.{Fills, IsAcceptedTilde, IsReadWith};
ghost use Rattle.mt_script_read.specs.Readable.{IsReadable};
ghost use Rattle.mt_script_read.specs.Reads.{Reads};
ghost use Rattle.mt_script_tree.specs.Reading.{stmts_at};
ghost use Rattle.mt_stage.specs.CodeLimits.{IsCodeWithinLimits};
ghost use Rattle.mt_syntax.specs.CodeText.{code_text};
ghost use Rattle.mt_syntax.specs.Codes.{IsCode};
ghost use Rattle.mt_syntax.specs.Depth.{depth_of};
ghost use Rattle.mt_syntax.specs.Numbering.{values_of};
ghost use Rattle.mt_syntax.specs.Substitution.{subst};
ghost use Rattle.mt_syntax.specs.declared.program.Tilde.{Tilde};
ghost use Rattle.mt_syntax.specs.declared.tree.Stmt.{Stmt};
ghost use Rattle.mt_syntax_laws.specs.Blanked.{blanked};
ghost use Rattle.mt_tree.specs.declared.data.Data.{Data};
ghost use Rattle.std.specs.Prelude.{◌≡◌, ℕ, List, Some, length, ◌≤◌};

/// No two codes have one text, also beyond every limit.
pub fn one_text_for_each_code()
    ensures { (a b : List Stmt) → IsCode a → IsCode b → code_text a ≡ code_text b → a ≡ b }
{}

/// Code within the limits is found in its text, and what is found in bytes is code within the limits that has just these bytes as
/// its text.
pub fn code_is_found_in_just_its_text()
    ensures found { (body : List Stmt) → IsCodeWithinLimits body → code_at (code_text body) ≡ Some body }
    ensures alone { (bytes : List ℕ) (body : List Stmt) → code_at bytes ≡ Some body → Reads bytes body }
{}

/// The text that a tilde of an accepted program has with data for its dollars is read, and what is read is the code of the tilde with
/// each of the data as a value in the place of its dollar, whatever characters it holds: no datum is read as code.
pub fn values_are_read_as_values()
    ensures read { (tilde : Tilde) (values : List Data) → Fills tilde values → IsReadWith tilde values (subst values tilde.body) }
    ensures alone { (tilde : Tilde) (values : List Data) (code : List Stmt) → IsReadWith tilde values code → code ≡ subst values tilde.body }
    ensures values { (tilde : Tilde) (values : List Data) → IsAcceptedTilde tilde → length values ≡ length tilde.dollars → values_of (subst values tilde.body) ≡ values }
{}

/// The codes that are read from two texts of one tilde of an accepted program differ in the data of their values alone, and these are
/// the data that were given: where the lists differ in one place alone, so do the values of the codes.
pub fn only_values_differ()
    ensures given { (tilde : Tilde) (ds es : List Data) (code other : List Stmt) → IsReadWith tilde ds code → IsReadWith tilde es other
        → (blanked code ≡ blanked other) × ((values_of code ≡ ds) × (values_of other ≡ es)) }
    ensures one_place { (i : ℕ) (tilde : Tilde) (ds es : List Data) (code other : List Stmt) → IsReadWith tilde ds code → IsReadWith tilde es other
        → DifferAt i ds es → (blanked code ≡ blanked other) × DifferAt i (values_of code) (values_of other) }
{}

/// In the text of code that is at most so deep this code is found.
pub fn code_is_found_in_its_text()
    ensures { (depth : ℕ) (body : List Stmt) → IsReadable body → depth_of body ≤ depth → stmts_at depth (code_text body) ≡ Some body }
{}

/// Whatever is found has the form of code, whichever bytes it is found in.
pub fn what_is_found_is_code()
    ensures { (depth : ℕ) (bytes : List ℕ) (body : List Stmt) → stmts_at depth bytes ≡ Some body → IsReadable body }
{}
