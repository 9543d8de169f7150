ghost use Rattle.std.specs.Prelude.{◌≡◌, ◌∷◌, ◌++◌, []};
ghost use Rattle.mt_syntax.specs.CodeText.{assign_text, binary_text, unary_text, var_text};

use mt_tree::{Binary, Unary, VarKind};

/// What stands before the operand of an operator.
pub(crate) fn unary_opening(operator: Unary) -> &'static [u8]
    ensures { result.now ≡ 40 ∷ unary_text operator }
{
    match operator {
        Unary::Not => b"(!",
        Unary::Minus => b"(-",
        Unary::Plus => b"(+",
        Unary::Typeof => b"(typeof ",
    }
}

/// What stands between the operands of an operator.
pub(crate) fn binary_sign(operator: Binary) -> &'static [u8]
    ensures { result.now ≡ 32 ∷ (binary_text operator ++ 32 ∷ []) }
{
    match operator {
        Binary::Add => b" + ",
        Binary::Sub => b" - ",
        Binary::Mul => b" * ",
        Binary::Div => b" / ",
        Binary::Rem => b" % ",
        Binary::Less => b" < ",
        Binary::LessEqual => b" <= ",
        Binary::Greater => b" > ",
        Binary::GreaterEqual => b" >= ",
        Binary::Same => b" === ",
        Binary::Different => b" !== ",
    }
}

/// What stands between the target of an assignment and its value. No source has an assignment by a comparison.
pub(crate) fn assignment_sign(operator: Option<Binary>) -> &'static [u8]
    ensures { result.now ≡ 32 ∷ (assign_text operator ++ 32 ∷ []) }
{
    match operator {
        None => b" = ",
        Some(Binary::Add) => b" += ",
        Some(Binary::Sub) => b" -= ",
        Some(Binary::Mul) => b" *= ",
        Some(Binary::Div) => b" /= ",
        Some(Binary::Rem) => b" %= ",
        Some(Binary::Less) => b" <= ",
        Some(Binary::LessEqual) => b" <== ",
        Some(Binary::Greater) => b" >= ",
        Some(Binary::GreaterEqual) => b" >== ",
        Some(Binary::Same) => b" ==== ",
        Some(Binary::Different) => b" !=== ",
    }
}

/// The word of a declaration, with the space behind it.
pub(crate) fn declaration_word(kind: VarKind) -> &'static [u8]
    ensures { result.now ≡ var_text kind }
{
    match kind {
        VarKind::Var => b"var ",
        VarKind::Let => b"let ",
        VarKind::Const => b"const ",
    }
}
