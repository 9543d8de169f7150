ghost use Rattle.std.specs.Prelude.{◌≡◌};
ghost use Rattle.mt_stage_declared.specs.Declarations.{declaration};

use crate::builtins::builtin;
use crate::declaration::DeclarationKind;
use mt_syntax::Mark;

// What may hold of a declaration.
pub(crate) trait Predicate {
    ghost use Rattle.std.specs.Prelude.{Bool};
    ghost use Rattle.mt_stage_declared.specs.declared.declaration.Declaration.{Declaration};

    ghost holds: { Self → Declaration → Bool };

    fn holds(&self, kind: DeclarationKind, name: &Mark) -> bool
        ensures { result ≡ holds self.now (declaration kind name.now) };
}

// That the name is that of a builtin.
pub(crate) struct IsBuiltin;

impl Predicate for IsBuiltin {
    ghost use Rattle.mt_stage_declared.specs.Builtins.{is_builtin};

    ghost holds = { λ _ d. is_builtin d.name.name };

    fn holds(&self, _kind: DeclarationKind, name: &Mark) -> bool {
        builtin(&name.name)
    }
}
