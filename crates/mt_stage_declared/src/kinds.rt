ghost use Rattle.std.specs.Prelude.{◌≡◌, ◌↔◌, IsTrue};
ghost use Rattle.std.specs.List.{list_any};
ghost use Rattle.mt_stage_declared.specs.Clashes.{all_kinds, has, no_kinds, rivals, with_kind};

use crate::declaration::{ALL_KINDS, DeclarationKind};

// The kinds of the declarations of one name in a scope.
#[derive(Clone, Copy)]
pub(crate) struct Kinds {
    // Whether a parameter has the name.
    pub(crate) parameter: bool,
    // Whether a `let` or `const` has it.
    pub(crate) lexical: bool,
    // Whether a `var` that stands directly in the scope has it.
    pub(crate) variable: bool,
    // Whether a `var` deeper in the scope has it.
    pub(crate) nested: bool,
    // Whether a function has it.
    pub(crate) function: bool,
    // Whether a service has it.
    pub(crate) service: bool,
    // Whether a catch has it.
    pub(crate) catch_name: bool,
}

impl Kinds {
    // No declaration.
    pub(crate) fn none() -> Kinds
        ensures { result ≡ no_kinds }
    {
        Kinds {
            parameter: false,
            lexical: false,
            variable: false,
            nested: false,
            function: false,
            service: false,
            catch_name: false,
        }
    }

    // Whether there is a declaration of the kind.
    pub(crate) fn has(self, kind: DeclarationKind) -> bool
        ensures { result ≡ has kind self }
    {
        match kind {
            DeclarationKind::Parameter => self.parameter,
            DeclarationKind::Lexical => self.lexical,
            DeclarationKind::Variable => self.variable,
            DeclarationKind::Nested => self.nested,
            DeclarationKind::Function => self.function,
            DeclarationKind::Service => self.service,
            DeclarationKind::Catch => self.catch_name,
        }
    }

    // The kinds with one more.
    pub(crate) fn with(mut self, kind: DeclarationKind) -> Kinds
        ensures { result ≡ with_kind kind self }
    {
        match kind {
            DeclarationKind::Parameter => self.parameter = true,
            DeclarationKind::Lexical => self.lexical = true,
            DeclarationKind::Variable => self.variable = true,
            DeclarationKind::Nested => self.nested = true,
            DeclarationKind::Function => self.function = true,
            DeclarationKind::Service => self.service = true,
            DeclarationKind::Catch => self.catch_name = true,
        }
        self
    }

    // Whether there is any declaration.
    pub(crate) fn any(self) -> bool
        ensures { result ≡ list_any (λ k. has k self) all_kinds }
    {
        ALL_KINDS.iter().any(|kind| self.has(*kind))
    }

    // Whether a declaration of the kind clashes with one of these.
    pub(crate) fn clash_with(self, kind: DeclarationKind) -> bool
        ensures { result ≡ list_any (λ k. has k self) (rivals kind) }
    {
        kind.rivals().iter().any(|rival| self.has(*rival))
    }
}
