ghost use Rattle.std.specs.Prelude.{◌≡◌, ◌∷◌, [], ◌++◌, OnOk};
ghost use Rattle.mt_stage_declared.specs.Clashes.{rivals};
ghost use Rattle.mt_stage_declared.specs.Declarations.{declaration};

use mt_syntax::Mark;
use mt_tree::NoMemory;

/// How a name is declared.
#[derive(Clone, Copy, Debug, PartialEq, Eq)]
pub enum DeclarationKind {
    /// As a parameter of the function.
    Parameter,
    /// By `let` or `const`, directly in the block or body.
    Lexical,
    /// By `var`, directly in the block or body.
    Variable,
    /// By `var`, in a statement of the block or body, or at the start of a `for`.
    Nested,
    /// As a function, at the body's top.
    Function,
    /// As a service, at the top of the file.
    Service,
    /// As the name of a catch.
    Catch,
}

impl DeclarationKind {
    /// The kinds of those declarations of the same name that it clashes with in one scope.
    pub fn rivals(self) -> &'static [DeclarationKind]
        ensures { result.now ≡ rivals self }
    {
        match self {
            DeclarationKind::Parameter => &PARAMETER_RIVALS,
            DeclarationKind::Lexical => &ALL_KINDS,
            DeclarationKind::Variable => &VARIABLE_RIVALS,
            DeclarationKind::Nested => &NESTED_RIVALS,
            DeclarationKind::Function => &FUNCTION_RIVALS,
            DeclarationKind::Service => &SERVICE_RIVALS,
            DeclarationKind::Catch => &CATCH_RIVALS,
        }
    }
}

const PARAMETER_RIVALS: [DeclarationKind; 2] = [
    DeclarationKind::Parameter,
    DeclarationKind::Lexical,
];

pub(crate) const ALL_KINDS: [DeclarationKind; 7] = [
    DeclarationKind::Parameter,
    DeclarationKind::Lexical,
    DeclarationKind::Variable,
    DeclarationKind::Nested,
    DeclarationKind::Function,
    DeclarationKind::Service,
    DeclarationKind::Catch,
];

const VARIABLE_RIVALS: [DeclarationKind; 3] = [
    DeclarationKind::Lexical,
    DeclarationKind::Function,
    DeclarationKind::Service,
];

const NESTED_RIVALS: [DeclarationKind; 2] = [DeclarationKind::Lexical, DeclarationKind::Service];

const FUNCTION_RIVALS: [DeclarationKind; 4] = [
    DeclarationKind::Lexical,
    DeclarationKind::Variable,
    DeclarationKind::Function,
    DeclarationKind::Service,
];

const SERVICE_RIVALS: [DeclarationKind; 5] = [
    DeclarationKind::Lexical,
    DeclarationKind::Variable,
    DeclarationKind::Nested,
    DeclarationKind::Function,
    DeclarationKind::Service,
];

const CATCH_RIVALS: [DeclarationKind; 1] = [DeclarationKind::Lexical];

/// A name that is declared, where it stands, and how it is declared.
#[derive(Drop)]
pub struct Declaration {
    /// How it is declared.
    pub kind: DeclarationKind,
    /// The name.
    pub name: Mark,
}

/// Adds a declaration of the name.
///
/// # Errors
/// `NoMemory`.
pub fn declare(
    kind: DeclarationKind,
    name: &Mark,
    into: &mut Vec<Declaration>,
) -> Result<(), NoMemory>
    ensures { OnOk result (into.new.items ≡ into.old.items ++ declaration kind name.now ∷ []) }
{
    let copy = Mark {
        place: name.place,
        name: name.name.share()?,
    };
    match into.push(Declaration { kind, name: copy }) {
        Ok(()) => Ok(()),
        Err(_refused) => Err(NoMemory),
    }
}
