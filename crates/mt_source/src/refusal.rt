ghost use Rattle.std.specs.Prelude.{◌≡◌};

use mt_lexer::LexRefusal;
use mt_parser::ParseRefusal;
use mt_stage::StageRefusal;

/// Why a source is not accepted.
#[derive(Clone, Copy, Debug, PartialEq, Eq)]
pub enum SourceRefusal {
    /// It has no spelling.
    Spelling(LexRefusal),
    /// Its tokens are no program, or one whose tree is too deep.
    Grammar(ParseRefusal),
    /// Its program breaks a rule.
    Rules(StageRefusal),
}

impl From<LexRefusal> for SourceRefusal {
    ghost use Rattle.mt_source.specs.declared.refusal.SourceRefusal.TheVariants as source;

    ghost from_gives = { λ refusal made. made ≡ source.Spelling refusal };

    fn from(refusal: LexRefusal) -> SourceRefusal {
        SourceRefusal::Spelling(refusal)
    }
}

impl From<ParseRefusal> for SourceRefusal {
    ghost use Rattle.mt_source.specs.declared.refusal.SourceRefusal.TheVariants as source;

    ghost from_gives = { λ refusal made. made ≡ source.Grammar refusal };

    fn from(refusal: ParseRefusal) -> SourceRefusal {
        SourceRefusal::Grammar(refusal)
    }
}

impl From<StageRefusal> for SourceRefusal {
    ghost use Rattle.mt_source.specs.declared.refusal.SourceRefusal.TheVariants as source;

    ghost from_gives = { λ refusal made. made ≡ source.Rules refusal };

    fn from(refusal: StageRefusal) -> SourceRefusal {
        SourceRefusal::Rules(refusal)
    }
}
