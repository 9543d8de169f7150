use crate::tier::Tier;
use mt_grammar::{Constant, Heading, Infix, Jump};
use mt_syntax::Mark;
use mt_tree::{Binary, Place, StepKind, Text, Unary, VarKind};

// What a node is, apart from the nodes in it, with its text read. A number in it counts nodes in it.
#[derive(Drop)]
pub(crate) enum Part {
    Expr(Place, ExprPart),
    Tilde(Place, usize),
    Dollar(Place),
    Stmt(Place, StmtPart),
    Piece(Piece),
}

// An expression that is neither a tilde nor a dollar.
#[derive(Drop)]
pub(crate) enum ExprPart {
    Name(Text),
    Number(i64),
    Text(Text),
    Constant(Constant),
    Array(usize),
    Object(usize),
    Function(Heading, usize, usize),
    Unary(Unary),
    Step(StepKind),
    Operation(Infix),
    Condition,
    Assign(Option<Binary>),
    Index,
    Call(usize),
    Element(usize, usize),
}

// A statement or a declaration.
#[derive(Drop)]
pub(crate) enum StmtPart {
    Expression,
    Var(VarKind, usize),
    Declare(Heading, usize, usize),
    If,
    IfElse,
    While,
    For,
    Return,
    Jump(Jump),
    Throw,
    Try,
    Block(usize),
    Empty,
}

// What is neither an expression nor a statement.
#[derive(Drop)]
pub(crate) enum Piece {
    Word(Mark),
    QuotedKey(Text),
    AttributeName(Mark),
    AttributeQuoted(Text),
    AttributeTilde,
    AttributeDollar,
    ChildText(Text),
    ChildDirect,
    ChildDollar,
    DeclName(Mark),
    DeclValue,
    Absent,
    Present,
    StartOptional,
    StartVars(usize),
}

impl Part {
    ghost use Rattle.std.specs.Prelude.{◌≡◌};
    ghost use Rattle.mt_parser_builder.specs.Making.{tier_within};

    // The tier of what stands in the node.
    pub(crate) fn tier_within(&self, tier: Tier) -> Tier
        ensures { result ≡ tier_within self.now tier }
    {
        match self {
            Part::Tilde(_, _) => Tier::Client,
            Part::Dollar(_) => Tier::Server,
            Part::Piece(piece) => piece.tier_within(tier),
            _ => tier,
        }
    }
}

impl Piece {
    ghost use Rattle.std.specs.Prelude.{◌≡◌};
    ghost use Rattle.mt_parser_builder.specs.Making.{tier_within_piece};

    fn tier_within(&self, tier: Tier) -> Tier
        ensures { result ≡ tier_within_piece self.now tier }
    {
        match self {
            Piece::AttributeDollar | Piece::ChildDollar => Tier::Server,
            _ => tier,
        }
    }
}
