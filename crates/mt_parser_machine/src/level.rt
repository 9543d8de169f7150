use mt_grammar::{Declaration, Heading, Infix, Jump};
use mt_parser_marks::Mark;
use mt_tree::{Binary, Place, StepKind, Unary};

/// What is open on the stack of the machine, with the place where it began and how much of it is finished.
#[derive(Clone, Copy)]
pub enum Level<'a> {
    // Statements and items.
    Program(usize),
    Block(Place, usize),
    // With the number of its parameters.
    FunctionBody(Heading, Place, usize, usize),
    Tilde(Place, usize),
    // The one statement of a body that is no block.
    Single(Place),
    // Parts of statements.
    IfOpen(Place),
    IfTest(Place),
    IfThen(Place),
    IfElse(Place),
    WhileOpen(Place),
    WhileTest(Place),
    WhileBody(Place),
    ForOpen(Place),
    ForStart(Place),
    ForTest(Place),
    ForStep(Place),
    ForBody(Place),
    // In front of a name, behind one, and behind its `=`.
    DeclName(Declaration, Place, usize),
    DeclNext(Declaration, Place, usize),
    DeclValue(Declaration, Place, usize),
    Return(Place),
    Jump(Place, Jump),
    Throw(Place),
    Expression(Place),
    TryOpen(Place),
    TryBlock(Place),
    CatchOpen(Place),
    CatchName(Place),
    CatchClose(Place),
    CatchBrace(Place),
    CatchBlock(Place),
    // Parts of functions.
    FunctionStart(Place),
    FunctionName(Heading, Place),
    FunctionOpen(Heading, Place),
    FunctionFirst(Heading, Place),
    FunctionNext(Heading, Place, usize),
    ParameterName(Heading, Place, usize),
    FunctionBrace(Heading, Place, usize),
    // Parts of expressions.
    Paren(Place),
    Operation(Infix, Place),
    Unary(Unary, Place),
    StepBefore(StepKind, Place),
    StepAfter(StepKind, Place),
    Assign(Option<Binary>, Place),
    CondTest(Place),
    CondElse(Place),
    Dot(Place),
    Index(Place),
    Arguments(Place, usize),
    Array(Place, usize),
    ObjectKey(Place, usize),
    ObjectColon(Place, usize),
    ObjectValue(Place, usize),
    Dollar(Place),
    // Parts of elements, with the tag's name: the flag says whether a `=` may follow.
    Attributes(Mark<'a>, usize, bool),
    AttributeValue(Mark<'a>, usize),
    // With the number of its attributes.
    Children(Mark<'a>, usize, usize),
}
