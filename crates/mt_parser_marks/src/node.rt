use crate::Mark;
use mt_grammar::{Constant, Heading, Infix, Jump};
use mt_tree::{Binary, Place, StepKind, Unary, VarKind};

/// A node of the tree, with the place of its first token. A number in it counts the nodes that stand directly in it; these come before it, in the
/// order of the text.
#[derive(Clone, Copy)]
pub enum Node<'a> {
    /// A name that is looked up.
    Name(Mark<'a>),
    /// A number.
    Number(Mark<'a>),
    /// A text of code.
    Text(Mark<'a>),
    /// The name behind a dot, which stands for a text.
    Property(Mark<'a>),
    /// `true`, `false`, `null` or `undefined`.
    Constant(Place, Constant),
    /// An array, with the number of its items.
    Array(Place, usize),
    /// An object, with the number of its properties; a property is a key and a value.
    Object(Place, usize),
    /// A function expression, with the numbers of its parameters and of its statements; its name, if any, stands before the parameters.
    Function(Place, Heading, usize, usize),
    /// An operator before its operand.
    Unary(Place, Unary),
    /// A step of a target by one.
    Step(Place, StepKind),
    /// An operator between two operands.
    Operation(Place, Infix),
    /// `a ? b : c`
    Condition(Place),
    /// An assignment, with an operator for `+=` and its like.
    Assign(Place, Option<Binary>),
    /// `a[k]` or `a.k`
    Index(Place),
    /// A call, with the number of its arguments.
    Call(Place, usize),
    /// `~{ .. }`, with the number of its statements.
    Tilde(Place, usize),
    /// `${ a }` as an expression.
    Dollar(Place),
    /// An element, with the numbers of its attributes and of its children; the name of its tag stands before both.
    Element(Place, usize, usize),
    /// A name that is no expression: of a function, a parameter, a key, a caught value or a tag.
    Word(Mark<'a>),
    /// A key of an object that is a text.
    QuotedKey(Mark<'a>),
    /// An attribute so far without a value.
    AttributeName(Mark<'a>),
    /// The value in quotes of the attribute before.
    AttributeQuoted(Mark<'a>),
    /// The value of the attribute before is the tilde before.
    AttributeTilde,
    /// The value of the attribute is the expression before, in a dollar.
    AttributeDollar,
    /// A text among the children of an element.
    ChildText(Mark<'a>),
    /// A child that is the element or the tilde before.
    ChildDirect,
    /// A child that is the expression before, in a dollar.
    ChildDollar,
    /// A declared name so far without a value.
    DeclName(Mark<'a>),
    /// The value of the declared name is the expression before.
    DeclValue,
    /// Nothing, where an expression may stand.
    Absent,
    /// The expression before, where one may be absent.
    Present,
    /// The front of a `for` is the optional expression before.
    StartOptional,
    /// The front of a `for` is that number of declarations.
    StartVars(usize),
    /// A statement that is an expression.
    Expression(Place),
    /// `var`, `let` or `const`, with the number of the names.
    Var(Place, VarKind, usize),
    /// A function or a service, with the numbers of its parameters and of its statements.
    Declare(Place, Heading, usize, usize),
    /// `if` without `else`.
    If(Place),
    /// `if` with `else`.
    IfElse(Place),
    /// `while`
    While(Place),
    /// `for`
    For(Place),
    /// `return`
    Return(Place),
    /// `break` or `continue`
    Jump(Place, Jump),
    /// `throw`
    Throw(Place),
    /// `try` with its `catch`.
    Try(Place),
    /// A block, with the number of its statements.
    Block(Place, usize),
    /// `;`
    Empty(Place),
}
