use mt_tree::{Binary, VarKind};

/// A word that is a value.
#[derive(Clone, Copy, Debug, PartialEq, Eq)]
pub enum Constant {
    /// `true`
    True,
    /// `false`
    False,
    /// `null`
    Null,
    /// `undefined`
    Undefined,
}

/// An operator between two operands.
#[derive(Clone, Copy, Debug, PartialEq, Eq)]
pub enum Infix {
    /// `||`
    Or,
    /// `&&`
    And,
    /// One of those that evaluate both operands.
    Binary(Binary),
}

/// A word that leaves a loop or its turn.
#[derive(Clone, Copy, Debug, PartialEq, Eq)]
pub enum Jump {
    /// `break`
    Break,
    /// `continue`
    Continue,
}

/// A sign that steps a target by one.
#[derive(Clone, Copy, Debug, PartialEq, Eq)]
pub enum StepSign {
    /// `++`
    Increment,
    /// `--`
    Decrement,
}

/// What the grammar tells tokens apart by.
#[derive(Clone, Copy, Debug, PartialEq, Eq)]
pub enum Terminal {
    /// A name that isn't reserved.
    Name,
    /// A number.
    Number,
    /// A text in quotes.
    Text,
    /// `true`, `false`, `null` or `undefined`
    Constant(Constant),
    /// `catch`
    Catch,
    /// `else`
    Else,
    /// `for`
    For,
    /// `function`
    Function,
    /// `if`
    If,
    /// `break` or `continue`
    Jump(Jump),
    /// `return`
    Return,
    /// `service`
    Service,
    /// `throw`
    Throw,
    /// `try`
    Try,
    /// `typeof`
    Typeof,
    /// `var`, `let` or `const`
    Declare(VarKind),
    /// `while`
    While,
    /// A reserved word that only stands as a name behind a dot or as a key.
    OtherWord,
    /// `(`
    Open,
    /// `)`
    Close,
    /// `[`
    OpenSquare,
    /// `]`
    CloseSquare,
    /// `{`
    OpenBrace,
    /// `}`
    CloseBrace,
    /// `;`
    Semicolon,
    /// `,`
    Comma,
    /// `.`
    Dot,
    /// `?`
    Question,
    /// `:`
    Colon,
    /// `!`
    Exclamation,
    /// `++` or `--`
    Step(StepSign),
    /// An operator between two operands; two of them also stand before one.
    Infix(Infix),
    /// `=`, or the sign of an operator with `=` behind it
    Assign(Option<Binary>),
    /// `<` and the name of a tag
    TagOpen,
    /// The name of an attribute.
    AttributeName,
    /// The value of an attribute in quotes.
    Quoted,
    /// The `>` of a tag.
    TagEnd,
    /// `/>`
    TagSelfEnd,
    /// A text among the children of an element.
    ChildText,
    /// `</`, the name of a tag and `>`
    CloseTag,
    /// `~{`
    TildeOpen,
    /// `${`
    DollarOpen,
    /// No terminal of the grammar.
    Other,
}

/// What a function is.
#[derive(Clone, Copy, Debug, PartialEq, Eq)]
pub enum Heading {
    /// A service.
    Service,
    /// A function declaration.
    Declaration,
    /// A function expression with a name.
    NamedExpression,
    /// A function expression without a name.
    Expression,
}

/// Where variables are declared.
#[derive(Clone, Copy, Debug, PartialEq, Eq)]
pub enum Declaration {
    /// In a statement of its own.
    Statement(VarKind),
    /// First in the parentheses of a `for`.
    ForStart,
}
