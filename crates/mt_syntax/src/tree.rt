use mt_tree::{Binary, Boxed, Data, Place, Row, StepKind, Text, Unary, VarKind};

/// A name where it stands.
#[derive(Drop)]
pub struct Mark {
    /// Where its first character stands.
    pub place: Place,
    /// The name.
    pub name: Text,
}

/// One name of a declaration, and what it begins with.
#[cycle(syntax)]
#[derive(Drop)]
pub struct Decl {
    /// The name that is declared.
    pub name: Mark,
    /// The expression behind `=`.
    pub value: Option<Expr>,
}

/// A function or a service.
#[cycle(syntax)]
#[derive(Drop)]
pub struct Function {
    /// Its name; a function expression may have none.
    pub name: Option<Mark>,
    /// The names of its parameters, in order.
    pub parameters: Row<Mark>,
    /// The statements between its braces.
    pub body: Row<Stmt>,
}

/// A statement, a function declaration or a service declaration.
#[cycle(syntax)]
#[derive(Drop)]
pub struct Stmt {
    /// Where its first token stands.
    pub place: Place,
    /// What it is.
    pub kind: StmtKind,
}

/// What a statement is.
#[cycle(syntax)]
#[derive(Drop)]
pub enum StmtKind {
    /// `a;`
    Expr(Expr),
    /// `var a = b, c;` and so with `let` and `const`
    Var(VarKind, Row<Decl>),
    /// `function f(p) { .. }`
    Function(Function),
    /// `service f(p) { .. }`
    Service(Function),
    /// `if (a) { .. } else { .. }`; both bodies are blocks.
    If(Expr, Boxed<Stmt>, Option<Boxed<Stmt>>),
    /// `while (a) { .. }`; the body is a block.
    While(Expr, Boxed<Stmt>),
    /// `for (a; b; c) { .. }`; the body is a block.
    For(ForStart, Option<Expr>, Option<Expr>, Boxed<Stmt>),
    /// `return a;`
    Return(Option<Expr>),
    /// `break;`
    Break,
    /// `continue;`
    Continue,
    /// `throw a;`
    Throw(Expr),
    /// `try { .. } catch (x) { .. }`; both bodies are blocks.
    Try(Boxed<Stmt>, Mark, Boxed<Stmt>),
    /// `{ .. }`
    Block(Row<Stmt>),
    /// `;`
    Empty,
}

/// What stands first between the parentheses of a `for`. It is no statement of its own.
#[cycle(syntax)]
#[derive(Drop)]
pub enum ForStart {
    /// Nothing.
    Absent,
    /// `var a = b, c`
    Var(Row<Decl>),
    /// An expression.
    Expr(Expr),
}

/// An expression.
#[cycle(syntax)]
#[derive(Drop)]
pub struct Expr {
    /// Where its first token stands, parentheses round the whole left out.
    pub place: Place,
    /// What it is.
    pub kind: Boxed<ExprKind>,
}

/// What an expression is. Parentheses leave no node.
#[cycle(syntax)]
#[derive(Drop)]
pub enum ExprKind {
    /// A name that is looked up.
    Name(Text),
    /// A number.
    Num(i64),
    /// A text, with its escapes read.
    Text(Text),
    /// `true` or `false`
    Bool(bool),
    /// `null`
    Null,
    /// `undefined`
    Undefined,
    /// `[a, b]`
    Arr(Row<Expr>),
    /// `{k: a, l: b}`
    Obj(Row<Prop>),
    /// A function expression.
    Fun(Function),
    /// `!a`, `-a`, `+a` or `typeof a`
    Unary(Unary, Expr),
    /// `++a`, `--a`, `a++` or `a--`; the operand is a name or an `Index`.
    Step(StepKind, Expr),
    /// `a + b` and its like
    Binary(Binary, Expr, Expr),
    /// `a && b`
    And(Expr, Expr),
    /// `a || b`
    Or(Expr, Expr),
    /// `a ? b : c`
    Cond(Expr, Expr, Expr),
    /// `a = b`, or with an operator `a += b` and its like; the target is a name or an `Index`.
    Assign(Option<Binary>, Expr, Expr),
    /// `a[k]`; `a.k` is the tree of `a["k"]`.
    Index(Expr, Expr),
    /// `f(a, b)`
    Call(Expr, Row<Expr>),
    /// `~{ .. }`, by its number in the program's text order, from 0: its place among the program's tildes.
    Tilde(u32),
    /// `${ .. }` directly in a tilde, by its number in the tilde's text order, from 0: its place among the tilde's dollars.
    Dollar(u32),
    /// `${ a }` where none may stand.
    Stray(Expr),
    /// An element.
    Markup(Markup),
    /// A value that was put in the place of a dollar. No source has it.
    Val(Data),
}

/// A property of an object literal.
#[cycle(syntax)]
#[derive(Drop)]
pub struct Prop {
    /// The key, a text with its escapes read.
    pub name: Text,
    /// The property's value.
    pub value: Expr,
}

/// An element of the source.
#[cycle(syntax)]
#[derive(Drop)]
pub struct Markup {
    /// The tag's name.
    pub tag: Text,
    /// The attributes, in text order.
    pub attributes: Row<MarkupAttribute>,
    /// The children, in text order.
    pub children: Row<MarkupChild>,
}

/// An attribute of an element of the source.
#[cycle(syntax)]
#[derive(Drop)]
pub struct MarkupAttribute {
    /// The attribute's name.
    pub name: Mark,
    /// Its value.
    pub value: MarkupValue,
}

/// The value of an attribute.
#[cycle(syntax)]
#[derive(Drop)]
pub enum MarkupValue {
    /// A text in quotes, with its character references read; the empty text where there is no value.
    Quoted(Text),
    /// `~{ .. }`, a node that is a `Tilde`
    Tilde(Expr),
    /// `${ a }`; the dollar is no node of its own.
    Dollar(Expr),
}

/// A child of an element of the source.
#[cycle(syntax)]
#[derive(Drop)]
pub enum MarkupChild {
    /// A text, with its character references read.
    Text(Text),
    /// An element or `~{ .. }`, a node that is a `Markup` or a `Tilde`
    Direct(Expr),
    /// `${ a }`; the dollar is no node of its own.
    Dollar(Expr),
}
