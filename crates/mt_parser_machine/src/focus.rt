use mt_tree::Place;

/// What the machine reads next.
#[derive(Clone, Copy)]
pub enum Focus {
    // A statement or item, or the end of what holds it.
    Statement,
    // The body of an `if`, `while` or `for`.
    Body,
    // An expression.
    Operand,
    // An expression, or the token that ends the topmost level without one.
    First,
    // A token that the topmost level names.
    Word,
    // What follows an expression that began there; the flag says whether it can be assigned to.
    Value(Place, bool),
    // What follows a statement.
    Finished,
}
