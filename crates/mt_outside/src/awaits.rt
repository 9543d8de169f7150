ghost use Rattle.std.specs.Prelude.{List, ℕ};

/// What was told, when it was made, which connections come: a door in memory.
///
/// It has no calls of its own. Contracts name its member where they say what the next connection is.
pub trait Awaits {
    /// The bytes that come in on each connection, in the order in which they are accepted.
    ghost awaited: { Self → List (List ℕ) };
}
