ghost use Rattle.std.specs.Prelude.{ℕ};
ghost use Rattle.mt_outside.specs.Calls.{Plan};

/// What is told, when it is made, at which of its calls it is to fail: a form in memory.
///
/// It has no calls of its own. Contracts name its member where they say exactly when a call fails.
pub trait FaultPlan {
    /// How many calls were made so far, up to 2^64 - 1, and the numbers, counted from 1, of those that are to fail.
    ghost plan: { Self → Plan };
}

/// What takes or gives at most so many bytes a call.
///
/// It has no calls of its own. Contracts name its member where they say how much a call takes or gives.
pub trait PieceLimit {
    /// The most bytes of one call, at least 1.
    ghost piece_limit: { Self → ℕ };
}
