ghost use Rattle.mt_outside.specs.Arriving.{Changes};

/// What replaces, alters and cuts messages on their way.
///
/// It has no calls of its own. Contracts name its member where they say what arrives.
pub trait Alters {
    /// The replacements, alterations and cuts, each in order.
    ghost changes: { Self → Changes };
}
