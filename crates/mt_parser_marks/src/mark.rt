use mt_tree::Place;

/// A text of the source where it stands.
#[derive(Clone, Copy)]
pub struct Mark<'a> {
    /// Where its first character stands.
    pub place: Place,
    /// The bytes that spell it.
    pub text: &'a [u8],
}
