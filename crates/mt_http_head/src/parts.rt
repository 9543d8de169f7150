use httparse::spans::HeaderSpan;

/// The parts of a head, with the bytes in which the spans of its fields lie.
#[derive(Clone, Copy)]
pub(crate) struct Parts<'a> {
    pub(crate) method: &'a [u8],
    pub(crate) target: &'a [u8],
    /// The minor version: 1 for HTTP/1.1.
    pub(crate) minor: u8,
    pub(crate) bytes: &'a [u8],
    pub(crate) spans: &'a [HeaderSpan],
}
