//! Where a text stands in a list of code points.

/// The offsets of a text's first code point and of the place after its last one.
#[derive(Clone, Copy)]
pub struct Span {
    pub start: usize,
    pub end: usize,
}
