//! Units and attributes, whose slices are parts of the source.
use crate::List;

/// The bytes from `start` up to `end`, counted from 0.
#[derive(Clone, Copy)]
pub struct Span {
    pub start: u32,
    pub end: u32,
}

/// What a value is between: two `'` or two `"`.
#[derive(Clone, Copy)]
pub enum Quote {
    Single,
    Double,
}

/// An attribute of a tag. Its span runs from the first byte of the name to past the closing quote.
#[derive(Clone, Copy)]
pub struct Attr<'s> {
    pub name: &'s [u8],
    pub value: &'s [u8],
    pub quote: Quote,
    pub span: Span,
}

/// A unit of markup, with the bytes that it spans. A `text` is all of its bytes.
#[derive(Drop)]
pub enum Unit<'s> {
    /// The bytes EF BB BF at place 0.
    Bom {
        span: Span,
    },
    /// `<?xml`, one white space, a body, and the first `?>` after that.
    Declaration {
        span: Span,
        text: &'s [u8],
    },
    /// `<!DOCTYPE`, one white space, a body without `[`, `<` and `>`, and `>`.
    Doctype {
        span: Span,
        text: &'s [u8],
    },
    /// `<!--`, a body, and the first `-->` after that.
    Comment {
        span: Span,
        text: &'s [u8],
    },
    /// A longest run of bytes without `<`.
    Text {
        span: Span,
        text: &'s [u8],
    },
    /// `<`, a name, attributes, `>`.
    StartTag {
        span: Span,
        name: &'s [u8],
        attrs: List<Attr<'s>>,
    },
    /// `</`, a name, `>`.
    EndTag {
        span: Span,
        name: &'s [u8],
    },
    /// `<`, a name, attributes, `/>`.
    EmptyTag {
        span: Span,
        name: &'s [u8],
        attrs: List<Attr<'s>>,
    },
}
