//! The kinds of fault, each with its number and its name.
ghost use Rattle.faults.specs.Kinds as kinds;
ghost use Rattle.std.proofs.Common.{rules};
ghost use Rattle.std.specs.Prelude.{◌≡◌};

use named::Named;
use std::fmt;

/// A kind of fault of a document. Where one place has several, the one with the least number counts, which is the first
/// in this order. `docs/DEFINITIONS.md` says exactly when each is there.
#[derive(Clone, Copy, Debug, PartialEq, Eq)]
pub enum FaultKind {
    /// The bytes are not UTF-8.
    NotUtf8,
    /// A `&` in a text or in the value of an attribute begins no reference.
    BadReference,
    /// No unit of markup begins where one has to.
    BadMarkup,
    /// A start or empty tag has a name that is not known.
    UnknownTag,
    /// An end tag is not that of the innermost open tag.
    Unbalanced,
    /// The document ends before its root was closed.
    Unclosed,
    /// A unit stands where it may not stand.
    Misplaced,
    /// Too many tags are open.
    TooDeep,
    /// A tag has two attributes of one name.
    RepeatedAttribute,
    /// A required attribute is absent or empty, or both of a pair are.
    MissingAttribute,
    /// The value of an attribute is not one that it may have.
    BadValue,
    /// Both attributes of a pair are there.
    Conflict,
    /// The value of a TIMEX3 has the form of a date or time that does not exist.
    BadDate,
    /// A tag has the identifier of a tag before it.
    DuplicateId,
    /// A reference names no tag of the kind that it asks for.
    UnknownReference,
    /// The document has too many MAKEINSTANCE and TIMEX3 tags.
    TooManyIntervals,
    /// The document has too many TLINK tags.
    TooManyLinks,
}

impl FaultKind {
    /// The number of the kind, from 1 to 17 in the order of the variants.
    pub fn number(self) -> u8
        ensures { result ≡ kinds.number_of self }
    {
        self as u8 + 1
    }

    /// The name of the kind, as it is printed.
    pub fn name(self) -> &'static [u8]
        ensures { result.now ≡ kinds.kind_name self }
    {
        match self {
            FaultKind::NotUtf8 => b"NotUtf8",
            FaultKind::BadReference => b"BadReference",
            FaultKind::BadMarkup => b"BadMarkup",
            FaultKind::UnknownTag => b"UnknownTag",
            FaultKind::Unbalanced => b"Unbalanced",
            FaultKind::Unclosed => b"Unclosed",
            FaultKind::Misplaced => b"Misplaced",
            FaultKind::TooDeep => b"TooDeep",
            FaultKind::RepeatedAttribute => b"RepeatedAttribute",
            FaultKind::MissingAttribute => b"MissingAttribute",
            FaultKind::BadValue => b"BadValue",
            FaultKind::Conflict => b"Conflict",
            FaultKind::BadDate => b"BadDate",
            FaultKind::DuplicateId => b"DuplicateId",
            FaultKind::UnknownReference => b"UnknownReference",
            FaultKind::TooManyIntervals => b"TooManyIntervals",
            FaultKind::TooManyLinks => b"TooManyLinks",
        }
    }
}

impl Named for FaultKind {
    ghost text_of = { kinds.kind_name };

    ghost all_of = { kinds.all_kinds };

    ghost apart = { Prim.search rules };

    fn all() -> &'static [FaultKind] {
        &[
            FaultKind::NotUtf8,
            FaultKind::BadReference,
            FaultKind::BadMarkup,
            FaultKind::UnknownTag,
            FaultKind::Unbalanced,
            FaultKind::Unclosed,
            FaultKind::Misplaced,
            FaultKind::TooDeep,
            FaultKind::RepeatedAttribute,
            FaultKind::MissingAttribute,
            FaultKind::BadValue,
            FaultKind::Conflict,
            FaultKind::BadDate,
            FaultKind::DuplicateId,
            FaultKind::UnknownReference,
            FaultKind::TooManyIntervals,
            FaultKind::TooManyLinks,
        ]
    }

    fn text(self) -> &'static [u8] {
        self.name()
    }
}

/// Writes the kind of a fault and its place, or that memory ran out where there is none.
pub fn write_fault<W: fmt::Write>(
    f: &mut fmt::Formatter<W>,
    fault: Option<(FaultKind, u32)>,
) -> fmt::Result {
    match fault {
        Some((kind, place)) => write!(f, "{kind:?} at byte {place}"),
        None => f.write_str("out of memory"),
    }
}
