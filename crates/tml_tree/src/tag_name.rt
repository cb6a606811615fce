//! The tags that a document may have.
ghost use Rattle.std.proofs.Common.{rules};
ghost use Rattle.std.specs.Prelude.{◌≡◌};
ghost use Rattle.std.specs.List.{filter};
ghost use Rattle.named.specs.Texts.{named_of};
ghost use Rattle.tml_tree.specs.TagNames as names;

use named::{Named, named_in};

/// A known tag. The first eight are those of TimeML 1.2.1 that mean something here, and the others, which corpora
/// wrap their texts in, are carried.
#[derive(Clone, Copy, PartialEq, Eq)]
pub enum TagName {
    TimeMl,
    Event,
    Timex3,
    Signal,
    MakeInstance,
    Tlink,
    Alink,
    Slink,
    DocId,
    DocNo,
    Doc,
    Dct,
    Title,
    ExtraInfo,
    Text,
    Body,
    Headline,
    UpperP,
    LowerP,
    UpperS,
    LowerS,
    Enamex,
    Numex,
    Confidence,
    Timex3Interval,
}

impl TagName {
    /// The name as it is in a document.
    pub fn text(self) -> &'static [u8]
        ensures { result.now ≡ names.text_of self }
    {
        match self {
            TagName::TimeMl => b"TimeML",
            TagName::Event => b"EVENT",
            TagName::Timex3 => b"TIMEX3",
            TagName::Signal => b"SIGNAL",
            TagName::MakeInstance => b"MAKEINSTANCE",
            TagName::Tlink => b"TLINK",
            TagName::Alink => b"ALINK",
            TagName::Slink => b"SLINK",
            TagName::DocId => b"DOCID",
            TagName::DocNo => b"DOCNO",
            TagName::Doc => b"DOC",
            TagName::Dct => b"DCT",
            TagName::Title => b"TITLE",
            TagName::ExtraInfo => b"EXTRAINFO",
            TagName::Text => b"TEXT",
            TagName::Body => b"BODY",
            TagName::Headline => b"HEADLINE",
            TagName::UpperP => b"P",
            TagName::LowerP => b"p",
            TagName::UpperS => b"S",
            TagName::LowerS => b"s",
            TagName::Enamex => b"ENAMEX",
            TagName::Numex => b"NUMEX",
            TagName::Confidence => b"CONFIDENCE",
            TagName::Timex3Interval => b"TIMEX3INTERVAL",
        }
    }

    /// The tags whose names begin with this byte.
    fn beginning_with(first: u8) -> &'static [TagName]
        ensures { result.now ≡ filter (names.begins_with first) names.all_tags }
    {
        match first {
            b'T' => &[
                TagName::TimeMl,
                TagName::Timex3,
                TagName::Tlink,
                TagName::Title,
                TagName::Text,
                TagName::Timex3Interval,
            ],
            b'E' => &[TagName::Event, TagName::ExtraInfo, TagName::Enamex],
            b'S' => &[TagName::Signal, TagName::Slink, TagName::UpperS],
            b'M' => &[TagName::MakeInstance],
            b'A' => &[TagName::Alink],
            b'D' => &[TagName::DocId, TagName::DocNo, TagName::Doc, TagName::Dct],
            b'B' => &[TagName::Body],
            b'H' => &[TagName::Headline],
            b'P' => &[TagName::UpperP],
            b'p' => &[TagName::LowerP],
            b's' => &[TagName::LowerS],
            b'N' => &[TagName::Numex],
            b'C' => &[TagName::Confidence],
            _ => &[],
        }
    }

    /// The tag of this name, by the first byte of the name.
    fn by_first(name: &[u8]) -> Option<TagName>
        ensures { result ≡ named_of names.text_of names.all_tags name.now }
    {
        match name {
            [] => None,
            [first, ..] => named_in(TagName::beginning_with(*first), name),
        }
    }

    /// The tag of this name. Frequent ones are known by their whole names.
    fn by_name(name: &[u8]) -> Option<TagName>
        ensures { result ≡ named_of names.text_of names.all_tags name.now }
    {
        match name {
            b"P" => Some(TagName::UpperP),
            b"TLINK" => Some(TagName::Tlink),
            b"SLINK" => Some(TagName::Slink),
            b"TIMEX3" => Some(TagName::Timex3),
            b"SIGNAL" => Some(TagName::Signal),
            b"MAKEINSTANCE" => Some(TagName::MakeInstance),
            _ => TagName::by_first(name),
        }
    }

    /// The tag of this name, or none where it is the name of no tag. The most frequent ones are known at once.
    #[inline(always)]
    pub fn of(name: &[u8]) -> Option<TagName>
        ensures { result ≡ named_of names.text_of names.all_tags name.now }
    {
        match name {
            b"s" => Some(TagName::LowerS),
            b"EVENT" => Some(TagName::Event),
            _ => TagName::by_name(name),
        }
    }
}

impl Named for TagName {
    ghost text_of = { names.text_of };

    ghost all_of = { names.all_tags };

    ghost apart = { Prim.search rules };

    fn all() -> &'static [TagName] {
        &[
            TagName::TimeMl,
            TagName::Event,
            TagName::Timex3,
            TagName::Signal,
            TagName::MakeInstance,
            TagName::Tlink,
            TagName::Alink,
            TagName::Slink,
            TagName::DocId,
            TagName::DocNo,
            TagName::Doc,
            TagName::Dct,
            TagName::Title,
            TagName::ExtraInfo,
            TagName::Text,
            TagName::Body,
            TagName::Headline,
            TagName::UpperP,
            TagName::LowerP,
            TagName::UpperS,
            TagName::LowerS,
            TagName::Enamex,
            TagName::Numex,
            TagName::Confidence,
            TagName::Timex3Interval,
        ]
    }

    fn text(self) -> &'static [u8] {
        TagName::text(self)
    }
}
