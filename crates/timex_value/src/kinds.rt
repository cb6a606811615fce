//! The kinds of times and their modifiers.
ghost use Rattle.timex_value.specs.Kinds as names;
ghost use Rattle.std.proofs.Common.{rules};
ghost use Rattle.std.specs.Prelude.{◌≡◌};

use named::Named;

/// What a time is: the values of `type` of TIMEX3 in TimeML 1.2.1.
#[derive(Clone, Copy)]
pub enum TimexKind {
    /// A calendar time, of a day or more.
    Date,
    /// A time of a day.
    Time,
    /// A length of time.
    Duration,
    /// A time that recurs.
    Set,
}

impl TimexKind {
    /// The text of the value.
    pub fn text(self) -> &'static [u8]
        ensures { result.now ≡ names.kind_text self }
    {
        match self {
            TimexKind::Date => b"DATE",
            TimexKind::Time => b"TIME",
            TimexKind::Duration => b"DURATION",
            TimexKind::Set => b"SET",
        }
    }
}

impl Named for TimexKind {
    ghost text_of = { names.kind_text };

    ghost all_of = { names.all_kinds };

    ghost apart = { Prim.search rules };

    fn all() -> &'static [TimexKind] {
        &[
            TimexKind::Date,
            TimexKind::Time,
            TimexKind::Duration,
            TimexKind::Set,
        ]
    }

    fn text(self) -> &'static [u8] {
        TimexKind::text(self)
    }
}

/// How the value of a time is to be read: the values of `mod` of TIMEX3 in TimeML 1.2.1. There the first four belong to
/// points of time, the next four to durations, and the last four to both.
#[derive(Clone, Copy)]
pub enum Modifier {
    Before,
    After,
    OnOrBefore,
    OnOrAfter,
    LessThan,
    MoreThan,
    EqualOrLess,
    EqualOrMore,
    Start,
    Mid,
    End,
    Approx,
}

impl Modifier {
    /// The text of the value.
    pub fn text(self) -> &'static [u8]
        ensures { result.now ≡ names.modifier_text self }
    {
        match self {
            Modifier::Before => b"BEFORE",
            Modifier::After => b"AFTER",
            Modifier::OnOrBefore => b"ON_OR_BEFORE",
            Modifier::OnOrAfter => b"ON_OR_AFTER",
            Modifier::LessThan => b"LESS_THAN",
            Modifier::MoreThan => b"MORE_THAN",
            Modifier::EqualOrLess => b"EQUAL_OR_LESS",
            Modifier::EqualOrMore => b"EQUAL_OR_MORE",
            Modifier::Start => b"START",
            Modifier::Mid => b"MID",
            Modifier::End => b"END",
            Modifier::Approx => b"APPROX",
        }
    }
}

impl Named for Modifier {
    ghost text_of = { names.modifier_text };

    ghost all_of = { names.all_modifiers };

    ghost apart = { Prim.search rules };

    fn all() -> &'static [Modifier] {
        &[
            Modifier::Before,
            Modifier::After,
            Modifier::OnOrBefore,
            Modifier::OnOrAfter,
            Modifier::LessThan,
            Modifier::MoreThan,
            Modifier::EqualOrLess,
            Modifier::EqualOrMore,
            Modifier::Start,
            Modifier::Mid,
            Modifier::End,
            Modifier::Approx,
        ]
    }

    fn text(self) -> &'static [u8] {
        Modifier::text(self)
    }
}
