//! The values of attributes of which a list says what they may be.
ghost use Rattle.tml_types.specs.Listed as listed;
ghost use Rattle.std.proofs.Common.{rules};
ghost use Rattle.std.specs.Prelude.{◌≡◌};

use named::Named;

/// What kind of happening an event is: the values of `class` of EVENT in TimeML 1.2.1.
#[derive(Clone, Copy)]
pub enum EventClass {
    Occurrence,
    Perception,
    Reporting,
    Aspectual,
    State,
    IState,
    IAction,
}

impl EventClass {
    /// The text of the value.
    pub fn text(self) -> &'static [u8]
        ensures { result.now ≡ listed.class_text self }
    {
        match self {
            EventClass::Occurrence => b"OCCURRENCE",
            EventClass::Perception => b"PERCEPTION",
            EventClass::Reporting => b"REPORTING",
            EventClass::Aspectual => b"ASPECTUAL",
            EventClass::State => b"STATE",
            EventClass::IState => b"I_STATE",
            EventClass::IAction => b"I_ACTION",
        }
    }
}

impl Named for EventClass {
    ghost text_of = { listed.class_text };

    ghost all_of = { listed.all_classes };

    ghost apart = { Prim.search rules };

    fn all() -> &'static [EventClass] {
        &[
            EventClass::Occurrence,
            EventClass::Perception,
            EventClass::Reporting,
            EventClass::Aspectual,
            EventClass::State,
            EventClass::IState,
            EventClass::IAction,
        ]
    }

    fn text(self) -> &'static [u8] {
        EventClass::text(self)
    }
}

/// The tense of an instance: the values of `tense` of MAKEINSTANCE in TimeML 1.2.1. The text NONE is `NoTense`.
#[derive(Clone, Copy)]
pub enum Tense {
    Past,
    Present,
    Future,
    Infinitive,
    PresPart,
    PastPart,
    NoTense,
}

impl Tense {
    /// The text of the value.
    pub fn text(self) -> &'static [u8]
        ensures { result.now ≡ listed.tense_text self }
    {
        match self {
            Tense::Past => b"PAST",
            Tense::Present => b"PRESENT",
            Tense::Future => b"FUTURE",
            Tense::Infinitive => b"INFINITIVE",
            Tense::PresPart => b"PRESPART",
            Tense::PastPart => b"PASTPART",
            Tense::NoTense => b"NONE",
        }
    }
}

impl Named for Tense {
    ghost text_of = { listed.tense_text };

    ghost all_of = { listed.all_tenses };

    ghost apart = { Prim.search rules };

    fn all() -> &'static [Tense] {
        &[
            Tense::Past,
            Tense::Present,
            Tense::Future,
            Tense::Infinitive,
            Tense::PresPart,
            Tense::PastPart,
            Tense::NoTense,
        ]
    }

    fn text(self) -> &'static [u8] {
        Tense::text(self)
    }
}

/// The grammatical aspect of an instance: the values of `aspect` of MAKEINSTANCE in TimeML 1.2.1. The text NONE
/// is `NoAspect`.
#[derive(Clone, Copy)]
pub enum Aspect {
    Progressive,
    Perfective,
    PerfectiveProgressive,
    NoAspect,
}

impl Aspect {
    /// The text of the value.
    pub fn text(self) -> &'static [u8]
        ensures { result.now ≡ listed.aspect_text self }
    {
        match self {
            Aspect::Progressive => b"PROGRESSIVE",
            Aspect::Perfective => b"PERFECTIVE",
            Aspect::PerfectiveProgressive => b"PERFECTIVE_PROGRESSIVE",
            Aspect::NoAspect => b"NONE",
        }
    }
}

impl Named for Aspect {
    ghost text_of = { listed.aspect_text };

    ghost all_of = { listed.all_aspects };

    ghost apart = { Prim.search rules };

    fn all() -> &'static [Aspect] {
        &[
            Aspect::Progressive,
            Aspect::Perfective,
            Aspect::PerfectiveProgressive,
            Aspect::NoAspect,
        ]
    }

    fn text(self) -> &'static [u8] {
        Aspect::text(self)
    }
}

/// The part of speech of an instance: the values of `pos` of MAKEINSTANCE in TimeML 1.2.1, and PREP and UNKNOWN,
/// which corpora use.
#[derive(Clone, Copy)]
pub enum Pos {
    Adjective,
    Noun,
    Verb,
    Preposition,
    Other,
    Prep,
    Unknown,
}

impl Pos {
    /// The text of the value.
    pub fn text(self) -> &'static [u8]
        ensures { result.now ≡ listed.pos_text self }
    {
        match self {
            Pos::Adjective => b"ADJECTIVE",
            Pos::Noun => b"NOUN",
            Pos::Verb => b"VERB",
            Pos::Preposition => b"PREPOSITION",
            Pos::Other => b"OTHER",
            Pos::Prep => b"PREP",
            Pos::Unknown => b"UNKNOWN",
        }
    }
}

impl Named for Pos {
    ghost text_of = { listed.pos_text };

    ghost all_of = { listed.all_pos };

    ghost apart = { Prim.search rules };

    fn all() -> &'static [Pos] {
        &[
            Pos::Adjective,
            Pos::Noun,
            Pos::Verb,
            Pos::Preposition,
            Pos::Other,
            Pos::Prep,
            Pos::Unknown,
        ]
    }

    fn text(self) -> &'static [u8] {
        Pos::text(self)
    }
}

/// Whether an instance is negated: the values of `polarity` of MAKEINSTANCE in TimeML 1.2.1.
#[derive(Clone, Copy)]
pub enum Polarity {
    Positive,
    Negative,
}

impl Polarity {
    /// The text of the value.
    pub fn text(self) -> &'static [u8]
        ensures { result.now ≡ listed.polarity_text self }
    {
        match self {
            Polarity::Positive => b"POS",
            Polarity::Negative => b"NEG",
        }
    }
}

impl Named for Polarity {
    ghost text_of = { listed.polarity_text };

    ghost all_of = { listed.all_polarities };

    ghost apart = { Prim.search rules };

    fn all() -> &'static [Polarity] {
        &[Polarity::Positive, Polarity::Negative]
    }

    fn text(self) -> &'static [u8] {
        Polarity::text(self)
    }
}

/// What a time is to its document: the values of `functionInDocument` of TIMEX3 in TimeML 1.2.1. The text NONE is
/// `NoFunction`.
#[derive(Clone, Copy)]
pub enum DocFunction {
    CreationTime,
    ExpirationTime,
    ModificationTime,
    PublicationTime,
    ReleaseTime,
    ReceptionTime,
    NoFunction,
}

impl DocFunction {
    /// The text of the value.
    pub fn text(self) -> &'static [u8]
        ensures { result.now ≡ listed.function_text self }
    {
        match self {
            DocFunction::CreationTime => b"CREATION_TIME",
            DocFunction::ExpirationTime => b"EXPIRATION_TIME",
            DocFunction::ModificationTime => b"MODIFICATION_TIME",
            DocFunction::PublicationTime => b"PUBLICATION_TIME",
            DocFunction::ReleaseTime => b"RELEASE_TIME",
            DocFunction::ReceptionTime => b"RECEPTION_TIME",
            DocFunction::NoFunction => b"NONE",
        }
    }
}

impl Named for DocFunction {
    ghost text_of = { listed.function_text };

    ghost all_of = { listed.all_functions };

    ghost apart = { Prim.search rules };

    fn all() -> &'static [DocFunction] {
        &[
            DocFunction::CreationTime,
            DocFunction::ExpirationTime,
            DocFunction::ModificationTime,
            DocFunction::PublicationTime,
            DocFunction::ReleaseTime,
            DocFunction::ReceptionTime,
            DocFunction::NoFunction,
        ]
    }

    fn text(self) -> &'static [u8] {
        DocFunction::text(self)
    }
}

/// What an aspectual event does to another event: the values of `relType` of ALINK in TimeML 1.2.1.
#[derive(Clone, Copy)]
pub enum AspectRel {
    Initiates,
    Culminates,
    Terminates,
    Continues,
    Reinitiates,
}

impl AspectRel {
    /// The text of the value.
    pub fn text(self) -> &'static [u8]
        ensures { result.now ≡ listed.aspect_rel_text self }
    {
        match self {
            AspectRel::Initiates => b"INITIATES",
            AspectRel::Culminates => b"CULMINATES",
            AspectRel::Terminates => b"TERMINATES",
            AspectRel::Continues => b"CONTINUES",
            AspectRel::Reinitiates => b"REINITIATES",
        }
    }
}

impl Named for AspectRel {
    ghost text_of = { listed.aspect_rel_text };

    ghost all_of = { listed.all_aspect_rels };

    ghost apart = { Prim.search rules };

    fn all() -> &'static [AspectRel] {
        &[
            AspectRel::Initiates,
            AspectRel::Culminates,
            AspectRel::Terminates,
            AspectRel::Continues,
            AspectRel::Reinitiates,
        ]
    }

    fn text(self) -> &'static [u8] {
        AspectRel::text(self)
    }
}

/// How an event is subordinated to another: the values of `relType` of SLINK in TimeML 1.2.1, and INTENSIONAL,
/// which corpora use.
#[derive(Clone, Copy)]
pub enum SubRel {
    Modal,
    Evidential,
    NegEvidential,
    Factive,
    CounterFactive,
    Conditional,
    Intensional,
}

impl SubRel {
    /// The text of the value.
    pub fn text(self) -> &'static [u8]
        ensures { result.now ≡ listed.sub_rel_text self }
    {
        match self {
            SubRel::Modal => b"MODAL",
            SubRel::Evidential => b"EVIDENTIAL",
            SubRel::NegEvidential => b"NEG_EVIDENTIAL",
            SubRel::Factive => b"FACTIVE",
            SubRel::CounterFactive => b"COUNTER_FACTIVE",
            SubRel::Conditional => b"CONDITIONAL",
            SubRel::Intensional => b"INTENSIONAL",
        }
    }
}

impl Named for SubRel {
    ghost text_of = { listed.sub_rel_text };

    ghost all_of = { listed.all_sub_rels };

    ghost apart = { Prim.search rules };

    fn all() -> &'static [SubRel] {
        &[
            SubRel::Modal,
            SubRel::Evidential,
            SubRel::NegEvidential,
            SubRel::Factive,
            SubRel::CounterFactive,
            SubRel::Conditional,
            SubRel::Intensional,
        ]
    }

    fn text(self) -> &'static [u8] {
        SubRel::text(self)
    }
}
