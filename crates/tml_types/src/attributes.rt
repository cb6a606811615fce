//! The attributes of one tag, read one by one.
ghost use Rattle.std.specs.List.{list_all, list_any};
ghost use Rattle.std.specs.Prelude.{◌≡◌, [], ◌∷◌, false, true, Some, None, map, IfOk, IfErr, IfSome, IsNone};
ghost use Rattle.tml_span.specs.View.{attribute_of};
ghost use Rattle.tml_types.specs.Reading.{AreMissing, IsBadValue, IsGood, IsListed, IsMissing, IsUnlisted};
ghost use Rattle.tml_types.specs.Reading.{IsOneOf, IsPairOf, is_bad_pair, is_conflict_pair, value_at};
ghost use Rattle.tml_types.specs.Rules.{IsNoDate, is_absent, is_unfit};
ghost use Rattle.tml_types.specs.Typing.{IsValueOf};
ghost use Rattle.tml_types.specs.Values as values;
ghost use Rattle.tml_types.specs.View.{reference_at_end, text_of};
ghost use Rattle.tml_types.specs.declared.walk.TypeFault.TheVariants as faults;

use crate::TypeFault;
use crate::typed::LinkEnd;
use named::{Named, named_by};
use timex_value::{BadDate, Value, read_value};
use tml_span::Attr;

/// The most bytes of an identifier.
const MAX_IDENTIFIER: usize = 64;

/// The attributes of a tag, and where it begins.
#[derive(Clone, Copy)]
pub struct Attributes<'a, 's> {
    pub place: u32,
    pub attrs: &'a [Attr<'s>],
}

/// Which attributes of a pair are there, with their values.
#[derive(Clone, Copy)]
pub enum Pair<'s> {
    Instance(&'s [u8]),
    Time(&'s [u8]),
    Both(&'s [u8], &'s [u8]),
}

impl<'s> Pair<'s> {
    /// The end of a link, where one attribute of its pair is there.
    pub fn one(self) -> Option<LinkEnd<'s>>
        ensures one { IfSome result (λ end. IsOneOf self.entry (reference_at_end end)) }
        ensures both { IsNone result → is_conflict_pair self.entry ≡ true }
    {
        match self {
            Pair::Instance(name) => Some(LinkEnd::Instance(name)),
            Pair::Time(name) => Some(LinkEnd::Time(name)),
            Pair::Both(_, _) => None,
        }
    }
}

impl<'s> Attributes<'_, 's> {
    /// The value of an attribute, or none where it is absent or empty.
    pub fn value(&self, name: &[u8]) -> Option<&'s [u8]>
        ensures { text_of result ≡ value_at name.now self.now }
    {
        value_in(self.attrs, name)
    }

    /// The value of an attribute that has to be there.
    pub fn required(&self, name: &[u8]) -> Result<&'s [u8], TypeFault>
        ensures value { IfOk result (λ text. value_at name.now self.now ≡ Some text.now) }
        ensures missing { IfErr result (IsMissing self.now (value_at name.now self.now)) }
    {
        match self.value(name) {
            Some(text) => Ok(text),
            None => Err(TypeFault::MissingAttribute { place: self.place }),
        }
    }

    /// The values of two attributes that have to be there. It stands in its callers, which would else copy what it gives.
    #[inline(always)]
    pub fn both_required(
        &self,
        name: &[u8],
        other: &[u8],
    ) -> Result<(&'s [u8], &'s [u8]), TypeFault>
        ensures values { IfOk result (λ both. (value_at name.now self.now ≡ Some both.0.now) × (value_at other.now self.now ≡ Some both.1.now)) }
        ensures missing { IfErr result (λ e. (e ≡ faults.MissingAttribute self.now.place) × (list_any is_absent (value_at name.now self.now ∷ value_at other.now self.now ∷ []) ≡ true)) }
    {
        Ok((self.required(name)?, self.required(other)?))
    }

    /// The values of two attributes, of which one has to be there.
    pub fn either(&self, instance: &[u8], time: &[u8]) -> Result<Pair<'s>, TypeFault>
        ensures pair { IfOk result (λ p. IsPairOf self.now instance.now time.now p) }
        ensures missing { IfErr result (AreMissing self.now instance.now time.now) }
    {
        match (self.value(instance), self.value(time)) {
            (Some(name), Some(other)) => Ok(Pair::Both(name, other)),
            (Some(name), None) => Ok(Pair::Instance(name)),
            (None, Some(name)) => Ok(Pair::Time(name)),
            (None, None) => Err(TypeFault::MissingAttribute { place: self.place }),
        }
    }

    /// An identifier, or what looks like one.
    pub fn identifier(&self, text: &'s [u8]) -> Result<&'s [u8], TypeFault>
        ensures good { IfOk result (λ t. IsGood values.is_identifier (Some text.now) (Some t.now)) }
        ensures bad { IfErr result (IsBadValue values.is_identifier (Some text.now) self.now.place) }
    {
        if is_identifier(text) {
            Ok(text)
        } else {
            Err(TypeFault::BadValue { place: self.place })
        }
    }

    /// The identifier that is the value of an attribute, where it is there.
    pub fn optional_identifier(&self, name: &[u8]) -> Result<Option<&'s [u8]>, TypeFault>
        ensures good { IfOk result (λ t. IsGood values.is_identifier (value_at name.now self.now) (text_of t)) }
        ensures bad { IfErr result (IsBadValue values.is_identifier (value_at name.now self.now) self.now.place) }
    {
        match self.value(name) {
            Some(text) if !is_identifier(text) => Err(TypeFault::BadValue { place: self.place }),
            text => Ok(text),
        }
    }

    /// The identifiers that are the values of two attributes, where they are there. It stands in its callers.
    #[inline(always)]
    pub fn optional_identifiers(
        &self,
        name: &[u8],
        other: &[u8],
    ) -> Result<(Option<&'s [u8]>, Option<&'s [u8]>), TypeFault>
        ensures good { IfOk result (λ both. IsGood values.is_identifier (value_at name.now self.now) (text_of both.0) × IsGood values.is_identifier (value_at other.now self.now) (text_of both.1)) }
        ensures bad { IfErr result (λ e. (e ≡ faults.BadValue self.now.place) × (list_any (is_unfit values.is_identifier) (value_at name.now self.now ∷ value_at other.now self.now ∷ []) ≡ true)) }
    {
        Ok((
            self.optional_identifier(name)?,
            self.optional_identifier(other)?,
        ))
    }

    /// A pair whose values are identifiers.
    pub fn identifiers(&self, pair: Pair<'s>) -> Result<(), TypeFault>
        ensures good { IfOk result (λ u. is_bad_pair pair.entry ≡ false) }
        ensures bad { IfErr result (λ e. (e ≡ faults.BadValue self.now.place) × (is_bad_pair pair.entry ≡ true)) }
    {
        let good = match pair {
            Pair::Instance(name) | Pair::Time(name) => is_identifier(name),
            Pair::Both(name, other) => is_identifier(name) && is_identifier(other),
        };
        if good {
            Ok(())
        } else {
            Err(TypeFault::BadValue { place: self.place })
        }
    }

    /// The ends of a link, where one attribute of each pair is there. It stands in its callers.
    #[inline(always)]
    pub fn ends(
        &self,
        left: Pair<'s>,
        right: Pair<'s>,
    ) -> Result<(LinkEnd<'s>, LinkEnd<'s>), TypeFault>
        ensures ends { IfOk result (λ both. IsOneOf left.entry (reference_at_end both.0) × IsOneOf right.entry (reference_at_end both.1)) }
        ensures conflict { IfErr result (λ e. (e ≡ faults.Conflict self.now.place) × (list_any is_conflict_pair (left.entry ∷ right.entry ∷ []) ≡ true)) }
    {
        match (left.one(), right.one()) {
            (Some(left), Some(right)) => Ok((left, right)),
            _ => Err(TypeFault::Conflict { place: self.place }),
        }
    }

    /// What a text of a list names.
    pub fn listed<T: Named>(&self, text: &[u8]) -> Result<T, TypeFault>
        ensures good { IfOk result (λ v. IsListed T.text_of T.all_of (Some text.now) (Some v)) }
        ensures bad { IfErr result (IsUnlisted T.text_of T.all_of (Some text.now) self.now.place) }
    {
        match named_by(text) {
            Some(value) => Ok(value),
            None => Err(TypeFault::BadValue { place: self.place }),
        }
    }

    /// What the value of an attribute names, where it is there.
    pub fn optional_listed<T: Named>(&self, name: &[u8]) -> Result<Option<T>, TypeFault>
        ensures good { IfOk result (λ v. IsListed T.text_of T.all_of (value_at name.now self.now) v) }
        ensures bad { IfErr result (IsUnlisted T.text_of T.all_of (value_at name.now self.now) self.now.place) }
    {
        let Some(text) = self.value(name) else {
            return Ok(None);
        };
        Ok(Some(self.listed(text)?))
    }

    /// The truth that is the value of an attribute, where it is there.
    pub fn optional_truth(&self, name: &[u8]) -> Result<Option<bool>, TypeFault>
        ensures good { IfOk result (λ v. IsListed values.truth_text values.all_truths (value_at name.now self.now) v) }
        ensures bad { IfErr result (IsBadValue values.is_truth (value_at name.now self.now) self.now.place) }
    {
        match self.value(name) {
            None => Ok(None),
            Some(b"true") => Ok(Some(true)),
            Some(b"false") => Ok(Some(false)),
            Some(_) => Err(TypeFault::BadValue { place: self.place }),
        }
    }

    /// What the value of a time stands for, where it is there.
    pub fn optional_value(&self, name: &[u8]) -> Result<Option<Value>, TypeFault>
        ensures value { IfOk result (λ v. IsValueOf (value_at name.now self.now) v) }
        ensures bad { IfErr result (λ e. (e ≡ faults.BadDate self.now.place) × IsNoDate (value_at name.now self.now)) }
    {
        let Some(text) = self.value(name) else {
            return Ok(None);
        };
        match read_value(text) {
            Ok(value) => Ok(Some(value)),
            Err(BadDate) => Err(TypeFault::BadDate { place: self.place }),
        }
    }
}

fn value_in<'s>(attrs: &[Attr<'s>], name: &[u8]) -> Option<&'s [u8]>
    ensures { text_of result ≡ values.value_of name.now (map attribute_of attrs.now) }
{
    for attr in attrs {
        if attr.name == name {
            return filled(attr.value);
        }
    }
    None
}

fn filled(value: &[u8]) -> Option<&[u8]>
    ensures { text_of result ≡ values.filled value.now }
{
    match value {
        [] => None,
        [_, ..] => Some(value),
    }
}

fn is_identifier(text: &[u8]) -> bool
    ensures { result ≡ values.is_identifier text.now }
{
    is_id_len(text.len()) && are_id_bytes(text)
}

fn are_id_bytes(text: &[u8]) -> bool
    ensures { result ≡ list_all values.is_id_byte text.now }
{
    text.iter().all(|b| is_id_byte(*b))
}

fn is_id_len(len: usize) -> bool
    ensures { result ≡ values.is_id_len len }
{
    1 <= len && len <= MAX_IDENTIFIER
}

/// Which bytes an identifier may have. Letters and digits mix in identifiers, so comparisons one after another are
/// guessed wrongly by processors.
const ID_BYTES: [bool; 256] = [
    false, false, false, false, false, false, false, false, false, false, false, false, false,
    false, false, false, false, false, false, false, false, false, false, false, false, false,
    false, false, false, false, false, false, false, false, false, false, false, false, false,
    false, false, false, false, false, false, true, true, false, true, true, true, true, true,
    true, true, true, true, true, false, false, false, false, false, false, false, true, true,
    true, true, true, true, true, true, true, true, true, true, true, true, true, true, true, true,
    true, true, true, true, true, true, true, true, false, false, false, false, true, false, true,
    true, true, true, true, true, true, true, true, true, true, true, true, true, true, true, true,
    true, true, true, true, true, true, true, true, true, false, false, false, false, false, false,
    false, false, false, false, false, false, false, false, false, false, false, false, false,
    false, false, false, false, false, false, false, false, false, false, false, false, false,
    false, false, false, false, false, false, false, false, false, false, false, false, false,
    false, false, false, false, false, false, false, false, false, false, false, false, false,
    false, false, false, false, false, false, false, false, false, false, false, false, false,
    false, false, false, false, false, false, false, false, false, false, false, false, false,
    false, false, false, false, false, false, false, false, false, false, false, false, false,
    false, false, false, false, false, false, false, false, false, false, false, false, false,
    false, false, false, false, false, false, false, false, false, false, false, false, false,
    false, false, false, false, false, false, false, false, false, false,
];

fn is_id_byte(b: u8) -> bool
    ensures { result ≡ values.is_id_byte b }
{
    ID_BYTES[usize::from(b)]
}
