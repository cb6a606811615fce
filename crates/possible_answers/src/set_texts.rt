//! Texts of sets of base relations, each of which is made once.
ghost use Rattle.possible_answers.specs.Matrix.{rel_word, words_of};
ghost use Rattle.possible_answers.specs.SetTexts.{AreTexts, place_at};
ghost use Rattle.std.specs.Prelude.{IfOk, OnOk, ◌++◌, ◌<◌, ◌≡◌};
ghost use Rattle.tml_possible.specs.Sets.{has, number};

use named::Named;
use net_core::Rel;
use std::alloc::{AllocError, Global};
use tml_possible::BaseSet;

/// Where a text stands; where both are the same there is none yet.
#[derive(Clone, Copy)]
struct Place {
    start: usize,
    end: usize,
}

/// The words of sets of base relations, with the end of the line: most lines of a matrix have one of a few.
#[derive(Drop)]
pub struct SetTexts {
    bytes: Vec<u8>,
    places: Vec<Place>,
}

impl SetTexts {
    /// No texts yet.
    ///
    /// # Errors
    ///
    /// Out of memory.
    pub fn new(alloc: Global) -> Result<SetTexts, AllocError>
        ensures { IfOk result (λ texts. AreTexts texts.bytes.items texts.places.items) }
    {
        let bytes = Vec::new(alloc);
        let nowhere = Place { start: 0, end: 0 };
        let places = vec![in alloc; nowhere; BaseSet::COUNT]?;
        Ok(SetTexts { bytes, places })
    }

    /// Appends the words of a set, and ends the line.
    ///
    /// # Errors
    ///
    /// Out of memory.
    pub fn push(&mut self, out: &mut Vec<u8>, set: BaseSet) -> Result<(), AllocError>
        requires texts { AreTexts self.old.bytes.items self.old.places.items }
        ensures texts { OnOk result (AreTexts self.new.bytes.items self.new.places.items) }
        ensures out { OnOk result (out.new.items ≡ out.old.items ++ words_of (has set)) }
    {
        let k = set.number();
        if self.places[k].start == self.places[k].end {
            self.make(set)?;
        }
        let Place { start, end } = self.places[k];
        out.extend_from_slice(&self.bytes[start..end])
    }

    /// Makes the words of a set.
    fn make(&mut self, set: BaseSet) -> Result<(), AllocError>
        requires { AreTexts self.old.bytes.items self.old.places.items }
        ensures texts { OnOk result (AreTexts self.new.bytes.items self.new.places.items) }
        ensures made { OnOk result (let place = place_at self.new.places.items (number set) in place.start < place.end) }
    {
        let start = self.bytes.as_slice().len();
        push_words(&mut self.bytes, set)?;
        let end = self.bytes.as_slice().len();
        self.places[set.number()] = Place { start, end };
        Ok(())
    }
}

/// Appends the base relations of a set in their order, each after a space, and ends the line.
fn push_words(out: &mut Vec<u8>, set: BaseSet) -> Result<(), AllocError>
    ensures { OnOk result (out.new.items ≡ out.old.items ++ words_of (has set)) }
{
    for rel in Rel::all() {
        if set.has(*rel) {
            push_word(out, *rel)?;
        }
    }
    out.extend_from_slice(b"\n")
}

/// Appends a space and the text of a relation.
fn push_word(out: &mut Vec<u8>, rel: Rel) -> Result<(), AllocError>
    ensures { OnOk result (out.new.items ≡ out.old.items ++ rel_word rel) }
{
    out.extend_from_slice(b" ")?;
    out.extend_from_slice(rel.text())
}
