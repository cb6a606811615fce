//! The canonical text of a document.
ghost use Rattle.std.specs.Prelude.{◌≤◌, length, IfOk, IfErr, OnOk};
ghost use Rattle.net_core.specs.Limits.{max_document};
ghost use Rattle.tml_accept.specs.Acceptance.{Accepted};
ghost use Rattle.tml_accept.specs.Refusals.{IsRefusal};
ghost use Rattle.tml_canon.specs.Canonical.{IsCanonicalText};
ghost use Rattle.tml_canon.specs.Taking.{HasWrittenAll, MayTakeTag, TakesTag};
ghost use Rattle.tml_canon.specs.Writing.{Writes};
ghost use Rattle.tml_span.specs.View.{unit_of};

use crate::writer::Writer;
use net_core::Memory;
use std::alloc::{AllocError, Global};
use tml_accept::Refusal;
use tml_io::List;
use tml_refs::Resolver;
use tml_span::Unit;
use tml_types::{TagReader, TypedTag};

/// The canonical text of a document that has no fault in any of the five phases: what `canon` gives for its tree. No tree
/// is built: the units are written as they are judged, and the document is cut once.
///
/// # Errors
///
/// The first fault, as `accept` has it; or out of memory.
pub fn canonical_text(alloc: Global, doc: &[u8]) -> Result<List<u8>, Refusal>
    requires { length doc.now ≤ max_document }
    ensures accepted { IfOk result (λ text. Accepted doc.now) }
    ensures text { IfOk result (λ text. IsCanonicalText doc.now text) }
    ensures err { IfErr result (IsRefusal doc.now) }
{
    let taken = take_all(alloc, doc)?;
    match taken.resolver.finish() {
        Ok(_) => {}
        Err(fault) => return Err(Refusal::of(fault.kind_and_place())),
    }
    match taken.writer.finish() {
        Ok(text) => Ok(List::from_vec(text)),
        Err(AllocError) => Err(Refusal::Memory),
    }
}

/// What was taken of a document: its typed tags, and the text of its units.
#[derive(Drop)]
struct Taken<'s> {
    resolver: Resolver<'s>,
    writer: Writer<'s>,
}

impl<'s> Taken<'s> {
    /// Writes one more unit, and takes the typed tag that it begins.
    fn take(&mut self, unit: &Unit<'s>, tag: &Option<TypedTag<'s>>) -> Result<(), Memory>
        requires { MayTakeTag self.old.resolver tag.now }
        ensures written { OnOk result (Writes self.old.writer (unit_of unit.now).kind self.new.writer) }
        ensures taken { OnOk result (TakesTag self.old.resolver tag.now self.new.resolver) }
    {
        self.writer.take(unit)?;
        match tag {
            Some(tag) => self.resolver.take(tag),
            None => Ok(()),
        }
    }
}

/// All that is taken of a document, or the first fault of its bytes, its units, their nesting or its attributes.
fn take_all<'s>(alloc: Global, doc: &'s [u8]) -> Result<Taken<'s>, Refusal>
    requires { length doc.now ≤ max_document }
    ensures ok { IfOk result (HasWrittenAll doc.now) }
    ensures err { IfErr result (IsRefusal doc.now) }
{
    let mut tags = match TagReader::new(alloc, doc) {
        Ok(tags) => tags,
        Err(cut) => return Err(Refusal::of(Some(cut.kind_and_place()))),
    };
    let mut taken = Taken {
        resolver: Resolver::new(alloc),
        writer: Writer::new(alloc),
    };
    let mut tag = None;
    loop {
        match tags.pull_unit(alloc, &mut tag) {
            Ok(Some(unit)) => {
                if taken.take(&unit, &tag).is_err() {
                    return Err(Refusal::of(tags.out_of_memory().kind_and_place()));
                }
                tags.take_back(unit);
            }
            Ok(None) => return Ok(taken),
            Err(fault) => return Err(Refusal::of(fault.kind_and_place())),
        }
    }
}
