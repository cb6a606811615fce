//! Whether a document is well annotated.
ghost use Rattle.std.specs.Prelude.{◌≤◌, length, IfOk, IfErr};
ghost use Rattle.tml_accept.specs.Acceptance.{Says};
ghost use Rattle.tml_accept.specs.Refusals.{IsRefusal};
ghost use Rattle.tml_accept.specs.Taking.{HasTakenAll};
ghost use Rattle.net_core.specs.Limits.{max_document};

use crate::refusal::Refusal;
use std::alloc::Global;
use tml_refs::{Document, Resolver};
use tml_types::TagReader;

/// What a document says that has no fault in any of the five phases: that its bytes are UTF-8 and are cut into units,
/// that the units nest, that the attributes are right, and the identifiers, references and limits. No tree is built and no
/// list of the tags: they are typed as the units are cut, and taken as they come.
///
/// # Errors
///
/// The first fault: that of the first phase which fails, and there the one at the least place and with the least
/// number; or out of memory.
pub fn accept<'s>(alloc: Global, doc: &'s [u8]) -> Result<Document<'s>, Refusal>
    requires { length doc.now ≤ max_document }
    ensures ok { IfOk result (Says doc.now) }
    ensures err { IfErr result (IsRefusal doc.now) }
{
    let resolver = resolver(alloc, doc)?;
    match resolver.finish() {
        Ok(document) => Ok(document),
        Err(fault) => Err(Refusal::of(fault.kind_and_place())),
    }
}

/// A resolver that has taken all tags of a document, or the first fault of its bytes, its units, their nesting or its
/// attributes.
fn resolver<'s>(alloc: Global, doc: &'s [u8]) -> Result<Resolver<'s>, Refusal>
    requires { length doc.now ≤ max_document }
    ensures ok { IfOk result (HasTakenAll doc.now) }
    ensures err { IfErr result (IsRefusal doc.now) }
{
    let mut tags = match TagReader::new(alloc, doc) {
        Ok(tags) => tags,
        Err(cut) => return Err(Refusal::of(Some(cut.kind_and_place()))),
    };
    let mut resolver = Resolver::new(alloc);
    loop {
        match tags.pull(alloc) {
            Ok(Some(tag)) => {
                if resolver.take(&tag).is_err() {
                    return Err(Refusal::of(tags.out_of_memory().kind_and_place()));
                }
            }
            Ok(None) => return Ok(resolver),
            Err(fault) => return Err(Refusal::of(fault.kind_and_place())),
        }
    }
}
