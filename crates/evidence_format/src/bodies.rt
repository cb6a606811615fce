//! Reading claims whose bodies are kept as they stand in their text.
ghost use Rattle.evidence_format.specs.Bundles.{AreBodies, IsTextOfEither, RefusesText};
ghost use Rattle.evidence_format.specs.Evidence.{PlainEvidence};
ghost use Rattle.evidence_format.specs.Given.{GivesBodies};
ghost use Rattle.line_texts.specs.Given.{SkipsValues};
ghost use Rattle.line_texts.specs.Lines.{lines_of};
ghost use Rattle.evidence_format.specs.Readers as readers;
ghost use Rattle.line_texts.specs.Reading.{many_at};
ghost use Rattle.net_core.specs.Limits.{max_evidence};
ghost use Rattle.std.specs.Prelude.{◌≤◌, List as ListOf, length, IfErr, IfOk};

use crate::read::body_at;
use crate::unread::stopped;
use crate::versions::opening_at;
use line_texts::{ReadEvidence, Stop, end_at};
use std::alloc::Global;

/// Claims, by their bodies as they stand in a text.
#[derive(Clone, Copy)]
pub struct Bodies<'t> {
    /// How many claims there are.
    pub count: u32,
    /// Their bodies, one after another.
    pub text: &'t [u8],
}

/// The bodies of the claims whose text this is, in either version. It takes time in the length of the text, and memory
/// in that of the longest body: each claim is let go before the next one is read.
///
/// # Errors
///
/// `BadLine` comes exactly where it is the text of no claims, in neither version. Its line is the first one with which
/// the lines so far begin no text of either version.
pub fn read_bodies(alloc: Global, text: &[u8]) -> Result<Bodies<'_>, ReadEvidence>
    requires { length text.now ≤ max_evidence }
    ensures ok { IfOk result (λ bodies. (es : ListOf PlainEvidence) × IsTextOfEither es text.now × AreBodies es bodies) }
    ensures err { IfErr result (RefusesText text.now) }
    ensures few { IfOk result (λ bodies. bodies.count ≤ length text.now) }
{
    match bodies_of(alloc, text) {
        Ok(bodies) => Ok(bodies),
        Err(stop) => Err(stopped(text, stop)),
    }
}

/// The bodies of the claims of either version, with nothing after them.
#[tactic(auto, unfolding(crate::specs::Readers::bundle_at))]
fn bodies_of(alloc: Global, text: &[u8]) -> Result<Bodies<'_>, Stop<'_>>
    ensures { GivesBodies result (readers.bundle_at (lines_of text.now)) }
{
    let (count, bodies) = opening_at(text)?;
    let rest = pass_bodies(alloc, count, bodies)?;
    end_at(rest)?;
    Ok(Bodies {
        count,
        text: &bodies[..bodies.len() - rest.len()],
    })
}

/// What follows this number of bodies. Each is let go before the next one is read.
fn pass_bodies(alloc: Global, count: u32, text: &[u8]) -> Result<&[u8], Stop<'_>>
    ensures { SkipsValues result (many_at readers.body_at count (lines_of text.now)) }
{
    let mut rest = text;
    for _ in 0..count {
        let (_, after) = body_at(alloc, rest)?;
        rest = after;
    }
    Ok(rest)
}
