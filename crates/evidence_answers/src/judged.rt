//! What claims show of a document, which are judged one after another.
ghost use Rattle.evidence_answers.specs.Judging.{IsJudged};
ghost use Rattle.evidence_answers.specs.Texts as texts;
ghost use Rattle.evidence_answers.specs.Texts.{NamesIntervals};
ghost use Rattle.evidence_check.specs.Demands.{AreDemands};
ghost use Rattle.evidence_format.specs.Bundles.{IsTextOfEither, RefusesText};
ghost use Rattle.evidence_format.specs.Evidence.{IsWellFormed, PlainEvidence};
ghost use Rattle.evidence_format.specs.View.{plain, plain_body};
ghost use Rattle.net_build.specs.Built.{IsNetOf};
ghost use Rattle.net_core.specs.Limits.{max_evidence};
ghost use Rattle.net_core.specs.Nets.{PlainNet};
ghost use Rattle.std.specs.List.{flat_map};
ghost use Rattle.std.specs.Prelude.{◌≡◌, ◌<◌, ◌≤◌, ◌++◌, ◌∷◌, [], length, IfErr, IfOk, List as ListOf, OnOk};
ghost use Rattle.tml_refs.specs.Documents.{PlainDocument};

use answers::{push_number, push_related};
use evidence_check::{Demands, RefusedClaim, verify_body};
use evidence_format::{Body, Evidence, ReadEvidence, Unread};
use net_core::{Net, Rel};
use std::alloc::{AllocError, Global};
use tml_refs::Document;

/// What some claims show of a document.
#[derive(Drop)]
pub struct Judged {
    /// A line for each of them, where none is refused.
    pub lines: Vec<u8>,
    /// The first one that is refused, if any.
    pub refused: Option<RefusedClaim>,
}

/// What the claims of a text show of a document. Each is judged and let go before the next one is read: it takes memory
/// in the length of the longest claim and of what is shown.
///
/// # Errors
///
/// The bad line of the text, or out of memory.
pub fn judged_claims(
    alloc: Global,
    document: &Document<'_>,
    net: &Net,
    text: &[u8],
) -> Result<Judged, ReadEvidence>
    requires limit { length text.now ≤ max_evidence }
    requires built { IsNetOf document.now net.now }
    ensures ok { IfOk result (λ judged. (es : ListOf PlainEvidence) × IsTextOfEither es text.now × IsJudged document.now net.now es judged) }
    ensures err { IfErr result (RefusesText text.now) }
{
    let mut demands = Demands::new();
    demands.add(net);
    let mut claims = Unread::of_text(text)?;
    let mut judged = Judged::none(alloc);
    for number in 0..claims.left {
        let claim = claims.next_claim(alloc)?;
        if judged.add(document, net, &demands, number, &claim).is_err() {
            return Err(ReadEvidence::Memory);
        }
    }
    claims.finish()?;
    Ok(judged)
}

impl Judged {
    /// What no claims show. It takes no memory.
    fn none(alloc: Global) -> Judged
        ensures { (contents : PlainDocument) (net : PlainNet) → IsJudged contents net [] result }
    {
        Judged {
            lines: Vec::new(alloc),
            refused: None,
        }
    }

    /// Judges one claim more, by its number, counted from 0. After a refusal no claim is looked at.
    fn add(
        &mut self,
        document: &Document<'_>,
        net: &Net,
        demands: &Demands,
        number: u32,
        claim: &Body,
    ) -> Result<(), AllocError>
        requires built { IsNetOf document.now net.now }
        requires demands { AreDemands net.now demands.now }
        requires well_formed { IsWellFormed (plain_body claim.now) }
        ensures { OnOk result ((es : ListOf PlainEvidence) → IsJudged document.now net.now es self.old → length es ≡ number
            → IsJudged document.now net.now (es ++ plain_body claim.now ∷ []) self.new) }
    {
        if self.refused.is_some() {
            return Ok(());
        }
        match verify_body(net, demands, number, claim) {
            Ok(()) => push_claim(&mut self.lines, document, claim),
            Err(refused) => {
                self.refused = Some(refused);
                Ok(())
            }
        }
    }
}

/// Appends what a supported claim of a document shows.
fn push_claim(out: &mut Vec<u8>, document: &Document<'_>, claim: &Body) -> Result<(), AllocError>
    requires { NamesIntervals document.now (plain_body claim.now) }
    ensures { OnOk result (out.new.items ≡ out.old.items ++ texts.claim_line document.now (plain_body claim.now)) }
{
    match claim {
        Body::Whole(evidence) => push_shown(out, document, evidence),
        Body::Clash { cites, .. } => push_clash(out, b"verified clash", cites.as_slice()),
    }
}

/// Appends what supported evidence of a document shows.
fn push_shown(
    out: &mut Vec<u8>,
    document: &Document<'_>,
    evidence: &Evidence,
) -> Result<(), AllocError>
    requires { NamesIntervals document.now (plain evidence.now) }
    ensures { OnOk result (out.new.items ≡ out.old.items ++ texts.claim_line document.now (plain evidence.now)) }
{
    match evidence {
        Evidence::Timeline { .. } => out.extend_from_slice(b"verified timeline\n"),
        Evidence::Entails { a, rel, b, .. } => {
            push_relation(out, b"verified entails ", document, *a, *rel, *b)
        }
        Evidence::Counter { a, rel, b, .. } => {
            push_relation(out, b"verified counter ", document, *a, *rel, *b)
        }
        Evidence::Clash { cites, .. } => push_clash(out, b"verified clash", cites.as_slice()),
    }
}

/// A relation between two intervals of a document, by their names.
fn push_relation(
    out: &mut Vec<u8>,
    words: &[u8],
    document: &Document<'_>,
    a: u32,
    rel: Rel,
    b: u32,
) -> Result<(), AllocError>
    requires a { a < length document.now.intervals }
    requires b { b < length document.now.intervals }
    ensures { OnOk result (out.new.items ≡ out.old.items ++ texts.relation_claim words.now document.now a rel b) }
{
    out.extend_from_slice(words)?;
    push_related(
        out,
        document.interval(a).name(),
        rel,
        document.interval(b).name(),
    )?;
    out.extend_from_slice(b"\n")
}

/// Links that cannot all be true, by their numbers.
fn push_clash(out: &mut Vec<u8>, words: &[u8], cites: &[u32]) -> Result<(), AllocError>
    ensures { OnOk result (out.new.items ≡ out.old.items ++ texts.clash_claim words.now cites.now) }
{
    out.extend_from_slice(words)?;
    push_cited(out, cites)?;
    out.extend_from_slice(b"\n")
}

/// A space and a number for each of the links.
fn push_cited(out: &mut Vec<u8>, cites: &[u32]) -> Result<(), AllocError>
    ensures { OnOk result (out.new.items ≡ out.old.items ++ flat_map texts.cited cites.now) }
{
    for link in cites {
        out.extend_from_slice(b" ")?;
        push_number(out, u64::from(*link))?;
    }
    Ok(())
}
