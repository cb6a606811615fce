//! Claims that are read one after another.
ghost use Rattle.evidence_format.specs.Bundles.{IsTextOfEither, RefusesText};
ghost use Rattle.evidence_format.specs.Evidence.{IsWellFormed, PlainEvidence};
ghost use Rattle.line_texts.specs.Given.{ReadingStopsAt};
ghost use Rattle.line_texts.specs.Lines.{lines_of};
ghost use Rattle.evidence_format.specs.Readers as readers;
ghost use Rattle.evidence_format.specs.OneByOne.{HasReadClaims};
ghost use Rattle.evidence_format.specs.View.{plain_body};
ghost use Rattle.net_core.specs.Limits.{max_evidence};
ghost use Rattle.std.specs.Prelude.{◌≡◌, ◌<◌, ◌≤◌, ◌-◌, ◌++◌, [], ◌∷◌, List as ListOf, length, IfErr, IfOk, OnOk};

use crate::Body;
use crate::read::body_at;
use crate::versions::opening_at;
use line_texts::{ReadEvidence, Stop, end_at, refusal};
use std::alloc::Global;

/// The claims of a text that are still to be read.
#[derive(Clone, Copy)]
pub struct Unread<'t> {
    /// The whole text.
    pub text: &'t [u8],
    /// What follows the claims that were read.
    pub rest: &'t [u8],
    /// How many claims are still to be read.
    pub left: u32,
}

impl<'t> Unread<'t> {
    /// All claims of a text, of either version.
    ///
    /// # Errors
    ///
    /// The bad line, where it comes before the first claim.
    pub fn of_text(text: &'t [u8]) -> Result<Unread<'t>, ReadEvidence>
        requires { length text.now ≤ max_evidence }
        ensures ok { IfOk result (λ claims. HasReadClaims [] claims) }
        ensures text { IfOk result (λ claims. claims.text.now ≡ text.now) }
        ensures err { IfErr result (RefusesText text.now) }
    {
        match opening_at(text) {
            Ok((left, rest)) => Ok(Unread { text, rest, left }),
            Err(stop) => Err(stopped(text, stop)),
        }
    }

    /// The next claim. Claims that are read take no memory here.
    ///
    /// # Errors
    ///
    /// The bad line, where it is in this claim, or out of memory.
    pub fn next_claim(&mut self, alloc: Global) -> Result<Body, ReadEvidence>
        requires limit { length self.old.text.now ≤ max_evidence }
        requires left { 0 < self.old.left }
        requires read { (es : ListOf PlainEvidence) × HasReadClaims es self.old }
        ensures ok { (es : ListOf PlainEvidence) → HasReadClaims es self.old → IfOk result (λ claim. HasReadClaims (es ++ plain_body claim ∷ []) self.new) }
        ensures good { IfOk result (λ claim. IsWellFormed (plain_body claim)) }
        ensures left { OnOk result (self.new.left ≡ self.old.left - 1) }
        ensures err { IfErr result (RefusesText self.old.text.now) }
        ensures text { self.new.text ≡ self.old.text }
    {
        match body_at(alloc, self.rest) {
            Ok((claim, rest)) => {
                self.rest = rest;
                self.left -= 1;
                Ok(claim)
            }
            Err(stop) => Err(stopped(self.text, stop)),
        }
    }

    /// Passes the last line, after the last claim.
    ///
    /// # Errors
    ///
    /// The bad line.
    pub fn finish(self) -> Result<(), ReadEvidence>
        requires limit { length self.text.now ≤ max_evidence }
        requires left { self.left ≡ 0 }
        requires read { (es : ListOf PlainEvidence) × HasReadClaims es self }
        ensures ok { (es : ListOf PlainEvidence) → HasReadClaims es self.entry → OnOk result (IsTextOfEither es self.entry.text.now) }
        ensures err { IfErr result (RefusesText self.entry.text.now) }
    {
        match end_at(self.rest) {
            Ok(()) => Ok(()),
            Err(stop) => Err(stopped(self.text, stop)),
        }
    }
}

/// Why no claims were read, where reading stops.
pub fn stopped(text: &[u8], stop: Stop<'_>) -> ReadEvidence
    requires limit { length text.now ≤ max_evidence }
    requires stop { ReadingStopsAt stop (readers.bundle_at (lines_of text.now)) }
    ensures { RefusesText text.now result }
{
    refusal(text, stop)
}
