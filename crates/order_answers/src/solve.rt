//! The command `solve`: in what order the intervals of a document can lie.
ghost use Rattle.evidence_format.specs.Bundles.{IsClaimText};
ghost use Rattle.evidence_format.specs.Evidence.{timeline};
ghost use Rattle.net_core.specs.Limits.{max_points, max_printed};
ghost use Rattle.net_core.specs.Ranks.{pairs_of};
ghost use Rattle.order_answers.specs.Solve.{IsLeastText, ShowsTimeline};
ghost use Rattle.std.specs.Prelude.{◌≡◌, ◌<◌, ◌≤◌, ◌%◌, length, slice_index, IfOk, IfSome, ℕ};

use answers::DocumentQuery;
use evidence_format::Evidence;
use net_answers::{NetQuery, answer_by_closure, evidence_text};
use net_build::net_of;
use net_core::{MAX_INTERVALS, Net, Ranks};
use net_orders::least_timeline;
use order_closure::Closed;
use runs::Answer;
use std::alloc::{AllocError, Global};
use timeline::least;
use tml_refs::Document;

/// The command `solve`.
#[derive(Clone, Copy)]
pub struct Solve;

impl DocumentQuery for Solve {
    ghost use Rattle.net_answers.specs.Nets.{of_net};
    ghost use Rattle.order_answers.specs.Solve.{OfSolve};

    ghost says = { λ _. of_net OfSolve };

    /// The least timeline that fits the document, or a minimal clash if none does, as evidence.
    fn answer(&self, alloc: Global, document: &Document<'_>) -> Result<Answer, AllocError> {
        let net = net_of(alloc, document)?;
        match text_of_ranks(alloc, &net)? {
            Some(text) => Ok(Answer::done(text)),
            None => answer_by_closure(alloc, self, document, &net),
        }
    }
}

impl NetQuery for Solve {
    ghost use Rattle.order_answers.specs.Solve.{OfSolve};
    ghost use Rattle.std.specs.Prelude.{⊤};

    ghost is_of = { λ _ _. ⊤ };

    ghost says = { λ _. OfSolve };

    /// The least timeline that fits the net, as evidence.
    fn answer(
        &self,
        alloc: Global,
        _document: &Document<'_>,
        net: &Net,
        closure: &Closed,
    ) -> Result<Answer, AllocError> {
        prove!(net.intervals() <= MAX_INTERVALS);
        Ok(Answer::done(least_text(alloc, closure)?))
    }
}

/// The text of the least timeline that fits a net, if its ranks settle soon without a table.
fn text_of_ranks(alloc: Global, net: &Net) -> Result<Option<Vec<u8>>, AllocError>
    ensures { IfOk result (λ found. IfSome found (λ text. ShowsTimeline net.now text.items)) }
{
    prove!(net.intervals() <= MAX_INTERVALS);
    match least_timeline(alloc, net)? {
        Some(ranks) => Ok(Some(timeline_text(alloc, ranks)?)),
        None => Ok(None),
    }
}

/// The text of the least timeline that keeps a table.
fn least_text(alloc: Global, table: &Closed) -> Result<Vec<u8>, AllocError>
    requires even { table.now.points % 2 ≡ 0 }
    requires few { table.now.points ≤ max_points }
    ensures { IfOk result (λ text. IsLeastText table.now text.items) }
{
    timeline_text(alloc, least(alloc, table)?)
}

/// The text of a timeline of so few and so small ranks.
pub fn timeline_text(alloc: Global, ranks: Ranks) -> Result<Vec<u8>, AllocError>
    requires few { length ranks ≤ max_points }
    requires small { (p : ℕ) → p < length ranks → slice_index ranks p < length ranks }
    ensures text { IfOk result (λ text. IsClaimText (timeline (pairs_of ranks)) text.items) }
    ensures short { IfOk result (λ text. length text.items ≤ max_printed) }
{
    evidence_text(alloc, Evidence::Timeline { ranks })
}
