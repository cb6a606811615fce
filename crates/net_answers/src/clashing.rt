//! Links that cannot all be true, as evidence.
ghost use Rattle.net_core.specs.Entailment.{HasNoTimeline};
ghost use Rattle.clash.specs.Minimal.{IsProvedClash};
ghost use Rattle.std.specs.Prelude.{◌≡◌, IfOk};
ghost use Rattle.net_answers.specs.Showing.{ShowsClash};

use crate::printing::evidence_text;
use clash::Clash;
use evidence_format::Evidence;
use net_core::{MAX_INTERVALS, Net};
use runs::{Answer, Finding};
use std::alloc::{AllocError, Global};

/// The answer that no timeline fits a net: a minimal clash.
pub fn clash_answer(alloc: Global, net: &Net, clash: Clash) -> Result<Answer, AllocError>
    requires none { HasNoTimeline net.now }
    requires clash { IsProvedClash net.now clash }
    ensures finding { IfOk result (λ answer. answer.finding ≡ Finding.Clash) }
    ensures text { IfOk result (λ answer. ShowsClash net.now answer.text.items) }
{
    prove!(net.intervals() <= MAX_INTERVALS);
    let Clash {
        cites,
        walk,
        spares,
    } = clash;
    let evidence = Evidence::Clash {
        cites,
        walk,
        spares,
    };
    let text = evidence_text(alloc, evidence)?;
    Ok(Answer {
        finding: Finding::Clash,
        text,
    })
}
