//! Checking evidence of seconds.
ghost use Rattle.seconds_check.specs.Confirmed.{IsConfirmed};
ghost use Rattle.seconds_check.specs.Refusals.{AreSecondsRefused};
ghost use Rattle.seconds_core.specs.View.{evidence_of};
ghost use Rattle.std.specs.Prelude.{IfErr, OnOk};

use crate::cycle::check_cycle;
use crate::placing::check_placing;
use crate::refusal::SecondsReason;
use seconds_core::{SecondsEvidence, Timed};

/// Checks a placing, or a cycle that is to show that there is none. It takes no memory.
///
/// # Errors
///
/// The first reason why the evidence is refused. A refusal comes exactly where the evidence is not confirmed.
pub fn confirm(timed: &Timed, evidence: &SecondsEvidence) -> Result<(), SecondsReason>
    ensures ok { OnOk result (IsConfirmed timed.now (evidence_of evidence.now)) }
    ensures err { IfErr result (AreSecondsRefused timed.now (evidence_of evidence.now)) }
{
    match evidence {
        SecondsEvidence::Placing(placing) => check_placing(timed, placing.as_slice()),
        SecondsEvidence::Cycle(cycle) => check_cycle(timed, cycle.as_slice()),
    }
}
