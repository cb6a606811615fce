//! Building the net of a document, with limits.
ghost use Rattle.seconds_build.specs.Built as spec;
ghost use Rattle.seconds_build.specs.Built.{IsTimedOf};
ghost use Rattle.seconds_core.specs.Timed.{AreLengths};
ghost use Rattle.std.specs.List.{All};
ghost use Rattle.std.specs.Prelude.{IfOk, map, ◌≡◌};
ghost use Rattle.tml_refs.specs.View.{plain_interval};

use crate::lengths::NO_LIMITS;
use crate::limits_of;
use net_build::net_of;
use net_core::{List, Memory};
use seconds_core::{Limits, Timed};
use std::alloc::Global;
use tml_refs::{Document, Interval};

/// The net of a document, with the limits of how long each interval lasts: an instance has none.
///
/// # Errors
///
/// Out of memory.
pub fn timed_of(alloc: Global, document: &Document<'_>) -> Result<Timed, Memory>
    ensures { IfOk result (IsTimedOf document.now) }
{
    let net = net_of(alloc, document)?;
    let limits = all_limits(alloc, document)?;
    Ok(Timed::new(net, limits))
}

/// The limits of each interval, in their order.
fn all_limits(alloc: Global, document: &Document<'_>) -> Result<List<Limits>, Memory>
    ensures limits { IfOk result (λ limits. limits ≡ map spec.interval_limits document.now.intervals) }
    ensures lengths { IfOk result (All AreLengths) }
{
    let mut limits = List::new(alloc);
    for i in 0..document.intervals() {
        limits.push(interval_limits(document.interval(i)))?;
    }
    Ok(limits)
}

/// The limits of an interval: none of an instance, and of a time those of its value.
fn interval_limits(interval: Interval<'_>) -> Limits
    ensures limits { result ≡ spec.interval_limits (plain_interval interval.entry) }
    ensures lengths { AreLengths result }
{
    match interval {
        Interval::Instance { .. } => NO_LIMITS,
        Interval::Timex {
            kind,
            modifier,
            value,
            ..
        } => limits_of(kind, modifier, value.as_ref()),
    }
}
