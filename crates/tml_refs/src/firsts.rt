//! The first places at which rules are broken.
ghost use Rattle.std.specs.Prelude.{◌≡◌, ◌==◌, min};
ghost use Rattle.tml_refs.specs.Firsts.{IsEarliest, bound};

use crate::resolving::RefFault;

/// The earlier of two places, where they are there.
pub fn earlier(a: Option<u32>, b: Option<u32>) -> Option<u32>
    ensures { bound result ≡ min (bound a) (bound b) }
{
    match (a, b) {
        (Some(place), Some(other)) => Some(place.min(other)),
        (Some(_), None) => a,
        (None, _) => b,
    }
}

/// The first fault by the places at which each rule is broken first: that of a repeated identifier, of an unknown
/// reference, of too many intervals and of too many links. At one place the first of these rules is its fault.
pub fn first_fault(
    repeat: Option<u32>,
    unknown: Option<u32>,
    intervals: Option<u32>,
    links: Option<u32>,
) -> Option<RefFault>
    ensures { IsEarliest (bound repeat) (bound unknown) (bound intervals) (bound links) result }
{
    let first = earlier(earlier(repeat, unknown), earlier(intervals, links));
    let place = first?;
    if is_at(repeat, place) {
        Some(RefFault::DuplicateId { place })
    } else if is_at(unknown, place) {
        Some(RefFault::UnknownReference { place })
    } else if is_at(intervals, place) {
        Some(RefFault::TooManyIntervals { place })
    } else {
        Some(RefFault::TooManyLinks { place })
    }
}

fn is_at(first: Option<u32>, place: u32) -> bool
    ensures { result ≡ (bound first == place) }
{
    match first {
        Some(first) => first == place,
        None => false,
    }
}
