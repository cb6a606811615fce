//! The spares of a clash, in either of their forms.
ghost use Rattle.evidence_check.specs.Spares.{spares_of};
ghost use Rattle.net_core.specs.Ranks.{AreEven};
ghost use Rattle.std.specs.Prelude.{[], ◌≡◌, ◌<◌, length, slice_index_or};

use evidence_format::Timelines;
use net_core::Ranks;

/// Timelines, one for each link of a clash.
#[derive(Clone, Copy)]
pub enum Spares<'s> {
    /// A list for each of them.
    Listed(&'s [Ranks]),
    /// All of them end to end.
    Joined(&'s Timelines),
}

/// The ranks of the spare of this number, counted from 0.
pub fn spare_at(spares: Spares<'_>, k: usize) -> &[u32]
    requires { k < length (spares_of spares) }
    ensures ranks { result.now ≡ slice_index_or (spares_of spares.entry) k [] }
    ensures even { AreEven result.now }
{
    match spares {
        Spares::Listed(timelines) => timelines[k].as_slice(),
        Spares::Joined(timelines) => timelines.timeline(k),
    }
}
