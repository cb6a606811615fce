//! Timelines that stand end to end.
ghost use Rattle.evidence_format.specs.Timelines.{AreParts, parts_of};
ghost use Rattle.net_core.specs.Ranks.{AreEven};
ghost use Rattle.std.specs.Prelude.{[], ◌∷◌, ◌≡◌, ◌<◌, length, slice_index, slice_index_or, IfOk};

use net_core::{List, Memory, Ranks};
use std::alloc::Global;
use std::marker::Model;

/// Several timelines, of which the ranks of each stand after those of the one before. A list for each of them would take
/// more memory than its text.
#[derive(Drop)]
pub struct Timelines {
    ranks: Ranks,
    /// For each timeline, how many ranks there are up to its end.
    ends: List<usize>,
}

impl Model for Timelines {
    ghost use Rattle.evidence_format.specs.Timelines.{AreParts, parts_of};
    ghost use Rattle.std.specs.Prelude.{List as ListOf, ℕ};

    ghost Value = { ListOf (ListOf ℕ) };

    ghost view = { λ a. parts_of 0 a.ends a.ranks };

    ghost invariant = { λ a. AreParts 0 a.ends a.ranks };
}

impl Timelines {
    /// The timelines of ranks that are parted at these ends. It takes no memory.
    pub fn from_parts(ranks: Ranks, ends: List<usize>) -> Timelines
        requires { AreParts 0 ends ranks }
        ensures { result ≡ parts_of 0 ends ranks }
    {
        Timelines { ranks, ends }
    }

    /// How many timelines there are.
    #[tactic(auto, using(crate::proofs::Parted::parts_count))]
    pub fn count(&self) -> usize
        ensures { result ≡ length self.now }
    {
        self.ends.as_slice().len()
    }

    /// The ranks of the timeline of this number, counted from 0.
    #[tactic(auto, using(crate::proofs::Parted::parts_count, crate::proofs::Parted::even_part))]
    pub fn timeline(&self, k: usize) -> &[u32]
        requires { k < length self.now }
        ensures ranks { result.now ≡ slice_index_or self.now k [] }
        ensures even { AreEven result.now }
    {
        part_of(self.ranks.as_slice(), self.ends.as_slice(), k)
    }

    /// The same timelines, each with a list of its own.
    ///
    /// # Errors
    ///
    /// Out of memory.
    #[tactic(auto, using(net_core::proofs::RankLaws::pairs_length))]
    pub fn to_list(&self, alloc: Global) -> Result<List<Ranks>, Memory>
        ensures { IfOk result (λ list. list ≡ self.now) }
    {
        let mut list = List::new(alloc);
        for k in 0..self.count() {
            let ranks = Vec::from_slice(alloc, self.timeline(k))?;
            list.push(Ranks::from_vec(ranks))?;
        }
        Ok(list)
    }
}

/// The part of this number of ranks that are parted at these ends.
#[tactic(auto, using(crate::proofs::Parted::part_at, crate::proofs::Parted::part_rises, crate::proofs::Parted::part_within))]
fn part_of<'t>(ranks: &'t [u32], ends: &[usize], k: usize) -> &'t [u32]
    requires parts { AreParts 0 ends.now ranks.now }
    requires k { k < length ends.now }
    ensures { result.now ≡ slice_index_or (parts_of 0 ends.now ranks.now) k [] }
{
    let start = start_of(ends, k);
    &ranks[start..ends[k]]
}

/// Where the part of this number begins, by the ends of all.
fn start_of(ends: &[usize], k: usize) -> usize
    requires { k < length ends.now }
    ensures { result ≡ slice_index (0 ∷ ends.now) k }
{
    if k == 0 { 0 } else { ends[k - 1] }
}
