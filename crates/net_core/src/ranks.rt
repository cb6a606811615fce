//! Ranks of intervals: two for each, of its start and of its end.
ghost use Rattle.net_core.specs.Ranks.{AreEven, pairs_of};
ghost use Rattle.std.specs.Prelude.{[], ◌∷◌, ◌++◌, ◌≡◌, length, ◌%◌, OnErr, OnOk};

use crate::Memory;
use std::alloc::Global;
use std::marker::Model;

/// A list of ranks, two for each interval: that of its start and that of its end.
#[derive(Drop)]
pub struct Ranks {
    items: Vec<u32>,
}

impl Model for Ranks {
    ghost use Rattle.net_core.specs.Ranks.{AreEven};
    ghost use Rattle.std.specs.Prelude.{List as ListOf, ℕ};

    ghost Value = { ListOf ℕ };

    ghost view = { λ a. a.items.items };

    ghost invariant = { λ a. AreEven a.items.items };
}

impl Ranks {
    /// No ranks. It takes no memory.
    pub fn new(alloc: Global) -> Ranks
        ensures { result ≡ [] }
    {
        Ranks {
            items: Vec::new(alloc),
        }
    }

    #[tactic(auto, using(crate::proofs::RankLaws::even_of_length))]
    /// The ranks of a `Vec`: an even number of them. It takes no memory.
    pub fn from_vec(items: Vec<u32>) -> Ranks
        requires { length items.items % 2 ≡ 0 }
        ensures { result ≡ items.items }
    {
        Ranks { items }
    }

    /// The ranks, in order.
    pub fn as_slice(&self) -> &[u32]
        ensures value { result.now ≡ self.now }
        ensures even { AreEven self.now }
    {
        self.items.as_slice()
    }

    /// How many intervals have ranks.
    pub fn intervals(&self) -> usize
        ensures { result ≡ length (pairs_of self.now) }
    {
        self.items.len() / 2
    }

    /// Appends the ranks of one more interval. After `Memory` the list is unchanged.
    pub fn push(&mut self, start: u32, finish: u32) -> Result<(), Memory>
        ensures ok { OnOk result (self.new ≡ self.old ++ start ∷ finish ∷ []) }
        ensures pairs { OnOk result (pairs_of self.new ≡ pairs_of self.old ++ (start, finish) ∷ []) }
        ensures err { OnErr result (self.new ≡ self.old) }
    {
        self.items.extend_from_slice(&[start, finish])?;
        Ok(())
    }
}
