//! The numbers of a drill, drawn one after another.
ghost use Rattle.drill.specs.Numbers as spec;
ghost use Rattle.net_core.specs.Limits.{max_intervals};
ghost use Rattle.std.specs.Prelude.{IfOk, length, ◌*◌, ◌+◌, ◌<◌, ◌≡◌, ◌≤◌};

use named::Named;
use net_core::{Ends, Rel, holds};
use std::alloc::{AllocError, Global};
use tml_refs::DocLink;

/// Every number drawn is below this prime.
const MODULUS: u32 = 65_537;

/// The number of relations that can be linked by, the first of the table: those of TimeML.
const RELATIONS: usize = 14;

/// The last number that was drawn.
#[derive(Clone, Copy)]
pub struct Draws {
    last: u32,
}

impl Draws {
    /// Nothing is drawn yet, and the first number is drawn from `n`.
    pub fn new(n: u32) -> Draws
        ensures { result.last ≡ n }
    {
        Draws { last: n }
    }

    /// Draws the next number.
    #[tactic(auto, using(crate::proofs::Numbers::next_within), unfolding(crate::specs::Numbers::next))]
    pub fn draw(&mut self) -> u32
        requires { self.old.last < 65537 }
        ensures drawn { result ≡ spec.next self.old.last }
        ensures last { self.new.last ≡ result }
        ensures within { result < 65537 }
    {
        self.last = (75 * self.last + 74) % MODULUS;
        self.last
    }
}

/// The hidden intervals of drill `n`.
pub fn hidden_intervals(alloc: Global, n: u32, draws: &mut Draws) -> Result<Vec<Ends>, AllocError>
    requires few { n ≤ max_intervals }
    requires first { draws.old.last ≡ n }
    ensures intervals { IfOk result (λ hidden. hidden.items ≡ spec.hidden_intervals n) }
    ensures draws { IfOk result (λ hidden. draws.new.last ≡ spec.drawn n (2 * n)) }
    ensures within { draws.new.last < 65537 }
{
    let mut hidden = Vec::new(alloc);
    for _ in 0..n {
        let start = draws.draw() % 100;
        let finish = start + 1 + draws.draw() % 20;
        hidden.push(Ends { start, finish })?;
    }
    Ok(hidden)
}

/// The link from an interval to one before it, by the first relation of a drill that holds of the hidden ones.
pub fn link_between(hidden: &[Ends], i: u32, j: u32) -> Option<DocLink>
    requires hidden { hidden.now ≡ spec.hidden_intervals (length hidden.now) }
    requires i { i < length hidden.now }
    requires j { j < length hidden.now }
    ensures { result ≡ spec.link_between (length hidden.now) i j }
{
    let rel = first_relation(hidden[i as usize], hidden[j as usize])?;
    Some(DocLink { a: i, rel, b: j })
}

/// The first relation of a drill that holds of two intervals, if one does.
fn first_relation(a: Ends, b: Ends) -> Option<Rel>
    ensures { result ≡ spec.first_relation a b }
{
    let rels = &Rel::all()[..RELATIONS];
    rels.iter().copied().find(|rel| holds(*rel, a, b))
}
