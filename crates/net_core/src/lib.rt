//! Relations between intervals of time, nets of intervals, and the timelines that fit them.
#![tactic(auto)]

mod atom;
mod bounds;
mod limits;
mod marks;
mod net;
mod ranks;
mod rels;
mod step;
mod timeline;
mod walk;

pub use atom::{Atom, Atoms, End, PairOrder, atoms_of, atoms_say_the_relation, holds, orders_of};
pub use bounds::Bounds;
pub use limits::{
    MAX_DOCUMENT, MAX_EVIDENCE, MAX_INTERVALS, MAX_LINKS, MAX_POINTS, limits_are_exact,
};
pub use lists::{List, Memory};
pub use marks::{mark_link, mark_steps};
pub use net::{Ends, Net, NetLink};
pub use ranks::Ranks;
pub use rels::{Rel, one_base_relation_holds, rel_of, rels_are_apart};
pub use step::{Step, step_atom, steps_say_what_fits};
pub use timeline::{
    ends_at, first_broken_link, first_broken_pair, first_unordered, keeps_link, satisfies,
};
pub use walk::Walk;
