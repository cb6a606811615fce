//! Links without redundancy, and how much of one annotation follows from another.
#![tactic(auto)]

mod ends;
mod graph;
mod laws;
mod meeting;
mod reached;
mod reducing;
mod scoring;
mod search;
mod ties;
mod tree;
mod trees;

pub use laws::{
    every_net_is_reduced, every_score, one_reduced_list, one_score, reduced_links_say_the_same,
};
pub use reducing::{reduce, reduced_by};
pub use scoring::{Scores, score};
