//! The command `ask`: whether a relation holds between two intervals of a document.
mod deciding;
mod proving;

use answers::{DocumentQuery, unknown_name};
use deciding::Numbers;
use net_answers::answer_of_net;
use net_core::rel_of;
use runs::Answer;
use std::alloc::{AllocError, Global};
use tml_refs::Document;

/// The command `ask`, with the words for an interval, a relation and another interval.
#[derive(Clone, Copy)]
pub struct Ask<'w> {
    pub x: &'w [u8],
    pub rel: &'w [u8],
    pub y: &'w [u8],
}

impl DocumentQuery for Ask<'_> {
    ghost use Rattle.order_answers.specs.Ask.{OfAsk};

    ghost says = { λ asked. OfAsk asked.x.now asked.rel.now asked.y.now };

    /// Whether the relation holds in every timeline that fits the document: a proof or a counterexample, or a minimal
    /// clash if no timeline fits, as evidence; or the first word that names nothing.
    fn answer(&self, alloc: Global, document: &Document<'_>) -> Result<Answer, AllocError> {
        let Some(a) = document.index_of(self.x) else {
            return unknown_name(alloc, b"unknown X\n");
        };
        let Some(rel) = rel_of(self.rel) else {
            return unknown_name(alloc, b"unknown REL\n");
        };
        let Some(b) = document.index_of(self.y) else {
            return unknown_name(alloc, b"unknown Y\n");
        };
        answer_of_net(alloc, &Numbers { a, rel, b }, document)
    }
}
