//! The command `reduce`: the links of a document without those that follow from others.
ghost use Rattle.score_answers.specs.Reduce as texts;
ghost use Rattle.std.specs.List.{All};
ghost use Rattle.std.specs.Prelude.{◌≡◌, ◌<◌, length, IfOk};

use crate::counts::push_of;
use answers::{DocumentQuery, push_link};
use net_answers::{NetQuery, answer_of_net};
use net_core::Net;
use order_closure::Closed;
use runs::Answer;
use std::alloc::{AllocError, Global};
use tml_refs::Document;
use tml_score::reduced_by;

/// The command `reduce`.
#[derive(Clone, Copy)]
pub struct Reduce;

impl DocumentQuery for Reduce {
    ghost use Rattle.net_answers.specs.Nets.{of_net};
    ghost use Rattle.score_answers.specs.Reduce.{OfReduce};

    ghost says = { λ _. of_net OfReduce };

    /// The links that stay, or a minimal clash where no timeline fits, as evidence.
    fn answer(&self, alloc: Global, document: &Document<'_>) -> Result<Answer, AllocError> {
        answer_of_net(alloc, self, document)
    }
}

impl NetQuery for Reduce {
    ghost use Rattle.score_answers.specs.Reduce.{OfReduce};
    ghost use Rattle.std.specs.Prelude.{⊤};

    ghost is_of = { λ _ _. ⊤ };

    ghost says = { λ _. OfReduce };

    /// How many links stay, and a line for each.
    fn answer(
        &self,
        alloc: Global,
        document: &Document<'_>,
        net: &Net,
        closure: &Closed,
    ) -> Result<Answer, AllocError> {
        let links = reduced_by(alloc, net, closure)?;
        Ok(Answer::done(links_text(alloc, document, links.as_slice())?))
    }
}

/// The text of links that stay, by their numbers.
fn links_text(alloc: Global, document: &Document<'_>, links: &[u32]) -> Result<Vec<u8>, AllocError>
    requires { All (λ k. k < length document.now.links) links.now }
    ensures { IfOk result (λ text. text.items ≡ texts.reduced_text document.now links.now) }
{
    let mut text = Vec::new(alloc);
    let all = u64::from(document.links());
    push_of(&mut text, b"reduced ", links.len() as u64, all)?;
    for k in links {
        push_link(&mut text, *k, document.link(*k), document)?;
    }
    Ok(text)
}
