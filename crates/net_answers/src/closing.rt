//! Answers by the closure of the net of a document.
ghost use Rattle.clash.specs.Closures.{IsClosureOf};
ghost use Rattle.net_answers.specs.Nets.{of_fitting, of_net};
ghost use Rattle.net_build.specs.Built.{IsNetOf};
ghost use Rattle.net_core.specs.Entailment.{HasTimeline};
ghost use Rattle.std.specs.Prelude.{IfOk};
ghost use Rattle.runs.specs.View.{finding_status};

use crate::clashing::clash_answer;
use clash::{CloseFault, close};
use net_build::net_of;
use net_core::{Memory, Net};
use order_closure::Closed;
use runs::Answer;
use std::alloc::{AllocError, Global};
use tml_refs::Document;

/// What is asked of a document that some timeline fits.
pub trait NetQuery {
    ghost use Rattle.net_core.specs.Nets.{PlainNet};
    ghost use Rattle.std.specs.Prelude.{List, ℕ};
    ghost use Rattle.tml_refs.specs.Documents.{PlainDocument};
    ghost use Rattle.runs.specs.declared.status.Status.{Status};

    /// Whether what is asked can be asked of a document.
    ghost is_of: { Self → PlainDocument → Type 0 };

    /// The answers to a document and its net.
    ghost says: { Self → PlainDocument → PlainNet → Status → List ℕ → Type 0 };

    /// The answer to this document, by its net and the closure of that.
    ///
    /// # Errors
    ///
    /// Out of memory.
    fn answer(
        &self,
        alloc: Global,
        document: &Document<'_>,
        net: &Net,
        closure: &Closed,
    ) -> Result<Answer, AllocError>
        requires asked { is_of self.now document.now }
        requires built { IsNetOf document.now net.now }
        requires closure { IsClosureOf net.now closure.now }
        requires fits { HasTimeline net.now }
        ensures { IfOk result (λ answer. says self.now document.now net.now (finding_status answer.finding) answer.text.items) };
}

/// The answer to what is asked of a document, or a minimal clash of its links where no timeline fits.
///
/// # Errors
///
/// Out of memory.
pub fn answer_of_net<A: NetQuery>(
    alloc: Global,
    asked: &A,
    document: &Document<'_>,
) -> Result<Answer, AllocError>
    requires { A.is_of asked.now document.now }
    ensures { IfOk result (λ answer. of_net (A.says asked.now) document.now (finding_status answer.finding) answer.text.items) }
{
    let net = net_of(alloc, document)?;
    answer_by_closure(alloc, asked, document, &net)
}

/// The same by the net of the document.
///
/// # Errors
///
/// Out of memory.
pub fn answer_by_closure<A: NetQuery>(
    alloc: Global,
    asked: &A,
    document: &Document<'_>,
    net: &Net,
) -> Result<Answer, AllocError>
    requires asked { A.is_of asked.now document.now }
    requires built { IsNetOf document.now net.now }
    ensures { IfOk result (λ answer. of_fitting (A.says asked.now document.now) net.now (finding_status answer.finding) answer.text.items) }
{
    match close(alloc, net) {
        Ok(closure) => asked.answer(alloc, document, net, &closure),
        Err(CloseFault::Clash(clash)) => clash_answer(alloc, net, clash),
        Err(CloseFault::Memory) => Err(AllocError),
    }
}
