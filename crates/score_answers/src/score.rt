//! The command `score`: how much of a document follows from a key, and how much of the key from the document.
ghost use Rattle.score_answers.specs.Score.{HasKeyLine, scores_text};
ghost use Rattle.std.specs.Prelude.{◌≡◌, codes, IfOk};

use crate::counts::push_of;
use answers::{JudgedQuery, refusal};
use clash::close_if_fits;
use net_answers::{NetQuery, answer_of_net};
use net_build::net_of;
use net_core::{Memory, Net};
use order_closure::Closed;
use runs::{Answer, Finding};
use std::alloc::{AllocError, Global};
use tml_accept::{Refusal, accept};
use tml_refs::Document;
use tml_score::{Scores, score};

/// The command `score`.
#[derive(Clone, Copy)]
pub struct Score;

impl JudgedQuery for Score {
    ghost use Rattle.net_core.specs.Limits.{max_document};
    ghost use Rattle.score_answers.specs.Score.{OfScore};

    ghost says = { λ _. OfScore };

    ghost limit = { max_document };

    /// The scores of the document against a key with these bytes; or the first fault of the key, or else a minimal clash
    /// where no timeline fits the document, as evidence, or else that none fits the key.
    fn answer(
        &self,
        alloc: Global,
        document: &Document<'_>,
        bytes: &[u8],
    ) -> Result<Answer, AllocError> {
        match accept(alloc, bytes) {
            Ok(key) => answer_of_net(alloc, &Against { key: &key }, document),
            Err(why) => key_refusal(alloc, why),
        }
    }
}

/// A key that a document is scored against.
#[derive(Clone, Copy)]
struct Against<'k, 's> {
    key: &'k Document<'s>,
}

impl NetQuery for Against<'_, '_> {
    ghost use Rattle.score_answers.specs.Score.{OfKey};
    ghost use Rattle.std.specs.Prelude.{⊤};

    ghost is_of = { λ _ _. ⊤ };

    ghost says = { λ asked. OfKey asked.key.now };

    /// The scores of the document against the key, or that no timeline fits the key.
    fn answer(
        &self,
        alloc: Global,
        document: &Document<'_>,
        net: &Net,
        closure: &Closed,
    ) -> Result<Answer, AllocError> {
        let key_net = net_of(alloc, self.key)?;
        let Some(key_closure) = close_if_fits(alloc, &key_net)? else {
            return key_clash(alloc);
        };
        // It is closed, so some timeline fits.
        prove!(key_closure.points() == 2 * key_net.intervals());
        let scores = score(
            alloc,
            document,
            net,
            closure,
            self.key,
            &key_net,
            &key_closure,
        )?;
        scores_answer(alloc, scores)
    }
}

/// The answer to a key that is refused: the line of its fault, after the word for the key.
fn key_refusal(alloc: Global, why: Refusal) -> Result<Answer, AllocError>
    ensures finding { IfOk result (λ answer. answer.finding ≡ Finding.DocFault) }
    ensures line { IfOk result (λ answer. HasKeyLine (λ kind place. why ≡ Refusal.Fault kind place) answer.text.items) }
{
    let Answer {
        finding,
        text: line,
    } = refusal(alloc, why)?;
    let mut text = Vec::from_slice(alloc, b"key ")?;
    text.extend_from_slice(line.as_slice())?;
    Ok(Answer { finding, text })
}

/// The answer that no timeline fits the key.
fn key_clash(alloc: Global) -> Result<Answer, AllocError>
    ensures finding { IfOk result (λ answer. answer.finding ≡ Finding.Clash) }
    ensures text { IfOk result (λ answer. answer.text.items ≡ codes "key clash\n") }
{
    let text = Vec::from_slice(alloc, b"key clash\n")?;
    Ok(Answer {
        finding: Finding::Clash,
        text,
    })
}

/// The answer with the lines of precision and recall.
fn scores_answer(alloc: Global, scores: Scores) -> Result<Answer, AllocError>
    ensures finding { IfOk result (λ answer. answer.finding ≡ Finding.Done) }
    ensures text { IfOk result (λ answer. answer.text.items ≡ scores_text scores) }
{
    let Scores {
        matched,
        doc_links,
        found,
        key_links,
    } = scores;
    let mut text = Vec::new(alloc);
    push_of(
        &mut text,
        b"precision ",
        u64::from(matched),
        u64::from(doc_links),
    )?;
    push_of(
        &mut text,
        b"recall ",
        u64::from(found),
        u64::from(key_links),
    )?;
    Ok(Answer::done(text))
}
