//! What the checker says of evidence.
ghost use Rattle.net_core.specs.Limits.{max_evidence};
ghost use Rattle.std.specs.Prelude.{◌≤◌, length};

use crate::nets::Drawn;
use crate::page::Page;
use crate::texts::print_unread;
use evidence_check::{Claim, Reason, Refused, verify, verify_all};
use evidence_format::{read_bundle, read_evidence};
use net_core::Net;
use std::alloc::Global;

/// Prints the answer to a line about a net and the evidence of a text.
pub fn answer(page: &mut Page, alloc: Global, drawn: &Drawn, text: &[u8], word: &str) -> Option<()>
    requires { length text.now ≤ max_evidence }
{
    let net = drawn.net(alloc)?;
    match word {
        "verify" => print_verdict(page, alloc, &net, text),
        _ => print_verdicts(page, alloc, &net, text),
    }
    Some(())
}

/// Prints what the evidence of a text of version 1 shows of a net, or why it is refused.
fn print_verdict(page: &mut Page, alloc: Global, net: &Net, text: &[u8])
    requires { length text.now ≤ max_evidence }
{
    match read_evidence(alloc, text) {
        Ok(evidence) => match verify(net, &evidence) {
            Ok(claim) => page.text(text_of(claim)),
            Err(refused) => print_refused(page, refused),
        },
        Err(why) => print_unread(page, why),
    }
}

/// Prints that all claims of a text of either version are supported over a net, or the first that is refused, and why.
fn print_verdicts(page: &mut Page, alloc: Global, net: &Net, text: &[u8])
    requires { length text.now ≤ max_evidence }
{
    match read_bundle(alloc, text) {
        Ok(bundle) => match verify_all(net, &bundle) {
            Ok(()) => page.text("all are supported\n"),
            Err(refused) => {
                page.named("claim", refused.claim);
                page.text(" ");
                print_refused(page, refused.refused);
            }
        },
        Err(why) => print_unread(page, why),
    }
}

fn text_of(claim: Claim) -> &'static str {
    match claim {
        Claim::Fits => "fits\n",
        Claim::Entails => "entails\n",
        Claim::CanFail => "can fail\n",
        Claim::Clashes => "clashes\n",
    }
}

fn print_refused(page: &mut Page, refused: Refused) {
    page.named("part", refused.part);
    page.text(" ");
    match refused.reason {
        Reason::Number { number } => page.named("Number", number),
        Reason::Size { size } => page.named("Size", size),
        Reason::Order { interval } => page.named("Order", interval),
        Reason::Link { link } => page.named("Link", link),
        Reason::Calendar { from, to } => {
            page.named("Calendar", from);
            page.named("", to);
        }
        Reason::Step { step } => page.named("Step", step),
        Reason::End => page.text("End"),
        Reason::Weak => page.text("Weak"),
        Reason::Cited { link } => page.named("Cited", link),
        Reason::Holds => page.text("Holds"),
    }
    page.text("\n");
}
