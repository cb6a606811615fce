//! Evidence that is read and written again.
ghost use Rattle.evidence_format.specs.Evidence.{IsWellFormed};
ghost use Rattle.evidence_format.specs.View.{plain_body};
ghost use Rattle.net_core.specs.Limits.{max_evidence};
ghost use Rattle.std.specs.Prelude.{◌≤◌, length};

use crate::page::Page;
use evidence_format::{
    Body, Bundle, ReadEvidence, Unread, read_bundle, read_evidence, write_bundle, write_claim,
    write_evidence,
};
use net_core::{List, Memory};
use std::alloc::Global;

/// Prints a text that was written.
pub fn print_text(page: &mut Page, text: Result<List<u8>, Memory>) {
    match text {
        Ok(text) => page.bytes(text.as_slice()),
        Err(Memory) => page.out_of_memory(),
    }
}

/// Prints why a text was not read.
pub fn print_unread(page: &mut Page, why: ReadEvidence) {
    match why {
        ReadEvidence::BadLine { line } => {
            page.named("bad line", line);
            page.text("\n");
        }
        ReadEvidence::Memory => page.out_of_memory(),
    }
}

/// Prints the answer to a line about the evidence of one text.
pub fn answer(page: &mut Page, alloc: Global, text: &[u8], word: &str)
    requires { length text.now ≤ max_evidence }
{
    match word {
        "again" => print_again(page, alloc, text),
        "one" => print_one(page, alloc, text),
        "claims" => print_claims(page, alloc, text),
        _ => print_bundle(page, alloc, text),
    }
}

/// Prints the text of version 1 of the evidence that a text is.
fn print_again(page: &mut Page, alloc: Global, text: &[u8])
    requires { length text.now ≤ max_evidence }
{
    match read_evidence(alloc, text) {
        Ok(evidence) => print_text(page, write_evidence(alloc, &evidence)),
        Err(why) => print_unread(page, why),
    }
}

/// Prints the text of version 2 of the evidence that a text of version 1 is.
fn print_one(page: &mut Page, alloc: Global, text: &[u8])
    requires { length text.now ≤ max_evidence }
{
    let evidence = match read_evidence(alloc, text) {
        Ok(evidence) => evidence,
        Err(why) => return print_unread(page, why),
    };
    match Bundle::one(alloc, evidence) {
        Ok(bundle) => print_text(page, write_bundle(alloc, &bundle)),
        Err(Memory) => page.out_of_memory(),
    }
}

/// Prints the text of version 2 of the claims that a text of either version has.
fn print_bundle(page: &mut Page, alloc: Global, text: &[u8])
    requires { length text.now ≤ max_evidence }
{
    match read_bundle(alloc, text) {
        Ok(bundle) => print_text(page, write_bundle(alloc, &bundle)),
        Err(why) => print_unread(page, why),
    }
}

/// Prints the claims of a text of either version as they are read one after another, each as a text of version 2.
fn print_claims(page: &mut Page, alloc: Global, text: &[u8])
    requires { length text.now ≤ max_evidence }
{
    let mut unread = match Unread::of_text(text) {
        Ok(unread) => unread,
        Err(why) => return print_unread(page, why),
    };
    for _ in 0..unread.left {
        match unread.next_claim(alloc) {
            Ok(claim) => print_claim(page, alloc, claim),
            Err(why) => return print_unread(page, why),
        }
    }
    if let Err(why) = unread.finish() {
        print_unread(page, why);
    }
}

/// Prints a claim as a text of version 2.
fn print_claim(page: &mut Page, alloc: Global, claim: Body)
    requires { IsWellFormed (plain_body claim) }
{
    match claim.into_evidence(alloc) {
        Ok(evidence) => print_text(page, write_claim(alloc, &evidence)),
        Err(Memory) => page.out_of_memory(),
    }
}

/// Prints the text of version 2 of the claims of two texts.
pub fn print_joined(page: &mut Page, alloc: Global, first: &[u8], second: &[u8])
    requires first { length first.now ≤ max_evidence }
    requires second { length second.now ≤ max_evidence }
{
    let mut bundle = match read_bundle(alloc, first) {
        Ok(bundle) => bundle,
        Err(why) => return print_unread(page, why),
    };
    let more = match read_bundle(alloc, second) {
        Ok(more) => more,
        Err(why) => return print_unread(page, why),
    };
    match bundle.append(more) {
        Ok(()) => print_text(page, write_bundle(alloc, &bundle)),
        Err(Memory) => page.out_of_memory(),
    }
}
