//! Writing evidence.
ghost use Rattle.evidence_format.specs.Bundles.{AreBodies, AreClaims, IsBundleText, IsClaimText, IsCount, bundle_line, claims_line};
ghost use Rattle.evidence_format.specs.Evidence as lines;
ghost use Rattle.evidence_format.specs.Evidence.{AreRanks, IsText, IsWellFormed, PlainEvidence, first_line};
ghost use Rattle.line_texts.specs.Numbers.{IsNumber};
ghost use Rattle.line_texts.specs.Lines.{last_line};
ghost use Rattle.evidence_format.specs.View.{plain};
ghost use Rattle.evidence_format.specs.Written.{body_bytes, timeline_bytes, walk_bytes};
ghost use Rattle.net_core.specs.Ranks.{pairs_of};
ghost use Rattle.std.specs.List.{All, flat_map};
ghost use Rattle.std.specs.Prelude.{◌≡◌, ◌<◌, ◌^◌, ◌+◌, ◌++◌, length, map, IfOk, List as ListOf, OnOk};

use crate::{Bodies, Bundle, Evidence};
use line_texts::{push_one, push_relation, push_two};
use net_core::{List, Memory, Ranks, Rel, Step, Walk};
use std::alloc::{AllocError, Global};
use std::slice;

/// The text of well-formed evidence.
///
/// # Errors
///
/// Out of memory.
pub fn write_evidence(alloc: Global, evidence: &Evidence) -> Result<List<u8>, Memory>
    requires { IsWellFormed (plain evidence.now) }
    ensures { IfOk result (λ out. IsText (plain evidence.now) out) }
{
    Ok(List::from_vec(text_bytes(alloc, evidence)?))
}

/// The text of version 2 of one claim, which is well-formed evidence.
///
/// # Errors
///
/// Out of memory.
pub fn write_claim(alloc: Global, evidence: &Evidence) -> Result<List<u8>, Memory>
    requires { IsWellFormed (plain evidence.now) }
    ensures { IfOk result (λ out. IsClaimText (plain evidence.now) out) }
{
    Ok(List::from_vec(bundle_bytes(alloc, slice::from_ref(evidence))?))
}

/// The text of version 2 of well-formed claims.
///
/// # Errors
///
/// Out of memory.
pub fn write_bundle(alloc: Global, bundle: &Bundle) -> Result<List<u8>, Memory>
    requires { All IsWellFormed (map plain bundle.now) }
    ensures { IfOk result (λ out. IsBundleText (map plain bundle.now) out) }
{
    Ok(List::from_vec(bundle_bytes(alloc, bundle.as_slice())?))
}

/// The text of version 2 of the claims with these bodies.
///
/// # Errors
///
/// Out of memory.
pub fn write_bodies(alloc: Global, bodies: Bodies<'_>) -> Result<List<u8>, Memory>
    ensures { IfOk result (λ out. (es : ListOf PlainEvidence) → AreClaims es → AreBodies es bodies.entry → IsBundleText es out) }
{
    Ok(List::from_vec(joined_bytes(alloc, bodies.count, bodies.text, b"")?))
}

/// The text of version 2 of the claims with these bodies, and after them those with the other ones.
///
/// # Errors
///
/// Out of memory.
pub fn write_both(alloc: Global, first: Bodies<'_>, second: Bodies<'_>) -> Result<List<u8>, Memory>
    requires { first.count + second.count < 2 ^ 32 }
    ensures { IfOk result (λ out. (es ds : ListOf PlainEvidence) → AreClaims (es ++ ds) → AreBodies es first.entry → AreBodies ds second.entry → IsBundleText (es ++ ds) out) }
{
    Ok(List::from_vec(joined_bytes(alloc, first.count + second.count, first.text, second.text)?))
}

/// The text of version 2 of this number of claims, by the bodies of the first ones and those of the others.
fn joined_bytes(
    alloc: Global,
    count: u32,
    first: &[u8],
    second: &[u8],
) -> Result<Vec<u8>, AllocError>
    ensures { IfOk result (λ out. out.items ≡ bundle_line ++ (claims_line count ++ (first.now ++ (second.now ++ last_line)))) }
{
    let mut out = opening_bytes(alloc, count)?;
    out.extend_from_slice(first)?;
    out.extend_from_slice(second)?;
    out.extend_from_slice(b"end\n")?;
    Ok(out)
}

/// The lines of version 2 before the bodies of this number of claims.
fn opening_bytes(alloc: Global, count: u32) -> Result<Vec<u8>, AllocError>
    ensures { IfOk result (λ out. out.items ≡ bundle_line ++ claims_line count) }
{
    let mut out = Vec::from_slice(alloc, b"tml-evidence 2\n")?;
    push_one(&mut out, b"claims ", count)?;
    Ok(out)
}

fn text_bytes(alloc: Global, evidence: &Evidence) -> Result<Vec<u8>, AllocError>
    requires { IsWellFormed (plain evidence.now) }
    ensures { IfOk result (λ out. out.items ≡ first_line ++ (body_bytes (plain evidence.now) ++ last_line)) }
{
    let mut out = Vec::from_slice(alloc, b"tml-evidence 1\n")?;
    push_body(&mut out, evidence)?;
    out.extend_from_slice(b"end\n")?;
    Ok(out)
}

fn bundle_bytes(alloc: Global, claims: &[Evidence]) -> Result<Vec<u8>, AllocError>
    requires good { All IsWellFormed (map plain claims.now) }
    requires count { IsCount (length claims.now) }
    ensures { IfOk result (λ out. out.items ≡ bundle_line ++ (claims_line (length claims.now) ++ (flat_map body_bytes (map plain claims.now) ++ last_line))) }
{
    let mut out = opening_bytes(alloc, claims.len() as u32)?;
    push_bodies(&mut out, claims)?;
    out.extend_from_slice(b"end\n")?;
    Ok(out)
}

fn push_bodies(out: &mut Vec<u8>, claims: &[Evidence]) -> Result<(), AllocError>
    requires { All IsWellFormed (map plain claims.now) }
    ensures { OnOk result (out.new.items ≡ out.old.items ++ flat_map body_bytes (map plain claims.now)) }
{
    for evidence in claims {
        push_body(out, evidence)?;
    }
    Ok(())
}

/// Appends what stands between the first line and the last one.
fn push_body(out: &mut Vec<u8>, evidence: &Evidence) -> Result<(), AllocError>
    requires { IsWellFormed (plain evidence.now) }
    ensures { OnOk result (out.new.items ≡ out.old.items ++ body_bytes (plain evidence.now)) }
{
    match evidence {
        Evidence::Timeline { ranks } => push_timeline(out, ranks),
        Evidence::Entails { a, rel, b, walks } => {
            push_relation(out, b"entails ", *a, *rel, *b)?;
            push_walks(out, walks.as_slice())
        }
        Evidence::Counter { a, rel, b, ranks } => {
            push_relation(out, b"counter ", *a, *rel, *b)?;
            push_timeline(out, ranks)
        }
        Evidence::Clash {
            cites,
            walk,
            spares,
        } => {
            push_one(out, b"clash ", cites.as_slice().len() as u32)?;
            push_cites(out, cites.as_slice())?;
            push_walk(out, walk)?;
            push_timelines(out, spares.as_slice())
        }
    }
}

fn push_timelines(out: &mut Vec<u8>, timelines: &[Ranks]) -> Result<(), AllocError>
    requires { All AreRanks (map pairs_of timelines.now) }
    ensures { OnOk result (out.new.items ≡ out.old.items ++ flat_map timeline_bytes (map pairs_of timelines.now)) }
{
    for ranks in timelines {
        push_timeline(out, ranks)?;
    }
    Ok(())
}

/// Appends the lines of a timeline, as evidence has them: how many intervals there are, and the ranks of each.
pub fn push_timeline(out: &mut Vec<u8>, ranks: &Ranks) -> Result<(), AllocError>
    requires { IsNumber (length (pairs_of ranks.now)) }
    ensures { OnOk result (out.new.items ≡ out.old.items ++ timeline_bytes (pairs_of ranks.now)) }
{
    push_one(out, b"timeline ", ranks.intervals() as u32)?;
    push_ranks(out, ranks.as_slice())
}

fn push_ranks(out: &mut Vec<u8>, ranks: &[u32]) -> Result<(), AllocError>
    ensures { OnOk result (out.new.items ≡ out.old.items ++ flat_map lines.at_line (pairs_of ranks.now)) }
{
    let mut rest = ranks;
    while let [start, finish, after @ ..] = rest {
        push_two(out, b"at ", *start, *finish)?;
        rest = after;
    }
    Ok(())
}

fn push_walks(out: &mut Vec<u8>, walks: &[Walk]) -> Result<(), AllocError>
    requires { All (λ steps. IsNumber (length steps)) walks.now }
    ensures { OnOk result (out.new.items ≡ out.old.items ++ flat_map walk_bytes walks.now) }
{
    for walk in walks {
        push_walk(out, walk)?;
    }
    Ok(())
}

fn push_walk(out: &mut Vec<u8>, walk: &Walk) -> Result<(), AllocError>
    requires { IsNumber (length walk.now) }
    ensures { OnOk result (out.new.items ≡ out.old.items ++ walk_bytes walk.now) }
{
    let steps = walk.as_slice();
    push_one(out, b"walk ", steps.len() as u32)?;
    push_steps(out, steps)
}

fn push_steps(out: &mut Vec<u8>, steps: &[Step]) -> Result<(), AllocError>
    ensures { OnOk result (out.new.items ≡ out.old.items ++ flat_map lines.step_line steps.now) }
{
    for step in steps {
        push_step(out, *step)?;
    }
    Ok(())
}

fn push_cites(out: &mut Vec<u8>, cites: &[u32]) -> Result<(), AllocError>
    ensures { OnOk result (out.new.items ≡ out.old.items ++ flat_map lines.cite_line cites.now) }
{
    for link in cites {
        push_one(out, b"cite ", *link)?;
    }
    Ok(())
}

fn push_step(out: &mut Vec<u8>, step: Step) -> Result<(), AllocError>
    ensures { OnOk result (out.new.items ≡ out.old.items ++ lines.step_line step) }
{
    match step {
        Step::Link { link, atom } => push_two(out, b"via ", link, atom),
        Step::Span { interval } => push_one(out, b"span ", interval),
        Step::Calendar { from, to } => push_two(out, b"calendar ", from, to),
    }
}
