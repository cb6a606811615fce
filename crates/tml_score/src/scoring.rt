//! Scores of one annotation against another.
ghost use Rattle.std.specs.Prelude.{IfOk, IsTrue, length, ◌<◌, ◌≡◌, ◌↔◌};
ghost use Rattle.tml_refs.specs.Documents.{IsDocument};
ghost use Rattle.tml_score.specs.Scores.{AreMatched, AreScores, IsClosedOf};
ghost use Rattle.tml_score.specs.Scoring.{ArePartners, ArePartnersWithin, EntailsBetween, annotation_of, annotated_table};

use crate::reducing::reduced_by;
use derive_rel::entailed;
use net_core::{MAX_INTERVALS, MAX_LINKS, Memory, Net, NetLink};
use order_closure::Closed;
use std::alloc::Global;
use tml_refs::Document;

/// How much of a document follows from a key, and how much of the key from the document, in links that stay when those
/// that follow from others are left out. Precision is `matched` of `doc_links`, and recall is `found` of `key_links`.
#[derive(Clone, Copy)]
pub struct Scores {
    pub matched: u32,
    pub doc_links: u32,
    pub found: u32,
    pub key_links: u32,
}

/// A document, with its net and the closure of that.
#[derive(Clone, Copy)]
struct Annotated<'a, 's> {
    pub document: &'a Document<'s>,
    pub net: &'a Net,
    pub table: &'a Closed,
}

/// How many links of an annotation stay, and how many of these follow in another annotation.
#[derive(Clone, Copy)]
struct Tally {
    links: u32,
    matched: u32,
}

/// The scores of a document against a key, each with its net and the closure of that.
///
/// # Errors
///
/// Out of memory.
pub fn score(
    alloc: Global,
    doc: &Document<'_>,
    doc_net: &Net,
    doc_closed: &Closed,
    key: &Document<'_>,
    key_net: &Net,
    key_closed: &Closed,
) -> Result<Scores, Memory>
    requires doc { IsClosedOf (record { contents = doc.now; net = doc_net.now }) doc_closed.now }
    requires key { IsClosedOf (record { contents = key.now; net = key_net.now }) key_closed.now }
    ensures { IfOk result (AreScores (record { contents = doc.now; net = doc_net.now }) (record { contents = key.now; net = key_net.now })) }
{
    let doc = Annotated {
        document: doc,
        net: doc_net,
        table: doc_closed,
    };
    let key = Annotated {
        document: key,
        net: key_net,
        table: key_closed,
    };
    let precision = matched(alloc, doc, key)?;
    let recall = matched(alloc, key, doc)?;
    Ok(Scores {
        matched: precision.matched,
        doc_links: precision.links,
        found: recall.matched,
        key_links: recall.links,
    })
}

/// How many links of an annotation stay, and how many of these follow in another one.
fn matched(alloc: Global, own: Annotated<'_, '_>, other: Annotated<'_, '_>) -> Result<Tally, Memory>
    requires own { IsClosedOf (annotation_of own) (annotated_table own) }
    requires other { IsClosedOf (annotation_of other) (annotated_table other) }
    ensures { IfOk result (λ found. AreMatched (annotation_of own.entry) (annotation_of other.entry) found.links found.matched) }
{
    // so few that the counts fit
    prove!(own.net.links() <= MAX_LINKS);
    prove!(other.net.links() <= MAX_LINKS);
    let reduced = reduced_by(alloc, own.net, own.table)?;
    let partners = partners_in(alloc, own.document, other.document)?;
    let mut matched = 0;
    for link in reduced.as_slice() {
        if follows_between(other.table, &partners, own.net.link(*link)) {
            matched += 1;
        }
    }
    Ok(Tally {
        links: reduced.as_slice().len() as u32,
        matched,
    })
}

/// For each interval of a document the number of the one in another that has its name, if there is one.
fn partners_in(
    alloc: Global,
    own: &Document<'_>,
    other: &Document<'_>,
) -> Result<Vec<Option<u32>>, Memory>
    ensures own { IsDocument own.now }
    ensures other { IsDocument other.now }
    ensures partners { IfOk result (λ partners. ArePartners own.now.intervals other.now.intervals partners.items) }
{
    // no two of its intervals have one name
    prove!(other.intervals() <= MAX_INTERVALS);
    let mut partners = Vec::new(alloc);
    for i in 0..own.intervals() {
        let partner = other.index_of(own.interval(i).name());
        partners.push(partner)?;
    }
    Ok(partners)
}

/// Whether the relation of a link follows between the partners of its intervals, by the closure of their net.
fn follows_between(table: &Closed, partners: &[Option<u32>], link: NetLink) -> bool
    requires a { link.a < length partners.now }
    requires b { link.b < length partners.now }
    requires partners { ArePartnersWithin table.now.points partners.now }
    ensures { IsTrue result ↔ EntailsBetween table.now partners.now link }
{
    match (partners[link.a as usize], partners[link.b as usize]) {
        (Some(a), Some(b)) => entailed(table, a, b).has(link.rel),
        _ => false,
    }
}
