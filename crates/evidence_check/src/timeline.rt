//! Whether ranks are a timeline that fits a net with some of its links.
ghost use Rattle.evidence_check.specs.Asked.{AreRisingLinks, CanBeAsked, chosen};
ghost use Rattle.evidence_check.specs.Demands.{AreDemands};
ghost use Rattle.evidence_check.specs.Refusals.{FirstBrokenLink, FirstBrokenPair, IsMisfit};
ghost use Rattle.evidence_format.specs.Numbers.{IsNumber};
ghost use Rattle.net_core.specs.Clashes.{Others};
ghost use Rattle.net_core.specs.Fits.{EveryLink, RanksFitWith};
ghost use Rattle.net_core.specs.Nets.{points};
ghost use Rattle.net_core.specs.Ranks.{AreEven, pairs_of};
ghost use Rattle.std.specs.List.{Contains};
ghost use Rattle.std.specs.Prelude.{IfErr, OnOk, length, ◌≡◌};

use crate::demands::Demands;
use crate::refusal::Reason;
use net_core::{Net, first_broken_link, first_broken_pair, first_unordered, keeps_link};

/// The links that a timeline is to keep.
#[derive(Clone, Copy)]
pub enum AskedLinks<'c> {
    /// All links of the net.
    All,
    /// The cited links but one of them.
    Others { cites: &'c [u32], own: u32 },
}

/// Ok where the ranks are a timeline that fits the net with the links that are asked, else the first reason why they are
/// none.
#[tactic(auto, using(net_core::proofs::RankLaws::pairs_length))]
pub fn fit(net: &Net, demands: &Demands, ranks: &[u32], asked: AskedLinks<'_>) -> Result<(), Reason>
    requires demands { AreDemands net.now demands.now }
    requires even { AreEven ranks.now }
    requires few { IsNumber (length (pairs_of ranks.now)) }
    requires cites { CanBeAsked net.now asked }
    ensures ok { OnOk result (RanksFitWith net.now (chosen asked.entry) ranks.now) }
    ensures err { IfErr result (IsMisfit net.now (chosen asked.entry) ranks.now) }
{
    if ranks.len() != 2 * net.intervals() as usize {
        return Err(Reason::Size {
            size: (ranks.len() / 2) as u32,
        });
    }
    if let Some(interval) = first_unordered(net, ranks) {
        return Err(Reason::Order { interval });
    }
    if let Some(link) = first_broken(net, demands, ranks, asked) {
        return Err(Reason::Link { link });
    }
    if let Some((from, to)) = first_out_of_order(net, demands, ranks) {
        return Err(Reason::Calendar { from, to });
    }
    Ok(())
}

/// The first of the links that are asked that does not hold.
fn first_broken(net: &Net, demands: &Demands, ranks: &[u32], asked: AskedLinks<'_>) -> Option<u32>
    requires demands { AreDemands net.now demands.now }
    requires size { length ranks.now ≡ points net.now }
    requires cites { CanBeAsked net.now asked }
    ensures { FirstBrokenLink net.now (chosen asked.entry) ranks.now result }
{
    match asked {
        AskedLinks::All => first_broken_of_all(net, demands, ranks),
        AskedLinks::Others { cites, own } => first_broken_cite(net, ranks, cites, own),
    }
}

/// The first of all links that does not hold. The links are searched only where there is one.
fn first_broken_of_all(net: &Net, demands: &Demands, ranks: &[u32]) -> Option<u32>
    requires demands { AreDemands net.now demands.now }
    requires size { length ranks.now ≡ points net.now }
    ensures { FirstBrokenLink net.now EveryLink ranks.now result }
{
    if demands.orders.are_kept(ranks) {
        return None;
    }
    first_broken_link(net, ranks)
}

/// The first of the cited links but one that does not hold.
fn first_broken_cite(net: &Net, ranks: &[u32], cites: &[u32], own: u32) -> Option<u32>
    requires size { length ranks.now ≡ points net.now }
    requires cites { AreRisingLinks net.now cites.now }
    ensures { FirstBrokenLink net.now (Others (Contains cites.now) own) ranks.now result }
{
    for cite in cites {
        if *cite != own && !keeps_link(net, ranks, *cite) {
            return Some(*cite);
        }
    }
    None
}

/// The first pair of points, by `from` and then by `to`, that are not in the order of the calendar. The pairs are searched
/// only where there is one.
fn first_out_of_order(net: &Net, demands: &Demands, ranks: &[u32]) -> Option<(u32, u32)>
    requires demands { AreDemands net.now demands.now }
    requires size { length ranks.now ≡ points net.now }
    ensures { FirstBrokenPair net.now ranks.now result }
{
    if demands.calendar.keeps(ranks) {
        return None;
    }
    first_broken_pair(net, ranks)
}
