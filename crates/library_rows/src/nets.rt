//! The net that a script draws, line by line.
ghost use Rattle.net_core.specs.Bounds.{AreOrdered};
ghost use Rattle.std.specs.Prelude.{IsTrue, ◌↔◌};

use crate::words::Words;
use net_core::{Bounds, List, MAX_INTERVALS, MAX_LINKS, Net, NetLink};
use std::alloc::Global;

/// The intervals and the links of a net, and which of the links the walks may go over.
#[derive(Drop)]
pub struct Drawn {
    bounds: Vec<Bounds>,
    links: List<NetLink>,
    pub keep: Vec<bool>,
}

impl Drawn {
    /// A net of no intervals.
    pub fn new(alloc: Global) -> Drawn {
        Drawn {
            bounds: Vec::new(alloc),
            links: List::new(alloc),
            keep: Vec::new(alloc),
        }
    }

    /// Takes what a line says of the net.
    pub fn say(&mut self, alloc: Global, word: &str, mut words: Words<'_>) -> Option<()> {
        match word {
            "net" => self.begin(alloc, words.number()?),
            "exact" => self.set(words.number()?, exact(&mut words)?),
            "within" => self.set(words.number()?, within(&mut words)?),
            "link" => self.link(&mut words),
            _ => self.leave_out(words.number()?),
        }
    }

    /// Begins a net of this number of intervals, of which the calendar says nothing.
    fn begin(&mut self, alloc: Global, intervals: u32) -> Option<()> {
        if intervals > MAX_INTERVALS {
            return None;
        }
        self.bounds = vec![in alloc; Bounds::Free; intervals as usize].ok()?;
        self.links = List::new(alloc);
        self.keep.clear();
        Some(())
    }

    fn set(&mut self, interval: u32, bounds: Bounds) -> Option<()> {
        let place = self.bounds.get_mut(interval as usize)?;
        *place = bounds;
        Some(())
    }

    fn link(&mut self, words: &mut Words<'_>) -> Option<()> {
        let a = words.number()?;
        let rel = words.relation()?;
        let b = words.number()?;
        self.links.push(NetLink { a, rel, b }).ok()?;
        self.keep.push(true).ok()
    }

    /// Walks do not go over this link.
    fn leave_out(&mut self, link: u32) -> Option<()> {
        let place = self.keep.get_mut(link as usize)?;
        *place = false;
        Some(())
    }

    /// The net, if it is one.
    pub fn net(&self, alloc: Global) -> Option<Net> {
        let bounds = self.bounds.as_slice();
        let links = self.links.as_slice();
        let count = bounds.len();
        if count > MAX_INTERVALS as usize || links.len() > MAX_LINKS as usize {
            return None;
        }
        let are_ordered = bounds.iter().all(is_ordered);
        let are_links = links.iter().all(|link| (link.a as usize) < count
            && (link.b as usize) < count);
        if !are_ordered || !are_links {
            return None;
        }
        let bounds = Vec::from_slice(alloc, bounds).ok()?;
        let links = Vec::from_slice(alloc, links).ok()?;
        Some(Net::new(List::from_vec(bounds), List::from_vec(links)))
    }
}

fn exact(words: &mut Words<'_>) -> Option<Bounds> {
    let lo = words.second()?;
    let hi = words.second()?;
    Some(Bounds::Exact { lo, hi })
}

fn within(words: &mut Words<'_>) -> Option<Bounds> {
    let lo = words.second()?;
    let hi = words.second()?;
    Some(Bounds::Within { lo, hi })
}

fn is_ordered(bounds: &Bounds) -> bool
    ensures { IsTrue result ↔ AreOrdered bounds.now }
{
    match *bounds {
        Bounds::Exact { lo, hi } => lo < hi,
        Bounds::Within { lo, hi } => lo < hi,
        Bounds::Free => true,
    }
}
