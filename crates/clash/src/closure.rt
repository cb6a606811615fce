//! The closure of a net.
ghost use Rattle.clash.specs.Closures.{IsClosureOf, IsTableOf, IsUnlinked, ReportsClash};
ghost use Rattle.net_orders.specs.Orders.{AreFixed};
ghost use Rattle.clash.specs.declared.closure.CloseFault.TheVariants as faults;
ghost use Rattle.net_core.specs.Entailment.{HasNoTimeline};
ghost use Rattle.net_core.specs.Fits.{Fits};
ghost use Rattle.net_core.specs.Limits.{max_points};
ghost use Rattle.net_core.specs.Nets.{points};
ghost use Rattle.net_core.specs.Relations.{Timeline};
ghost use Rattle.order_closure.specs.Tables.{AreInRange, SatisfiesAll};
ghost use Rattle.std.specs.List.{All};
ghost use Rattle.std.specs.Prelude.{IfErr, IfNone, IfOk, IfSome, length, ◌<◌, ◌≤◌, ◌≡◌};

use crate::minimal::{Clash, clash_soon, clash_up_to};
use net_core::{Atom, Memory, Net};
use net_orders::{
    add_in_sequence, add_links, add_orders, all_orders, fixed_orders, points_on_cycles,
    schedule_of, sequence_of,
};
use order_closure::Closed;
use std::alloc::Global;
use std::error::Error;
use std::fmt;

/// Why there is no closure.
#[derive(Drop)]
pub enum CloseFault {
    /// No timeline fits the net: links that cannot all be true.
    Clash(Clash),
    /// Out of memory.
    Memory,
}

impl fmt::Debug for CloseFault {
    fn fmt<W: fmt::Write>(&self, f: &mut fmt::Formatter<W>) -> fmt::Result {
        write!(f, "{self}")
    }
}

impl fmt::Display for CloseFault {
    fn fmt<W: fmt::Write>(&self, f: &mut fmt::Formatter<W>) -> fmt::Result {
        f.write_str(match self {
            CloseFault::Clash(_) => "no timeline fits the net",
            CloseFault::Memory => "out of memory",
        })
    }
}

impl Error for CloseFault {}

impl From<Memory> for CloseFault {
    ghost from_gives = { λ _ e. e ≡ faults.Memory };

    fn from(_e: Memory) -> CloseFault {
        CloseFault::Memory
    }
}

/// The table of what is true of every timeline that fits the net, with two points for each interval.
///
/// # Errors
///
/// `Clash` comes exactly when no timeline fits. It is minimal, and proves itself.
pub fn close(alloc: Global, net: &Net) -> Result<Closed, CloseFault>
    ensures ok { IfOk result (IsClosureOf net.now) }
    ensures few { IfOk result (λ table. table.points ≤ max_points) }
    ensures fits { IfOk result (λ table. (t : Timeline) × Fits net.now t) }
    ensures err { IfErr result (ReportsClash net.now) }
{
    let table = table_of(alloc, net)?;
    // it is closed
    prove!(table.points() == 2 * net.intervals());
    Ok(table)
}

/// The same for those who need no clash, which takes much longer to find than that there is one: None comes exactly when no
/// timeline fits.
///
/// # Errors
///
/// Out of memory.
pub fn close_if_fits(alloc: Global, net: &Net) -> Result<Option<Closed>, Memory>
    ensures some { IfOk result (λ found. IfSome found (IsClosureOf net.now)) }
    ensures few { IfOk result (λ found. IfSome found (λ table. table.points ≤ max_points)) }
    ensures none { IfOk result (λ found. IfNone found (HasNoTimeline net.now)) }
{
    let points = 2 * net.intervals();
    let fixed = fixed_orders(alloc, net)?;
    let orders = all_orders(alloc, net, &fixed)?;
    let sequence = sequence_of(alloc, points, &orders)?;
    let schedule = schedule_of(alloc, points, &orders, &sequence)?;
    let Some(table) = closure_of(alloc, points, &orders, &schedule.numbers)? else {
        return Ok(None);
    };
    // it is closed
    prove!(table.points() == points);
    Ok(Some(table))
}

/// The table that is kept by exactly the timelines that fit the net, or a clash.
fn table_of(alloc: Global, net: &Net) -> Result<Closed, CloseFault>
    ensures ok { IfOk result (IsTableOf (points net.now) (Fits net.now)) }
    ensures err { IfErr result (ReportsClash net.now) }
{
    let fixed = fixed_orders(alloc, net)?;
    if let Some(table) = in_sequence(alloc, net, &fixed)? {
        return Ok(table);
    }
    by_links(alloc, net, &fixed)
}

/// The same, with all orders added in a sequence in which few rows change, or a clash that is found soon. None comes seldom,
/// and says nothing.
fn in_sequence(alloc: Global, net: &Net, fixed: &[Atom]) -> Result<Option<Closed>, CloseFault>
    requires { AreFixed net.now fixed.now }
    ensures ok { IfOk result (λ found. IfSome found (IsTableOf (points net.now) (Fits net.now))) }
    ensures err { IfErr result (ReportsClash net.now) }
{
    let points = 2 * net.intervals();
    let orders = all_orders(alloc, net, fixed)?;
    let sequence = sequence_of(alloc, points, &orders)?;
    let schedule = schedule_of(alloc, points, &orders, &sequence)?;
    let met = points_on_cycles(alloc, &orders, &schedule.components)?;
    if met.is_empty() {
        let table = closure_of(alloc, points, &orders, &schedule.numbers)?;
        return Ok(table);
    }
    let found = clash_soon(alloc, net, &met, fixed.len(), &orders, &sequence.numbers)?;
    match found {
        Some(clash) => Err(CloseFault::Clash(clash)),
        None => Ok(None),
    }
}

/// The table of what is true of every timeline that satisfies some orders, added in a sequence. None comes exactly when no
/// timeline satisfies them.
fn closure_of(
    alloc: Global,
    points: u32,
    orders: &[Atom],
    sequence: &[usize],
) -> Result<Option<Closed>, Memory>
    requires few { points ≤ max_points }
    requires in_range { AreInRange points orders.now }
    requires sequence { All (λ k. k < length orders.now) sequence.now }
    ensures some { IfOk result (λ found. IfSome found (IsTableOf points (SatisfiesAll orders.now))) }
    ensures none { IfOk result (λ found. IfNone found ((t : Timeline) → SatisfiesAll orders.now t → ⊥)) }
{
    let mut table = Closed::new(alloc, points)?;
    let Ok(()) = add_in_sequence(&mut table, orders, sequence) else {
        return Ok(None);
    };
    let Ok(()) = add_orders(&mut table, orders) else {
        return Ok(None);
    };
    Ok(Some(table))
}

/// The table that is kept by exactly the timelines that fit the net, the links added in their order, or a clash up to the
/// first of them that is denied.
fn by_links(alloc: Global, net: &Net, fixed: &[Atom]) -> Result<Closed, CloseFault>
    requires { AreFixed net.now fixed.now }
    ensures ok { IfOk result (IsTableOf (points net.now) (Fits net.now)) }
    ensures err { IfErr result (ReportsClash net.now) }
{
    let mut table = without_links(alloc, net, fixed)?;
    match add_links(&mut table, net) {
        Ok(()) => Ok(table),
        Err(first) => {
            let clash = clash_up_to(alloc, net, first.link)?;
            Err(CloseFault::Clash(clash))
        }
    }
}

/// The table of what spans and the calendar say. Some timeline always fits with these alone.
fn without_links(alloc: Global, net: &Net, fixed: &[Atom]) -> Result<Closed, Memory>
    requires { AreFixed net.now fixed.now }
    ensures { IfOk result (IsUnlinked net.now) }
{
    let mut table = Closed::new(alloc, 2 * net.intervals())?;
    let Ok(()) = add_orders(&mut table, fixed) else {
        unreachable!()
    };
    Ok(table)
}
