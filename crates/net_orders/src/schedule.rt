//! A sequence of orders in which each of them counts once: for ranks that rise along them, and for tables that they are added to.
ghost use Rattle.net_orders.specs.Sequence.{IsSchedule, IsSequence};
ghost use Rattle.order_closure.specs.Tables.{AreInRange};
ghost use Rattle.std.specs.List.{All};
ghost use Rattle.std.specs.Prelude.{IfOk, OnOk, length, ◌<◌};

use crate::components::{flood, meet, turned};
use crate::sequence::{Leaving, Sequence};
use net_core::{Atom, Memory};
use std::alloc::Global;

/// Numbers of orders in a sequence that serves, and the strong components of the orders.
#[derive(Drop)]
pub struct Schedule {
    pub numbers: Vec<usize>,
    /// For each point that an order leaves its component, by the point of it that the search left last.
    pub components: Vec<Option<usize>>,
}

/// The numbers of orders that say what all say, in a sequence by which, from the last back, ranks rise as far as they must in
/// one pass, unless a strict order lies within a strong component of the orders; and by which, from the first on, hardly a row
/// of a table is raised more than once. The orders that leave a component come after all orders from where they lead. Within
/// one, orders lead from its first point to each other point; after these a tree of orders leads from each point back to the
/// first one, the nearest first. Others that lead back within a component follow from these. It takes time linear in the points
/// and orders. Nothing rests on the sequence but how soon ranks fit or rows are whole.
///
/// # Errors
///
/// Out of memory.
pub fn schedule_of(
    alloc: Global,
    points: u32,
    orders: &[Atom],
    sequence: &Sequence,
) -> Result<Schedule, Memory>
    requires in_range { AreInRange points orders.now }
    requires sequence { IsSequence points orders.now sequence.now }
    ensures { IfOk result (IsSchedule points orders.now) }
{
    let turned = turned(alloc, points as usize, orders)?;
    let entering = Leaving::new(alloc, points as usize, &turned)?;
    let mut components = vec![in alloc; None; points as usize]?;
    let mut met = Vec::new(alloc);
    let mut inward = Vec::new(alloc);
    let mut numbers = Vec::new(alloc);
    for number in sequence.numbers.iter().rev() {
        let point = orders[*number].from as usize;
        meet(&mut components, point, point, &mut met)?;
        flood(
            &entering,
            &turned,
            point,
            &mut components,
            &mut met,
            &mut inward,
        )?;
        inward.reverse();
        numbers.append(&mut inward)?;
        push_onward(sequence, orders, *number, &mut numbers)?;
    }
    numbers.reverse();
    Ok(Schedule {
        numbers,
        components,
    })
}

/// Appends the number of an order, unless the order leads back.
fn push_onward(
    sequence: &Sequence,
    orders: &[Atom],
    number: usize,
    numbers: &mut Vec<usize>,
) -> Result<(), Memory>
    requires number { number < length orders.now }
    requires in_range { AreInRange (length sequence.now.left.items) orders.now }
    requires numbers { All (λ k. k < length orders.now) numbers.old.items }
    ensures { OnOk result (All (λ k. k < length orders.now) numbers.new.items) }
{
    if sequence.leads_back(orders[number]) {
        return Ok(());
    }
    numbers.push(number)?;
    Ok(())
}
