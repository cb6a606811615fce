//! Laws of walks: public functions that do nothing, each with a law as its contract.
ghost use Rattle.clash.specs.Closures.{HasOneClosure};
ghost use Rattle.clash.specs.Minimal.{IsAnswered};
ghost use Rattle.clash.specs.Walks.{ClashesHaveClosedWalks, OrdersAreAnswered, ShortWalks, WalksSayAll};
ghost use Rattle.net_core.specs.Nets.{IsNet, PlainNet};

/// Walks say all: if some timeline fits with a set of links, an order of two points holds in all that do exactly
/// if a walk over spans, the calendar and these links gives it.
pub fn walks_say_all()
    ensures { WalksSayAll }
{}

/// Clashes have closed walks: no timeline fits with a set of links exactly when a walk over spans, the calendar and
/// these links leads from a point to itself with a strict step. In the literature: a negative cycle.
pub fn clashes_have_closed_walks()
    ensures { ClashesHaveClosedWalks }
{}

/// Walks can be short: if there is a walk there is one of at most twice as many steps as there are points.
pub fn walks_can_be_short()
    ensures { ShortWalks }
{}

/// A net has a closure that is a closed table exactly when some timeline fits, and all closures of it have the same cells.
pub fn net_has_one_closure()
    ensures { (net : PlainNet) → IsNet net → HasOneClosure net }
{}

/// Every net has least ranks that fit, or a minimal clash with a short walk and a spare for each of its links.
pub fn net_is_answered()
    ensures { (net : PlainNet) → IsNet net → IsAnswered net }
{}

/// If some timeline fits a net, each order of two of its points has a short walk that proves it, or least ranks that
/// fit and in which it is false.
pub fn orders_are_answered()
    ensures { OrdersAreAnswered }
{}
