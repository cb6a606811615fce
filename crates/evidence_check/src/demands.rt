//! What a net asks of each timeline, made once for several of them.
ghost use Rattle.evidence_check.specs.Demands.{AreDemands, AreNone};

use crate::calendar::Calendar;
use crate::orders::Orders;
use net_core::Net;

/// The orders that the links of a net are and its calendar, as a timeline is checked against them. They take no memory.
#[derive(Drop)]
pub struct Demands {
    pub orders: Orders,
    pub calendar: Calendar,
}

impl Demands {
    /// What is asked before a net is.
    pub fn new() -> Demands
        ensures { AreNone result }
    {
        Demands {
            orders: Orders::new(),
            calendar: Calendar::new(),
        }
    }

    /// Adds what a net asks, where nothing is asked yet. They are large, and so they are filled where they stand.
    pub fn add(&mut self, net: &Net)
        requires { AreNone self.old }
        ensures { AreDemands net.now self.new }
    {
        self.orders.push_links(net);
        self.calendar.push_points(net);
    }
}
