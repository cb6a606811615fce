//! What a body of a text says.
ghost use Rattle.evidence_format.specs.View.{plain, plain_body};
ghost use Rattle.std.specs.Prelude.{◌≡◌, IfOk};

use crate::{Evidence, Timelines};
use net_core::{List, Memory, Walk};
use std::alloc::Global;

/// What a body of a text says, as it is read.
#[derive(Drop)]
pub enum Body {
    /// Evidence in the form that callers make it in.
    Whole(Evidence),
    /// A clash of which the spares stand end to end. In the other form they would take more memory than their text.
    Clash {
        /// The numbers of the links.
        cites: List<u32>,
        /// A closed walk over these links.
        walk: Walk,
        /// For each of these links, in their order, the ranks of a timeline in which the others hold.
        spares: Timelines,
    },
}

impl Body {
    /// The same in the form that callers make evidence in.
    ///
    /// # Errors
    ///
    /// Out of memory.
    pub fn into_evidence(self, alloc: Global) -> Result<Evidence, Memory>
        ensures { IfOk result (λ evidence. plain evidence ≡ plain_body self) }
    {
        match self {
            Body::Whole(evidence) => Ok(evidence),
            Body::Clash {
                cites,
                walk,
                spares,
            } => {
                let spares = spares.to_list(alloc)?;
                Ok(Evidence::Clash {
                    cites,
                    walk,
                    spares,
                })
            }
        }
    }
}
