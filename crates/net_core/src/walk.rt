//! Walks from point to point.
ghost use Rattle.std.specs.Prelude.{[], ◌∷◌, ◌++◌, ◌≡◌, OnErr, OnOk};

use crate::{Memory, Step};
use std::alloc::Global;
use std::marker::Model;

/// Steps, one after another.
#[derive(Drop)]
pub struct Walk {
    steps: Vec<Step>,
}

impl Model for Walk {
    ghost use Rattle.net_core.specs.declared.step.Step.{Step};
    ghost use Rattle.std.specs.Prelude.{List as ListOf};

    ghost Value = { ListOf Step };

    ghost view = { λ a. a.steps.items };
}

impl Walk {
    /// No steps. It takes no memory.
    pub fn new(alloc: Global) -> Walk
        ensures { result ≡ [] }
    {
        Walk {
            steps: Vec::new(alloc),
        }
    }

    /// The walk of the steps of a `Vec`. It takes no memory.
    pub fn from_vec(steps: Vec<Step>) -> Walk
        ensures { result ≡ steps.items }
    {
        Walk { steps }
    }

    /// The steps, in order.
    pub fn as_slice(&self) -> &[Step]
        ensures { result.now ≡ self.now }
    {
        self.steps.as_slice()
    }

    /// Appends a step. After `Memory` the walk is unchanged.
    pub fn push(&mut self, step: Step) -> Result<(), Memory>
        ensures ok { OnOk result (self.new ≡ self.old ++ step ∷ []) }
        ensures err { OnErr result (self.new ≡ self.old) }
    {
        self.steps.push(step)?;
        Ok(())
    }
}
