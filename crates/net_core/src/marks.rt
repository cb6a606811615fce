//! Marks of links: a flag for each, in the order of their numbers.
ghost use Rattle.net_core.specs.Walks.{GoesOver, Kept};
ghost use Rattle.net_core.specs.Steps.{link_of};
ghost use Rattle.std.specs.Prelude.{Some, length, ℕ, ◌<◌, ◌≡◌, ◌↔◌, ◌⊎◌};

use crate::Step;

/// Marks a link, where there is a flag for it.
pub fn mark_link(marks: &mut [bool], link: u32)
    ensures length { length marks.new ≡ length marks.old }
    ensures marked { (k : ℕ) → k < length marks.new → Kept marks.new k ↔ (Kept marks.old k ⊎ (k ≡ link)) }
{
    if (link as usize) < marks.len() {
        marks[link as usize] = true;
    }
}

/// Marks the links that steps go over, where there are flags for them.
pub fn mark_steps(marks: &mut [bool], steps: &[Step])
    ensures length { length marks.new ≡ length marks.old }
    ensures marked { (k : ℕ) → k < length marks.new → Kept marks.new k ↔ (Kept marks.old k ⊎ GoesOver steps.now k) }
{
    for step in steps {
        mark_step(marks, step);
    }
}

/// Marks the link that a step goes over, if it goes over one.
fn mark_step(marks: &mut [bool], step: &Step)
    ensures length { length marks.new ≡ length marks.old }
    ensures marked { (k : ℕ) → k < length marks.new → Kept marks.new k ↔ (Kept marks.old k ⊎ (link_of step.now ≡ Some k)) }
{
    if let Some(link) = step.link() {
        mark_link(marks, link);
    }
}
