//! Whether lines are a cycle whose sum is below 0.
ghost use Rattle.seconds_check.specs.Following.{LinesLeadTo, LinesStopAt};
ghost use Rattle.seconds_check.specs.Refusals.{IsNoCycle};
ghost use Rattle.seconds_core.specs.Constraints as spec;
ghost use Rattle.seconds_core.specs.Constraints.{IsConstraintWithin};
ghost use Rattle.seconds_core.specs.Cycles.{IsNegative};
ghost use Rattle.seconds_core.specs.Evidence.{max_lines};
ghost use Rattle.seconds_core.specs.declared.line.Constraint.{Constraint as ConstraintOf};
ghost use Rattle.std.specs.Int.{w128};
ghost use Rattle.std.specs.Prelude.{FitsSigned, IfErr, IfNone, IfOk, IfSome, OnOk, Some, length, ◌+ℤ◌, ◌<◌, ◌≡◌};

use crate::refusal::SecondsReason;
use seconds_core::{Constraint, Line, Timed, constraint_of};

/// Ok where the lines are a cycle whose sum is below 0, else the first reason why they are none.
pub fn check_cycle(timed: &Timed, lines: &[Line]) -> Result<(), SecondsReason>
    requires { length lines.now < max_lines }
    ensures ok { OnOk result (IsNegative timed.now lines.now) }
    ensures err { IfErr result (IsNoCycle timed.now lines.now) }
{
    let Some(first) = lines.first() else {
        return Err(SecondsReason::Sum);
    };
    let Some(constraint) = constraint_of(timed, *first) else {
        return Err(SecondsReason::Step { step: 0 });
    };
    let reached = match follow(timed, constraint.from, lines) {
        Ok(reached) => reached,
        Err(step) => return Err(SecondsReason::Step { step }),
    };
    if reached.at != constraint.from {
        return Err(SecondsReason::End);
    }
    if reached.sum >= 0 {
        return Err(SecondsReason::Sum);
    }
    Ok(())
}

/// Where lines lead, and the sum of their weights.
#[derive(Clone, Copy)]
struct LinesEnd {
    at: u32,
    sum: i128,
}

/// Where the lines lead from a point.
///
/// # Errors
///
/// The first line that does not go on.
fn follow(timed: &Timed, from: u32, lines: &[Line]) -> Result<LinesEnd, u32>
    requires { length lines.now < max_lines }
    ensures ok { IfOk result (LinesLeadTo timed.now from lines.now) }
    ensures err { IfErr result (LinesStopAt timed.now from lines.now) }
{
    let mut at = from;
    let mut sum: i128 = 0;
    let mut k = 0;
    for line in lines {
        let Some(next) = next_of(timed, at, *line) else {
            return Err(k);
        };
        at = next.to;
        sum = plus(sum, next.weight);
        k += 1;
    }
    Ok(LinesEnd { at, sum })
}

/// The sum with one more weight.
fn plus(sum: i128, weight: i64) -> i128
    requires { FitsSigned w128 (sum +ℤ weight) }
    ensures { result ≡ sum +ℤ weight }
{
    sum + i128::from(weight)
}

/// The constraint that a line names, where it begins at a point.
fn next_of(timed: &Timed, at: u32, line: Line) -> Option<Constraint>
    ensures some { IfSome result (λ next. spec.constraint_of timed.now line ≡ Some next) }
    ensures begins { IfSome result (λ next. next.from ≡ at) }
    ensures within { IfSome result (IsConstraintWithin timed.now) }
    ensures none { IfNone result ((next : ConstraintOf) → spec.constraint_of timed.now line ≡ Some next → next.from ≡ at → ⊥) }
{
    let next = constraint_of(timed, line)?;
    if next.from == at { Some(next) } else { None }
}
