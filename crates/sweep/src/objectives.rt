// Objectives with a weight for each, as few and as small as a sweep takes.
ghost use Rattle.std.specs.Prelude.{◌≡◌, ◌^◌, ◌<◌, true, false, ◌&&◌, ◌==◌, MatchOption};
ghost use Rattle.plans.specs.Plans.{horizon};
ghost use Rattle.sweep.specs.Gains.{counts, column_gain, column_gains};
ghost use Rattle.sweep.specs.Swept.{Asked, all_light, all_near, asked};

use mdp::MAX_COLUMNS;
use plans::{MAX_BOUND, MAX_OBJECTIVES, MAX_WEIGHT, Objective};
use std::array;

#[derive(Clone, Copy)]
pub(crate) struct WeightedObjectives<'a> {
    pub(crate) each: &'a [Objective],
    pub(crate) weights: &'a [u16],
    ghost asked: { Asked each.now weights.now },
}

// Whether an objective's rewards count at a step.
pub(crate) fn is_counted(objective: Objective, step: usize) -> bool
    ensures { result ≡ counts objective step }
{
    step < objective.bound
}

// Whether they do, and in a column.
fn is_counted_in(objective: Objective, step: usize, column: usize) -> bool
    ensures { result ≡ (objective.column == column && counts objective step) }
{
    objective.column == column && is_counted(objective, step)
}

fn are_light(weights: &[u16]) -> bool
    ensures { result ≡ all_light weights.now }
{
    weights.iter().all(|weight| *weight <= MAX_WEIGHT)
}

fn are_near(objectives: &[Objective]) -> bool
    ensures { result ≡ all_near objectives.now }
{
    objectives
        .iter()
        .all(|objective| objective.bound <= MAX_BOUND)
}

fn is_asked(objectives: &[Objective], weights: &[u16]) -> bool
    ensures { result ≡ asked objectives.now weights.now }
{
    objectives.len() <= MAX_OBJECTIVES
        && weights.len() == objectives.len()
        && are_light(weights)
        && are_near(objectives)
}

// The weights of a column's objectives that count at a step.
fn counted_weight(objectives: &[Objective], weights: &[u16], step: usize, column: usize) -> u16
    requires { column_gain weights.now objectives.now step column < 2 ^ 16 }
    ensures { result ≡ column_gain weights.now objectives.now step column }
{
    objectives
        .iter()
        .zip(weights)
        .filter(|(objective, _)| is_counted_in(**objective, step, column))
        .map(|(_, weight)| *weight)
        .sum()
}

impl<'a> WeightedObjectives<'a> {
    // None for more than four objectives, another number of weights, a weight above 1000 or a bound above 256.
    pub(crate) fn new(
        objectives: &'a [Objective],
        weights: &'a [u16],
    ) -> Option<WeightedObjectives<'a>>
        ensures { MatchOption result (asked objectives.now weights.now ≡ false) (λ taken. (asked objectives.now weights.now ≡ true) × (taken.each.now ≡ objectives.now) × (taken.weights.now ≡ weights.now)) }
    {
        if is_asked(objectives, weights) {
            Some(WeightedObjectives {
                each: objectives,
                weights,
            })
        } else {
            None
        }
    }

    fn column_gain(&self, step: usize, column: usize) -> u16
        ensures { result ≡ column_gain self.now.weights.now self.now.each.now step column }
    {
        counted_weight(self.each, self.weights, step, column)
    }

    // For each column, what a reward of 1 there earns at a step.
    pub(crate) fn column_gains(&self, step: usize) -> [u16; MAX_COLUMNS]
        ensures { result ≡ column_gains self.now.weights.now self.now.each.now step }
    {
        array::from_fn(|column| self.column_gain(step, column))
    }

    // The largest bound, 0 without objectives.
    pub(crate) fn horizon(&self) -> usize
        ensures { result ≡ horizon self.now.each.now }
    {
        self.each
            .iter()
            .map(|objective| objective.bound)
            .max()
            .unwrap_or(0)
    }
}
