// The backward sweep: the highest weighted reward that a model gives over a bounded number of steps.
#![tactic(auto)]

ghost use Rattle.std.specs.Prelude.{◌≡◌, ◌+◌, ◌*◌, ◌≤◌, length, take};
ghost use Rattle.sweep.specs.Limits.{max_worth};
ghost use Rattle.sweep.specs.Steps.{Small};
ghost use Rattle.sweep.specs.Swept.{stepped, swept, answer};

mod objectives;
mod step;

use crate::objectives::WeightedObjectives;
use crate::step::Step;
use blend::Blend;
use mdp::Model;
pub use plans::{MAX_BOUND, MAX_OBJECTIVES, MAX_WEIGHT};
use plans::{Objective, Row};

// From the rows of the step after it in the first half, those of a step; the former move to the second half.
fn sweep_step<M: Model, U: Blend, D: Blend>(
    model: &M,
    objectives: WeightedObjectives,
    step: usize,
    rows: &mut [Row],
)
    requires room { 2 * length (M.Model.table model.now).states ≤ length rows.old }
    requires small { Small max_worth (take (length (M.Model.table model.now).states) rows.old) }
    ensures { rows.new ≡ stepped U.Blend.mean D.Blend.mean (M.Model.table model.now) objectives.entry.each.now objectives.entry.weights.now step rows.old }
{
    let states = model.states();
    rows.copy_within(0..states, states);
    let (here, rest) = rows.split_at_mut(states);
    let from = Step {
        model,
        objectives,
        gains: objectives.column_gains(step),
        step,
        divisor: model.divisor(),
        next: &rest[..states],
    };
    from.write_rows::<U, D>(here);
}

// Fills `rows` with those of step 0 and, after them, those of step 1, and answers the first state's row at step 0.
// Refuses more than four objectives, another number of weights, a weight above 1000, a bound above 256, and fewer rows
// than two for each state; the rows then stay as they are.
pub fn sweep<M: Model, U: Blend, D: Blend>(
    model: &M,
    objectives: &[Objective],
    weights: &[u16],
    rows: &mut [Row],
) -> Option<Row>
    ensures rows { rows.new ≡ swept U.Blend.mean D.Blend.mean (M.Model.table model.now) objectives.now weights.now rows.old }
    ensures answer { result ≡ answer U.Blend.mean D.Blend.mean (M.Model.table model.now) objectives.now weights.now rows.old }
{
    let objectives = WeightedObjectives::new(objectives, weights)?;
    let states = model.states();
    if rows.len() < 2 * states {
        return None;
    }
    rows[..2 * states].fill(Row::ZERO);
    for step in (0..objectives.horizon()).rev() {
        sweep_step::<M, U, D>(model, objectives, step, rows);
    }
    Some(rows[model.first()])
}
