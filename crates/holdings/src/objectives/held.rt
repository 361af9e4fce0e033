// The objectives that are held.
ghost use Rattle.std.specs.Prelude.{◌≡◌, ◌≤◌, [], ◌∷◌, ◌++◌, length, not, nat_lt, position};
ghost use Rattle.plans.specs.Plans.{target_sum};
ghost use Rattle.truth.specs.Dockets.{each_by, aimed};
ghost use Rattle.truth.specs.Calls.{small_target, allowed, draft_refusal, if_taken};
ghost use Rattle.few.specs.Views.{listed};
ghost use Rattle.verdict.specs.Answers.{told_draft, told_docket, told_list, answered};
ghost use Rattle.holdings.specs.Refusals.{targets_refusal, weights_refusal};
ghost use Rattle.holdings.specs.Views.{held};

use crate::objectives::Objectives;
use crate::sums::{scaled, total};
use fault::Cause;
use few::Few;
use plans::Objective;
use verdict::faults::{DocketCause, DocketFault, DraftCause, DraftFault};
use verdict::limits::{MAX_BOUND, MAX_OBJECTIVES, MAX_TARGET, MAX_WEIGHT};
use verdict::verdict::Weights;

fn is_target(target: i64) -> bool
    ensures { result ≡ small_target target }
{
    (-MAX_TARGET..=MAX_TARGET).contains(&target)
}

// Whether an objective is within the limits, over a model with some number of columns.
fn is_allowed(objective: Objective, columns: usize) -> bool
    ensures { result ≡ allowed columns objective }
{
    objective.column < columns
        && (1..=MAX_BOUND).contains(&objective.bound)
        && is_target(objective.target)
}

// The number of the first target that is not within the limits.
fn find_wrong_target(targets: &[i64]) -> Option<usize>
    ensures { result ≡ position (λ t. not (small_target t)) targets.now }
{
    targets.iter().position(|target| !is_target(*target))
}

// The number of the first weight that is not within the limit.
fn find_wrong_weight(weights: &[u16]) -> Option<usize>
    ensures { result ≡ position (λ w. nat_lt 1000 w) weights.now }
{
    weights.iter().position(|weight| *weight > MAX_WEIGHT)
}

fn check_targets(count: usize, targets: &[i64]) -> Result<(), DocketFault>
    ensures { told_docket result ≡ answered (targets_refusal count targets.now) tt }
{
    if targets.len() != count {
        return Err(DocketCause::Targets.at(targets.len()));
    }
    match find_wrong_target(targets) {
        Some(place) => Err(DocketCause::Targets.at(place)),
        None => Ok(()),
    }
}

// Objectives with new targets, one for each.
fn aim(objectives: &[Objective], targets: &[i64]) -> Few<Objective, MAX_OBJECTIVES>
    requires few { length objectives.now ≤ 4 }
    requires each { length targets.now ≡ length objectives.now }
    ensures { listed result ≡ each_by (aimed targets.now) objectives.now }
{
    let mut each = Few::empty(Objective::ZERO);
    for (objective, target) in objectives.iter().zip(targets) {
        let aimed = Objective {
            target: *target,
            ..*objective
        };
        each.push(aimed).unwrap();
    }
    each
}

impl Objectives {
    pub fn none() -> Objectives
        ensures { held result ≡ [] }
    {
        Objectives {
            each: Few::empty(Objective::ZERO),
        }
    }

    pub fn as_slice(&self) -> &[Objective]
        ensures { result.now ≡ held self.now }
    {
        self.each.as_slice()
    }

    // Takes one more objective, over a model with some number of columns, and answers its number.
    pub fn add(&mut self, objective: Objective, columns: usize) -> Result<usize, DraftFault>
        ensures answer { told_draft result ≡ answered (draft_refusal columns (held self.old) objective) (length (held self.old)) }
        ensures after { held self.new ≡ if_taken (draft_refusal columns (held self.old) objective) (held self.old ++ (objective ∷ [])) (held self.old) }
    {
        let number = self.each.len();
        if number == MAX_OBJECTIVES {
            return Err(DraftCause::Full.at(MAX_OBJECTIVES));
        }
        if !is_allowed(objective, columns) {
            return Err(DraftCause::Objective.at(number));
        }
        self.each.push(objective).unwrap();
        Ok(number)
    }

    // Puts in new targets, one for each objective.
    pub fn retarget(&mut self, targets: &[i64]) -> Result<(), DocketFault>
        ensures answer { told_docket result ≡ answered (targets_refusal (length (held self.old)) targets.now) tt }
        ensures after { held self.new ≡ if_taken (targets_refusal (length (held self.old)) targets.now) (each_by (aimed targets.now) (held self.old)) (held self.old) }
    {
        check_targets(self.each.len(), targets)?;
        self.each = aim(self.as_slice(), targets);
        Ok(())
    }

    // Takes weights that are one for each objective, within the limit and not all 0.
    pub fn check_weights(&self, weights: &[u16]) -> Result<Weights, DocketFault>
        ensures { told_list result ≡ answered (weights_refusal (length (held self.now)) weights.now) weights.now }
    {
        if weights.len() != self.each.len() {
            return Err(DocketCause::Weights.at(weights.len()));
        }
        if let Some(place) = find_wrong_weight(weights) {
            return Err(DocketCause::Weights.at(place));
        }
        if total(weights) == 0 {
            return Err(DocketCause::Weights.at(0));
        }
        Ok(Weights::of(weights))
    }

    // The sum of weight × target; a weight that is not there is 0.
    pub fn target_sum(&self, weights: &Weights) -> i64
        ensures { result ≡ target_sum (listed weights.now) (held self.now) }
    {
        let mut sum = 0;
        for (objective, weight) in self.as_slice().iter().zip(weights.as_slice()) {
            sum += scaled(*weight, objective.target);
        }
        // The proof has the bound; `try_from` would need an `unwrap`.
        sum as i64
    }
}
