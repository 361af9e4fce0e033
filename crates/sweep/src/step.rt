// One step of a sweep: from the rows of the step after it, those of its own.
ghost use Rattle.std.specs.Prelude.{◌≡◌, ◌+◌, ◌*◌, ◌≤◌, length, map, ◌+ℤ◌, ◌*ℤ◌, pos, slice_index_or, if◌then◌else◌, nat_lt, unsigned_abs};
ghost use Rattle.std.specs.List.{range_with_len};
ghost use Rattle.plans.specs.Plans.{no_branch, earns, earns_by};
ghost use Rattle.blend.specs.Running.{MayAdd, MayFinish};
ghost use Rattle.sweep.specs.Limits.{max_earned, max_worth};
ghost use Rattle.sweep.specs.Gains.{column_gains};
ghost use Rattle.sweep.specs.Steps.{earned, plain, padded, Usual, Small};

use crate::objectives::{WeightedObjectives, is_counted};
use blend::Blend;
use mdp::{MAX_COLUMNS, Model, WholeBranch};
use plans::{MAX_OBJECTIVES, Objective, Row};

// Grains to a unit of reward.
const GRAINS: i64 = 65536;

const NO_BRANCH: WholeBranch = WholeBranch {
    weight: 0,
    next: 0,
    rewards: [0; MAX_COLUMNS],
};

fn gain_times(gain: u16, reward: i16) -> i64
    ensures value { result ≡ pos gain *ℤ reward }
    ensures size { unsigned_abs result ≤ 65535 * 32768 }
{
    i64::from(gain) * i64::from(reward)
}

// The products are written out: a loop over the columns would be no shorter, and a bound would go with its sum. A model's
// third and fourth columns mostly have no gain.
fn earned_by(gains: [u16; MAX_COLUMNS], rewards: [i16; MAX_COLUMNS]) -> i64
    ensures { result ≡ earned gains rewards }
{
    let low = gain_times(gains[0], rewards[0]) + gain_times(gains[1], rewards[1]);
    if u32::from(gains[2]) + u32::from(gains[3]) == 0 {
        return low;
    }
    low + gain_times(gains[2], rewards[2]) + gain_times(gains[3], rewards[3])
}

// What a branch earns for an objective at a step.
fn reward_of(objective: Objective, step: usize, branch: WholeBranch) -> i64
    ensures { result ≡ earns objective step (plain branch) }
{
    if is_counted(objective, step) {
        i64::from(branch.rewards.get(objective.column).copied().unwrap_or(0))
    } else {
        0
    }
}

// An amount of rewards in grains, onto what the next state is worth.
fn grains_onto(worth: i64, amount: i64) -> i64
    requires { (unsigned_abs worth ≤ max_worth) × (unsigned_abs amount ≤ max_earned) }
    ensures { result ≡ worth +ℤ pos 65536 *ℤ amount }
{
    worth + GRAINS * amount
}

// What a step is made from: among it the gains of the columns, and the rows of the step after it.
#[derive(Drop)]
pub(crate) struct Step<'a, 'b, M: Model> {
    pub(crate) model: &'a M,
    pub(crate) objectives: WeightedObjectives<'a>,
    pub(crate) gains: [u16; MAX_COLUMNS],
    pub(crate) step: usize,
    pub(crate) divisor: u16,
    pub(crate) next: &'b [Row],
    ghost gained: { gains ≡ column_gains objectives.weights.now objectives.each.now step },
    ghost divided: { divisor ≡ (M.Model.table model.now).divisor },
    ghost whole: { length next.now ≡ length (M.Model.table model.now).states },
    ghost small: { Small max_worth next.now },
}

impl<M: Model> Step<'_, '_, M> {
    ghost use Rattle.sweep.specs.Made.{choice_of, ceiling_after, part_after, ceiling_of, parts_of, best_of, row_of};

    // A model is asked by number and lends no slice: its choices and branches are counted.
    fn branch_count(&self, state: usize, choice: usize) -> usize
        ensures { result ≡ length (choice_of self.now state choice) }
    {
        self.model.branches(state, choice).unwrap_or(0)
    }

    fn branch_at(&self, state: usize, choice: usize, branch: usize) -> WholeBranch
        ensures read { result ≡ padded (slice_index_or (choice_of self.now state choice) branch no_branch) }
        ensures usual { Usual (length self.now.next.now) result }
    {
        self.model
            .branch(state, choice, branch)
            .unwrap_or(NO_BRANCH)
    }

    // What a branch earns for all objectives by their weights.
    fn weighted_reward(&self, branch: WholeBranch) -> i64
        ensures { result ≡ earns_by self.now.objectives.weights.now self.now.objectives.each.now self.now.step (plain branch) }
    {
        earned_by(self.gains, branch.rewards)
    }

    // The ceiling of the next state, with what the branch earns. `Usual` says that its row is there: a type for a branch
    // with its row would serve this method and the next alone.
    fn ceiling_after(&self, branch: WholeBranch) -> i64
        requires { Usual (length self.now.next.now) branch }
        ensures { result ≡ ceiling_after self.now (plain branch) }
    {
        let reward = self.weighted_reward(branch);
        grains_onto(self.next[branch.next].ceiling, reward)
    }

    // A part of the next state, with what the branch earns for its objective; 0 where there is no such objective.
    fn part_after(&self, branch: WholeBranch, part: usize) -> i64
        requires { Usual (length self.now.next.now) branch }
        ensures { result ≡ part_after self.now part (plain branch) }
    {
        if part >= self.objectives.each.len() {
            return 0;
        }
        let reward = reward_of(self.objectives.each[part], self.step, branch);
        grains_onto(self.next[branch.next].parts[part], reward)
    }

    fn choice_ceiling<U: Blend>(&self, state: usize, choice: usize) -> i64
        ensures { result ≡ ceiling_of self.now U.Blend.mean state choice }
    {
        let mut running = U::start();
        for index in 0..self.branch_count(state, choice) {
            let branch = self.branch_at(state, choice, index);
            let amount = self.ceiling_after(branch);
            running = U::add(running, branch.weight, amount);
        }
        U::finish(running, self.divisor)
    }

    fn plus_part<D: Blend>(
        &self,
        running: D::Running,
        branch: WholeBranch,
        part: usize,
    ) -> D::Running
        requires usual { Usual (length self.now.next.now) branch }
        requires room { MayAdd D.Blend.after running branch.weight (part_after self.now part (plain branch)) }
        ensures { result ≡ D.Blend.more running branch.weight (part_after self.now part (plain branch)) }
    {
        let amount = self.part_after(branch, part);
        D::add(running, branch.weight, amount)
    }

    fn part_from<D: Blend>(&self, running: D::Running, part: usize) -> i64
        requires { MayFinish D.Blend.after running self.now.divisor }
        ensures { result ≡ (if nat_lt part (length self.now.objectives.each.now) then D.Blend.outcome running self.now.divisor else pos 0) }
    {
        if part < self.objectives.each.len() {
            D::finish(running, self.divisor)
        } else {
            0
        }
    }

    // The parts by name: a map over an array of running amounts asks that the array fits in memory, and every blend would
    // have to say so.
    fn choice_parts<D: Blend>(&self, state: usize, choice: usize) -> [i64; MAX_OBJECTIVES]
        ensures { result ≡ parts_of self.now D.Blend.mean state choice }
    {
        let mut first = D::start();
        let mut second = D::start();
        let mut third = D::start();
        let mut fourth = D::start();
        for index in 0..self.branch_count(state, choice) {
            let branch = self.branch_at(state, choice, index);
            first = self.plus_part::<D>(first, branch, 0);
            second = self.plus_part::<D>(second, branch, 1);
            third = self.plus_part::<D>(third, branch, 2);
            fourth = self.plus_part::<D>(fourth, branch, 3);
        }
        [
            self.part_from::<D>(first, 0),
            self.part_from::<D>(second, 1),
            self.part_from::<D>(third, 2),
            self.part_from::<D>(fourth, 3),
        ]
    }

    // The first of a state's choices with the highest ceiling, and that ceiling.
    fn best_choice<U: Blend>(&self, state: usize) -> (usize, i64)
        ensures choice { result.0 ≡ best_of self.now U.Blend.mean state }
        ensures ceiling { result.1 ≡ ceiling_of self.now U.Blend.mean state result.0 }
    {
        let mut best = 0;
        let mut top = self.choice_ceiling::<U>(state, 0);
        for choice in 1..self.model.choices(state).unwrap_or(0) {
            let ceiling = self.choice_ceiling::<U>(state, choice);
            if ceiling > top {
                best = choice;
                top = ceiling;
            }
        }
        (best, top)
    }

    fn state_row<U: Blend, D: Blend>(&self, state: usize) -> Row
        ensures { result ≡ row_of self.now U.Blend.mean D.Blend.mean state }
    {
        let (choice, ceiling) = self.best_choice::<U>(state);
        let parts = self.choice_parts::<D>(state, choice);
        Row { ceiling, parts }
    }

    // Writes the row of each state.
    pub(crate) fn write_rows<U: Blend, D: Blend>(&self, rows: &mut [Row])
        ensures { rows.new ≡ map (row_of self.now U.Blend.mean D.Blend.mean) (range_with_len 0 (length rows.old)) }
    {
        for (state, row) in rows.iter_mut().enumerate() {
            *row = self.state_row::<U, D>(state);
        }
    }
}
