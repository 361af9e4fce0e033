// A layer that pays for the first marked state that is met.
ghost use Rattle.std.specs.Prelude.{◌≡◌, ◌≤◌, length, nat_le, IfSome, is_ok, if◌then◌else◌};
ghost use Rattle.std.specs.Option.{ForSome, option_map};
ghost use Rattle.tables.specs.Goal.{max_marks, state_below, goal_next, goal_reward, goal_table, GoalFits, goal_view, view_below};
ghost use Rattle.tables.proofs.Goal.{goal_facts};
ghost use Rattle.layers.specs.Fits.{goal_fit};

use crate::extend;
use crate::faults::{GoalCause, GoalFault};
use crate::marks::{MAX_MARKS, Marks};
use fault::Cause;
use mdp::{MAX_COLUMNS, Model as DecisionModel, WholeBranch};

// The layer is on where it has marks.
#[derive(Drop)]
pub struct Goal<M: DecisionModel> {
    below: M,
    marks: Option<Marks>,
    ghost fits: { ForSome marks (λ _. GoalFits (M.Model.table below)) },
}

// The states of a layer that is on: those below, once for before and once for after the mark.
#[derive(Clone, Copy)]
struct Halves<'a> {
    marks: &'a Marks,
    states: usize,
}

impl Halves<'_> {
    // The state below that a state stands for.
    fn state_below(&self, state: usize) -> usize
        ensures { result ≡ state_below self.now.states state }
    {
        if state >= self.states {
            state - self.states
        } else {
            state
        }
    }

    // Where a branch of a state goes, by where the one below goes.
    fn next(&self, state: usize, next: usize) -> usize
        requires { (self.now.states ≤ max_marks) × (next ≤ max_marks) }
        ensures { result ≡ goal_next self.now.marks.now self.now.states (nat_le self.now.states state) next }
    {
        if state >= self.states || self.marks.has(next) {
            next + self.states
        } else {
            next
        }
    }

    // What it earns in the last column.
    fn reward(&self, state: usize, next: usize) -> i16
        ensures { result ≡ goal_reward self.now.marks.now (nat_le self.now.states state) next }
    {
        i16::from(state < self.states && self.marks.has(next))
    }
}

// Whether the layer fits a model with these marks.
fn check_fit<M: DecisionModel>(below: &M, marks: &Marks) -> Result<(), GoalFault>
    ensures { result ≡ goal_fit (M.Model.table below.now) marks.now }
{
    let states = below.states();
    if states > MAX_MARKS {
        return Err(GoalCause::Room.at(states));
    }
    if below.columns() >= MAX_COLUMNS {
        return Err(GoalCause::Room.at(MAX_COLUMNS));
    }
    match marks.lowest_wrong(below.first(), states) {
        Some(state) => Err(GoalCause::Mark.at(state)),
        None => Ok(()),
    }
}

#[tactic(auto, unfolding(tables::specs::Goal::goal_view))]
impl<M: DecisionModel> Goal<M> {
    pub fn idle(below: M) -> Goal<M>
        ensures below { result.below ≡ below }
        ensures table { goal_view result.marks (M.Model.table result.below) ≡ M.Model.table below }
    {
        Goal { below, marks: None }
    }

    // Takes the marks and is on, or refuses them and is idle.
    pub fn fit(&mut self, marks: Marks) -> Result<(), GoalFault>
        ensures answer { result ≡ goal_fit (M.Model.table self.old.below) marks }
        ensures below { self.new.below ≡ self.old.below }
        ensures table { goal_view self.new.marks (M.Model.table self.new.below) ≡ (if is_ok result then goal_table marks (M.Model.table self.old.below) else M.Model.table self.old.below) }
    {
        self.marks = None;
        check_fit(&self.below, &marks)?;
        self.marks = Some(marks);
        Ok(())
    }

    // The states, where the layer is on.
    fn halves(&self) -> Option<Halves<'_>>
        ensures marks { option_map (λ h. h.marks.now) result ≡ self.now.marks }
        ensures states { IfSome result (λ h. h.states ≡ length (M.Model.table self.now.below).states) }
    {
        let marks = self.marks.as_ref()?;
        let states = self.below.states();
        Some(Halves { marks, states })
    }

    // The state below that a state stands for.
    fn state_below(&self, state: usize) -> usize
        ensures { result ≡ view_below self.now.marks (length (M.Model.table self.now.below).states) state }
    {
        match self.halves() {
            Some(halves) => halves.state_below(state),
            None => state,
        }
    }
}

#[tactic(auto, using(tables::proofs::Goal::goal_passed_on))]
impl<M: DecisionModel> DecisionModel for Goal<M> {
    ghost table = { λ m. goal_view m.marks (M.Model.table m.below) };

    ghost facts = { λ m. goal_facts m.marks (M.Model.table m.below) m.fits (M.Model.facts m.below) };

    fn states(&self) -> usize {
        let states = self.below.states();
        if self.marks.is_some() {
            2 * states
        } else {
            states
        }
    }

    fn first(&self) -> usize {
        self.below.first()
    }

    fn divisor(&self) -> u16 {
        self.below.divisor()
    }

    fn columns(&self) -> usize {
        let columns = self.below.columns();
        if self.marks.is_some() {
            columns + 1
        } else {
            columns
        }
    }

    fn choices(&self, state: usize) -> Option<usize> {
        self.below.choices(self.state_below(state))
    }

    fn branches(&self, state: usize, choice: usize) -> Option<usize> {
        self.below.branches(self.state_below(state), choice)
    }

    fn weight(&self, state: usize, choice: usize, branch: usize) -> Option<u16> {
        self.below.weight(self.state_below(state), choice, branch)
    }

    fn next(&self, state: usize, choice: usize, branch: usize) -> Option<usize> {
        let Some(halves) = self.halves() else {
            return self.below.next(state, choice, branch);
        };
        let next = self.below.next(halves.state_below(state), choice, branch)?;
        Some(halves.next(state, next))
    }

    fn reward(&self, state: usize, choice: usize, branch: usize, column: usize) -> Option<i16> {
        let Some(halves) = self.halves() else {
            return self.below.reward(state, choice, branch, column);
        };
        let low = halves.state_below(state);
        if column != self.below.columns() {
            return self.below.reward(low, choice, branch, column);
        }
        let next = self.below.next(low, choice, branch)?;
        Some(halves.reward(state, next))
    }

    fn branch(&self, state: usize, choice: usize, branch: usize) -> Option<WholeBranch> {
        let Some(halves) = self.halves() else {
            return self.below.branch(state, choice, branch);
        };
        let whole = self
            .below
            .branch(halves.state_below(state), choice, branch)?;
        let next = halves.next(state, whole.next);
        let reward = halves.reward(state, whole.next);
        Some(extend(whole, self.below.columns(), next, reward))
    }
}
