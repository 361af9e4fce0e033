// A model of any size whose states are alike.
ghost use Rattle.std.specs.Prelude.{◌≡◌, ◌≤◌, if◌then◌else◌, Some, None};
ghost use Rattle.mdp.specs.Questions.{branch_of};
ghost use Rattle.mdp.specs.Limits.{max_states, max_columns};
ghost use Rattle.tables.specs.CounterBox.{clamped};
ghost use Rattle.pile_tests.specs.Still.{still_branch, still_table};
ghost use Rattle.pile_tests.specs.StillFacts.{still_facts};

use mdp::{MAX_COLUMNS, MAX_STATES, Model as DecisionModel};

#[derive(Clone, Copy)]
pub struct Still {
    states: usize,
    columns: usize,
    ghost ranges: { (1 ≤ states) × (states ≤ max_states) × (1 ≤ columns) × (columns ≤ max_columns) },
}

impl Still {
    // Takes the nearest sizes that a model may have.
    pub fn new(states: usize, columns: usize) -> Still
        ensures states { result.states ≡ clamped 1 max_states states }
        ensures columns { result.columns ≡ clamped 1 max_columns columns }
    {
        Still {
            states: states.clamp(1, MAX_STATES),
            columns: columns.clamp(1, MAX_COLUMNS),
        }
    }

    fn has(&self, state: usize, choice: usize, branch: usize) -> bool
        ensures { branch_of (still_table self.now.states self.now.columns) state choice branch ≡ (if result then Some (still_branch self.now.columns) else None) }
    {
        state < self.states && choice == 0 && branch == 0
    }
}

impl DecisionModel for Still {
    ghost table = { λ m. still_table m.states m.columns };

    ghost facts = { λ m. still_facts m.states m.columns m.ranges.0 m.ranges.1 m.ranges.2 m.ranges.3 };

    fn states(&self) -> usize {
        self.states
    }

    fn first(&self) -> usize {
        self.states - 1
    }

    fn divisor(&self) -> u16 {
        1
    }

    fn columns(&self) -> usize {
        self.columns
    }

    fn choices(&self, state: usize) -> Option<usize> {
        (state < self.states).then_some(1)
    }

    fn branches(&self, state: usize, choice: usize) -> Option<usize> {
        (state < self.states && choice == 0).then_some(1)
    }

    fn weight(&self, state: usize, choice: usize, branch: usize) -> Option<u16> {
        self.has(state, choice, branch).then_some(1)
    }

    fn next(&self, state: usize, choice: usize, branch: usize) -> Option<usize> {
        self.has(state, choice, branch).then_some(0)
    }

    fn reward(&self, state: usize, choice: usize, branch: usize, column: usize) -> Option<i16> {
        (self.has(state, choice, branch) && column < self.columns).then_some(0)
    }
}
