// A lock that counts wrong tries, as a model.
#![tactic(auto)]

ghost use Rattle.std.specs.Prelude.{◌≡◌, ◌≤◌};
ghost use Rattle.std.specs.Option.{option_map};
ghost use Rattle.tables.specs.Whole.{whole_of};
ghost use Rattle.tables.specs.CounterBox.{max_limit, max_chance, clamped, box_branch, open_state, full_state, branch_in, counter_box};
ghost use Rattle.tables.proofs.CounterBox.{counter_box_facts};

use mdp::{Model as DecisionModel, WholeBranch};
use std::cmp::Ordering;

pub const MAX_LIMIT: usize = 15;
// in percent
pub const MAX_CHANCE: u16 = 99;

const PERCENT: u16 = 100;

const COLUMNS: usize = 2;

const RESET_EXPOSURE: usize = 5;
// the choices below the limit
const ENTER: usize = 0;

const WAIT: usize = 1;
// the choice at the limit
const RESET: usize = 0;

#[derive(Clone, Copy)]
pub struct CounterBox {
    limit: usize,
    chance: u16,
    ghost ranges: { (1 ≤ limit) × (limit ≤ max_limit) × (1 ≤ chance) × (chance ≤ max_chance) },
}

impl CounterBox {
    // Takes the nearest limit and chance that there are.
    pub fn new(limit: usize, chance: u16) -> CounterBox
        ensures limit { result.limit ≡ clamped 1 max_limit limit }
        ensures chance { result.chance ≡ clamped 1 max_chance chance }
    {
        CounterBox {
            limit: limit.clamp(1, MAX_LIMIT),
            chance: chance.clamp(1, MAX_CHANCE),
        }
    }

    // A branch of a state below the limit.
    fn open_branch(&self, state: usize, choice: usize, branch: usize) -> Option<WholeBranch>
        requires { state ≤ max_limit }
        ensures { result ≡ option_map whole_of (branch_in (open_state self.now.chance state) choice branch) }
    {
        match (choice, branch) {
            (ENTER, 0) => Some(outcome(self.chance, 0, 1, state)),
            (ENTER, 1) => Some(outcome(PERCENT - self.chance, state + 1, 0, state)),
            (WAIT, 0) => Some(outcome(PERCENT, 0, 0, 0)),
            _ => None,
        }
    }
}

// A branch with what it earns in openings and costs in exposure. The proof has the bound of `as i16`, where `try_from`
// would need an `unwrap`.
fn outcome(weight: u16, next: usize, opened: u8, exposed: usize) -> WholeBranch
    requires { exposed ≤ max_limit }
    ensures { result ≡ whole_of (box_branch weight next opened exposed) }
{
    WholeBranch {
        weight,
        next,
        rewards: [i16::from(opened), -(exposed as i16), 0, 0],
    }
}

// A branch of the state at the limit.
fn full_branch(choice: usize, branch: usize) -> Option<WholeBranch>
    ensures { result ≡ option_map whole_of (branch_in full_state choice branch) }
{
    match (choice, branch) {
        (RESET, 0) => Some(outcome(PERCENT, 0, 0, RESET_EXPOSURE)),
        _ => None,
    }
}

#[tactic(auto, using(tables::proofs::CounterBox::box_whole))]
impl DecisionModel for CounterBox {
    ghost table = { λ m. counter_box m.limit m.chance };

    ghost facts = { λ m. counter_box_facts m.limit m.chance m.ranges.0 m.ranges.1 m.ranges.2 m.ranges.3 };

    fn states(&self) -> usize {
        self.limit + 1
    }

    fn first(&self) -> usize {
        0
    }

    fn divisor(&self) -> u16 {
        PERCENT
    }

    fn columns(&self) -> usize {
        COLUMNS
    }

    fn choices(&self, state: usize) -> Option<usize> {
        match state.cmp(&self.limit) {
            Ordering::Less => Some(2),
            Ordering::Equal => Some(1),
            Ordering::Greater => None,
        }
    }

    fn branches(&self, state: usize, choice: usize) -> Option<usize> {
        match (state.cmp(&self.limit), choice) {
            (Ordering::Less, ENTER) => Some(2),
            (Ordering::Less, WAIT) | (Ordering::Equal, RESET) => Some(1),
            _ => None,
        }
    }

    fn weight(&self, state: usize, choice: usize, branch: usize) -> Option<u16> {
        self.branch(state, choice, branch).map(|whole| whole.weight)
    }

    fn next(&self, state: usize, choice: usize, branch: usize) -> Option<usize> {
        self.branch(state, choice, branch).map(|whole| whole.next)
    }

    fn reward(&self, state: usize, choice: usize, branch: usize, column: usize) -> Option<i16> {
        let whole = self.branch(state, choice, branch)?;
        whole.rewards[..COLUMNS].get(column).copied()
    }

    fn branch(&self, state: usize, choice: usize, branch: usize) -> Option<WholeBranch> {
        // Tried as a match on `cmp`: a sweep over layers on the box then takes 2.5 times as long.
        if state < self.limit {
            self.open_branch(state, choice, branch)
        } else if state == self.limit {
            full_branch(choice, branch)
        } else {
            None
        }
    }
}
