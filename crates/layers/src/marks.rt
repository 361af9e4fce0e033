// Which states are marked.
ghost use Rattle.std.specs.Prelude.{◌≡◌, Bool, true, false, List, replicate, slice_set};
ghost use Rattle.tables.specs.Goal.{max_marks, is_marked, is_wrong, lowest};

use std::marker::Model;

pub const MAX_MARKS: usize = 256;

#[derive(Clone, Copy)]
pub struct Marks {
    marked: [bool; MAX_MARKS],
}

// A clause sees the list of whether each state is marked.
impl Model for Marks {
    ghost Value = { List Bool };

    ghost view = { λ m. m.marked };

    ghost inverse = { λ marks. record { marked = marks } };
}

impl Marks {
    pub fn none() -> Marks
        ensures { result ≡ replicate max_marks false }
    {
        Marks {
            marked: [false; MAX_MARKS],
        }
    }

    pub fn mark(&mut self, state: u8)
        ensures { self.new ≡ slice_set self.old state true }
    {
        self.marked[usize::from(state)] = true;
    }

    // A state past the marks has none.
    pub fn has(&self, state: usize) -> bool
        ensures { result ≡ is_marked self.now state }
    {
        self.marked.get(state).copied().unwrap_or(false)
    }

    // A mark on the first state, or on a state that is not there.
    fn is_wrong(&self, first: usize, states: usize, state: usize) -> bool
        ensures { result ≡ is_wrong self.now first states state }
    {
        self.has(state) && (state == first || state >= states)
    }

    // The lowest such state.
    #[tactic(auto, unfolding(tables::specs::Goal::lowest))]
    pub(crate) fn lowest_wrong(&self, first: usize, states: usize) -> Option<usize>
        ensures { result ≡ lowest (is_wrong self.now first states) 0 max_marks }
    {
        (0..MAX_MARKS).find(|state| self.is_wrong(first, states, *state))
    }
}
