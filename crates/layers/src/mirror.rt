// A layer with one more column, the negative of another.
ghost use Rattle.std.specs.Prelude.{◌≡◌, ◌≤◌, neg_ℤ, is_ok, if◌then◌else◌, unsigned_abs};
ghost use Rattle.std.specs.Option.{ForSome};
ghost use Rattle.mdp.specs.Limits.{max_reward};
ghost use Rattle.tables.specs.Mirror.{mirror_table, MirrorFits, mirror_view};
ghost use Rattle.tables.proofs.Mirror.{mirror_facts};
ghost use Rattle.layers.specs.Fits.{mirror_fit};

use crate::extend;
use crate::faults::{MirrorCause, MirrorFault};
use fault::Cause;
use mdp::{MAX_COLUMNS, Model as DecisionModel, WholeBranch};

// The layer is on where it has a column.
#[derive(Drop)]
pub struct Mirror<M: DecisionModel> {
    below: M,
    column: Option<usize>,
    ghost fits: { ForSome column (λ j. MirrorFits j (M.Model.table below)) },
}

fn negative(reward: i16) -> i16
    requires { unsigned_abs reward ≤ max_reward }
    ensures { result ≡ neg_ℤ reward }
{
    -reward
}

// Whether the layer fits a model with this column.
fn check_fit<M: DecisionModel>(below: &M, column: usize) -> Result<(), MirrorFault>
    ensures { result ≡ mirror_fit (M.Model.table below.now) column }
{
    let columns = below.columns();
    if columns >= MAX_COLUMNS {
        return Err(MirrorCause::Room.at(MAX_COLUMNS));
    }
    if column >= columns {
        return Err(MirrorCause::Column.at(column));
    }
    Ok(())
}

#[tactic(auto, unfolding(tables::specs::Mirror::mirror_view))]
impl<M: DecisionModel> Mirror<M> {
    pub fn idle(below: M) -> Mirror<M>
        ensures below { result.below ≡ below }
        ensures table { mirror_view result.column (M.Model.table result.below) ≡ M.Model.table below }
    {
        Mirror {
            below,
            column: None,
        }
    }

    // Takes the column and is on, or refuses it and is idle.
    pub fn fit(&mut self, column: usize) -> Result<(), MirrorFault>
        ensures answer { result ≡ mirror_fit (M.Model.table self.old.below) column }
        ensures below { self.new.below ≡ self.old.below }
        ensures table { mirror_view self.new.column (M.Model.table self.new.below) ≡ (if is_ok result then mirror_table column (M.Model.table self.old.below) else M.Model.table self.old.below) }
    {
        self.column = None;
        check_fit(&self.below, column)?;
        self.column = Some(column);
        Ok(())
    }
}

#[tactic(auto, using(tables::proofs::Mirror::mirror_passed_on))]
impl<M: DecisionModel> DecisionModel for Mirror<M> {
    ghost table = { λ m. mirror_view m.column (M.Model.table m.below) };

    ghost facts = { λ m. mirror_facts m.column (M.Model.table m.below) m.fits (M.Model.facts m.below) };

    fn states(&self) -> usize {
        self.below.states()
    }

    fn first(&self) -> usize {
        self.below.first()
    }

    fn divisor(&self) -> u16 {
        self.below.divisor()
    }

    fn columns(&self) -> usize {
        let columns = self.below.columns();
        if self.column.is_some() {
            columns + 1
        } else {
            columns
        }
    }

    fn choices(&self, state: usize) -> Option<usize> {
        self.below.choices(state)
    }

    fn branches(&self, state: usize, choice: usize) -> Option<usize> {
        self.below.branches(state, choice)
    }

    fn weight(&self, state: usize, choice: usize, branch: usize) -> Option<u16> {
        self.below.weight(state, choice, branch)
    }

    fn next(&self, state: usize, choice: usize, branch: usize) -> Option<usize> {
        self.below.next(state, choice, branch)
    }

    fn reward(&self, state: usize, choice: usize, branch: usize, column: usize) -> Option<i16> {
        match self.column {
            Some(mirrored) if column == self.below.columns() => {
                let reward = self.below.reward(state, choice, branch, mirrored)?;
                Some(negative(reward))
            }
            _ => self.below.reward(state, choice, branch, column),
        }
    }

    fn branch(&self, state: usize, choice: usize, branch: usize) -> Option<WholeBranch> {
        let whole = self.below.branch(state, choice, branch)?;
        let Some(mirrored) = self.column else {
            return Some(whole);
        };
        let reward = negative(whole.rewards[mirrored]);
        Some(extend(whole, self.below.columns(), whole.next, reward))
    }
}
