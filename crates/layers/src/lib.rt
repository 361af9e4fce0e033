// Layers: models over any model.
#![tactic(auto)]

ghost use Rattle.std.specs.Prelude.{◌≡◌, ◌<◌};
ghost use Rattle.mdp.specs.Limits.{max_columns};
ghost use Rattle.tables.specs.Whole.{whole_extended};

use mdp::WholeBranch;

pub mod faults;
pub mod goal;
pub mod marks;
pub mod mirror;

// A branch of a layer: another next state, and a reward in one more column.
fn extend(whole: WholeBranch, column: usize, next: usize, reward: i16) -> WholeBranch
    requires { column < max_columns }
    ensures { result ≡ whole_extended whole column next reward }
{
    let mut rewards = whole.rewards;
    rewards[column] = reward;
    WholeBranch {
        weight: whole.weight,
        next,
        rewards,
    }
}
