// Why a layer does not fit the model below.
ghost use Rattle.std.specs.Prelude.{codes};
ghost use Rattle.layers.specs.Numbers.{goal_number, mirror_number};

use fault::{Cause, Fault};

#[derive(Clone, Copy, PartialEq, Eq, Debug)]
pub enum GoalCause {
    Room = 6,
    Mark = 7,
}

pub type GoalFault = Fault<GoalCause>;

impl Cause for GoalCause {
    ghost word = { codes "goal" };

    ghost numbered = { goal_number };

    fn layer() -> &'static str {
        "goal"
    }

    fn number(&self) -> u8 {
        *self as u8
    }
}

#[derive(Clone, Copy, PartialEq, Eq, Debug)]
pub enum MirrorCause {
    Room = 6,
    Column = 7,
}

pub type MirrorFault = Fault<MirrorCause>;

impl Cause for MirrorCause {
    ghost word = { codes "mirror" };

    ghost numbered = { mirror_number };

    fn layer() -> &'static str {
        "mirror"
    }

    fn number(&self) -> u8 {
        *self as u8
    }
}
