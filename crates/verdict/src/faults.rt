// Why a call on a draft or on a docket is refused.
ghost use Rattle.std.specs.Prelude.{codes};
ghost use Rattle.verdict.specs.Numbers.{draft_number, docket_number};

use fault::{Cause, Fault};

#[derive(Clone, Copy, PartialEq, Eq, Debug)]
pub enum DraftCause {
    Objective = 8,
    Full = 9,
}

pub type DraftFault = Fault<DraftCause>;

impl Cause for DraftCause {
    ghost word = { codes "draft" };

    ghost numbered = { draft_number };

    fn layer() -> &'static str {
        "draft"
    }

    fn number(&self) -> u8 {
        *self as u8
    }
}

#[derive(Clone, Copy, PartialEq, Eq, Debug)]
pub enum DocketCause {
    Weights = 10,
    Rows = 11,
    Table = 12,
    Shares = 13,
    Targets = 14,
    Settle = 15,
}

pub type DocketFault = Fault<DocketCause>;

impl Cause for DocketCause {
    ghost word = { codes "docket" };

    ghost numbered = { docket_number };

    fn layer() -> &'static str {
        "docket"
    }

    fn number(&self) -> u8 {
        *self as u8
    }
}
