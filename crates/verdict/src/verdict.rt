// What a docket says of its targets.
ghost use Rattle.std.specs.Prelude.{◌≡◌};
ghost use Rattle.truth.specs.Dockets.{judged};
ghost use Rattle.verdict.specs.Verdicts.{verdict_of, came_out, verdict_by};

use crate::limits::{MAX_OBJECTIVES, MAX_ROWS};
use few::Few;

pub type Weights = Few<u16, MAX_OBJECTIVES>;

pub type Shares = Few<u16, MAX_ROWS>;

// Achieved shows the shares of the rows whose plans together meet every target. Refuted shows weights, and the ceiling
// of the weighted rewards, which is below the weighted sum of the targets.
#[derive(Clone, Copy)]
pub enum Verdict {
    Open,
    Achieved {
        shares: Shares,
    },
    Refuted {
        weights: Weights,
        ceiling: i64,
        target_sum: i64,
    },
}

// What happens to a docket, with how it came out.
#[derive(Clone, Copy)]
pub enum Event {
    Priced {
        weights: Weights,
        ceiling: i64,
        target_sum: i64,
    },
    // the shares, if they bring every target
    Mixed(Option<Shares>),
}

impl Verdict {
    // An open verdict turns with an event that decides; any other stands.
    pub fn after(self, event: Event) -> Verdict
        ensures { verdict_of result ≡ judged (verdict_of self) (came_out event) (verdict_by event) }
    {
        match (self, event) {
            (
                Verdict::Open,
                Event::Priced {
                    weights,
                    ceiling,
                    target_sum,
                },
            ) if ceiling < target_sum => Verdict::Refuted {
                weights,
                ceiling,
                target_sum,
            },
            (Verdict::Open, Event::Mixed(Some(shares))) => Verdict::Achieved { shares },
            (verdict, _) => verdict,
        }
    }
}
