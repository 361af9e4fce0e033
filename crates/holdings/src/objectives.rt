// The objectives of a draft or of a docket.
ghost use Rattle.few.specs.Views.{listed};
ghost use Rattle.holdings.specs.Limits.{AllAllowed};

use few::Few;
use plans::Objective;
use verdict::limits::MAX_OBJECTIVES;

mod held;

// Up to four objectives, in the order in which they were added.
#[derive(Drop)]
pub struct Objectives {
    each: Few<Objective, MAX_OBJECTIVES>,
    ghost small: { AllAllowed (listed each) },
}
