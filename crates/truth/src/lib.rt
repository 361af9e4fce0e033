// What the calls on a draft and on a docket make of them: the laws, each on the contract of a function.
#![tactic(auto)]

ghost use Rattle.truth.specs.Claims.{Truth, TruthDrafted, OfferedExactly};
ghost use Rattle.truth.specs.Claims.{Stands, TakenExactly, RefusedExactly, JudgedExactly};
ghost use Rattle.truth.specs.Claims.{StaysOrderly, StaysOrderlyDrafted, RowNumbered, TargetsPresent, PlansKept};
ghost use Rattle.truth.specs.Claims.{SettleFits, SettleVerdict, SettleCloses, SettleHalves, SettleFirst};

// What a docket shows is true, after any list of calls.
pub fn truth()
    ensures truth { Truth }
    ensures truth_drafted { TruthDrafted }
{}

// When a call is taken, and what it makes of a draft or of a docket.
pub fn laws_of_calls()
    ensures offered_exactly { OfferedExactly }
    ensures taken_exactly { TakenExactly }
    ensures refused_exactly { RefusedExactly }
    ensures judged_exactly { JudgedExactly }
    ensures stands { Stands }
    ensures stays_orderly { StaysOrderly }
    ensures stays_orderly_drafted { StaysOrderlyDrafted }
    ensures row_numbered { RowNumbered }
    ensures targets_present { TargetsPresent }
    ensures plans_kept { PlansKept }
{}

// How a settle goes.
pub fn laws_of_settling()
    ensures settle_fits { SettleFits }
    ensures settle_verdict { SettleVerdict }
    ensures settle_closes { SettleCloses }
    ensures settle_halves { SettleHalves }
    ensures settle_first { SettleFirst }
{}
