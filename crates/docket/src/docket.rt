// A docket: objectives over a model that are judged by pricings and mixtures.
ghost use Rattle.std.specs.Prelude.{◌≡◌};
ghost use Rattle.truth.specs.Dockets.{meets, posed};
ghost use Rattle.truth.specs.Calls.{mix, retarget, clear, refusal, after};
ghost use Rattle.verdict.specs.Answers.{told_docket, answered};
ghost use Rattle.holdings.specs.Views.{held};
ghost use Rattle.docket.specs.Views.{view};

use holdings::objectives::Objectives;
use holdings::table::RowTable;
use mdp::Model;
use verdict::faults::DocketFault;
use verdict::verdict::{Event, Shares, Verdict};

mod pricing;
mod questions;
mod settling;

pub use pricing::Price;

// Each call says that the model is as it was: the field is private, and no type says so for them.
#[derive(Drop)]
pub struct Docket<M> {
    model: M,
    objectives: Objectives,
    table: RowTable,
    verdict: Verdict,
}

impl<M: Model> Docket<M> {
    // An open docket with no rows.
    pub(crate) fn posed(model: M, objectives: Objectives) -> Docket<M>
        ensures view { view result ≡ posed (held objectives) }
        ensures model { result.model ≡ model }
    {
        Docket {
            model,
            objectives,
            table: RowTable::empty(),
            verdict: Verdict::Open,
        }
    }

    // Whether the plans of the rows, mixed by shares, one for each row, bring every target. An open docket is then
    // achieved.
    pub fn mix(&mut self, shares: &[u16]) -> Result<bool, DocketFault>
        ensures answer { told_docket result ≡ answered (refusal (M.Model.table self.old.model) (view self.old) (mix shares.now)) (meets (view self.old) shares.now) }
        ensures after { view self.new ≡ after (M.Model.table self.old.model) (view self.old) (mix shares.now) }
        ensures model { self.new.model ≡ self.old.model }
    {
        let met = self.table.judge(&self.objectives, shares)?;
        let enough = met.then_some(Shares::of(shares));
        self.verdict = self.verdict.after(Event::Mixed(enough));
        Ok(met)
    }

    // Puts in new targets, one for each objective, and opens the docket; its rows remain.
    pub fn retarget(&mut self, targets: &[i64]) -> Result<(), DocketFault>
        ensures answer { told_docket result ≡ answered (refusal (M.Model.table self.old.model) (view self.old) (retarget targets.now)) tt }
        ensures after { view self.new ≡ after (M.Model.table self.old.model) (view self.old) (retarget targets.now) }
        ensures model { self.new.model ≡ self.old.model }
    {
        self.objectives.retarget(targets)?;
        self.verdict = Verdict::Open;
        Ok(())
    }

    // Empties the table and opens the docket; its targets remain.
    pub fn clear(&mut self)
        ensures after { view self.new ≡ after (M.Model.table self.old.model) (view self.old) clear }
        ensures model { self.new.model ≡ self.old.model }
    {
        self.table = RowTable::empty();
        self.verdict = Verdict::Open;
    }
}
