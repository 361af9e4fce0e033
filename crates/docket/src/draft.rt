// A draft: objectives over a model, before they are judged.
ghost use Rattle.std.specs.Prelude.{◌≡◌, [], length};
ghost use Rattle.truth.specs.Dockets.{posed};
ghost use Rattle.truth.specs.Calls.{draft_refusal, added};
ghost use Rattle.truth.specs.Claims.{TruthOver};
ghost use Rattle.verdict.specs.Answers.{told_draft, answered};
ghost use Rattle.holdings.specs.Views.{held};
ghost use Rattle.docket.specs.Views.{view};

use crate::docket::Docket;
use holdings::objectives::Objectives;
use mdp::Model;
use plans::Objective;
use verdict::faults::DraftFault;

#[derive(Drop)]
pub struct Draft<M> {
    model: M,
    objectives: Objectives,
}

impl<M: Model> Draft<M> {
    // A draft without objectives. Of every docket that comes of it the model's theorem of truth holds.
    pub fn over(model: M) -> Draft<M>
        ensures model { result.model ≡ model }
        ensures none { held result.objectives ≡ [] }
        ensures truth { TruthOver (M.Model.table model) }
    {
        Draft {
            model,
            objectives: Objectives::none(),
        }
    }

    // Takes one more objective, up to four, and answers its number.
    pub fn add(&mut self, objective: Objective) -> Result<usize, DraftFault>
        ensures answer { told_draft result ≡ answered (draft_refusal (M.Model.table self.old.model).columns (held self.old.objectives) objective) (length (held self.old.objectives)) }
        ensures after { held self.new.objectives ≡ added (M.Model.table self.old.model).columns (held self.old.objectives) objective }
        ensures model { self.new.model ≡ self.old.model }
    {
        let columns = self.model.columns();
        self.objectives.add(objective, columns)
    }

    // An open docket with these objectives and no rows.
    pub fn pose(self) -> Docket<M>
        ensures view { view result ≡ posed (held self.objectives) }
        ensures model { result.model ≡ self.model }
    {
        let Draft { model, objectives } = self;
        Docket::posed(model, objectives)
    }
}
