// What a docket can be asked.
ghost use Rattle.std.specs.Prelude.{◌≡◌, map};
ghost use Rattle.verdict.specs.Verdicts.{verdict_of};
ghost use Rattle.holdings.specs.Views.{row_of};
ghost use Rattle.docket.specs.Views.{view};

use crate::docket::Docket;
use holdings::table::TableRow;
use mdp::Model;
use plans::Objective;
use verdict::verdict::Verdict;

impl<M: Model> Docket<M> {
    pub fn verdict(&self) -> Verdict
        ensures { verdict_of result ≡ (view self.now).verdict }
    {
        self.verdict
    }

    // The objectives, with the present targets.
    pub fn objectives(&self) -> &[Objective]
        ensures { result.now ≡ (view self.now).objectives }
    {
        self.objectives.as_slice()
    }

    // The rows of the table, in the order in which they were priced.
    pub fn rows(&self) -> &[TableRow]
        ensures { map row_of result.now ≡ (view self.now).table }
    {
        self.table.as_slice()
    }
}
