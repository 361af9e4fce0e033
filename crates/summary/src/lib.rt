// The sizes of a model, to be printed.
#![tactic(auto)]

ghost use Rattle.std.specs.Prelude.{◌≡◌, Some};
ghost use Rattle.summary.specs.Texts.{summary_of, summary_text};

use mdp::Model;
use std::fmt;

#[derive(Clone, Copy)]
pub struct Summary {
    states: usize,
    first: usize,
    divisor: u16,
    columns: usize,
}

impl Summary {
    pub fn of<M: Model>(model: &M) -> Summary
        ensures { result ≡ summary_of (M.Model.table model.now) }
    {
        Summary {
            states: model.states(),
            first: model.first(),
            divisor: model.divisor(),
            columns: model.columns(),
        }
    }
}

impl fmt::Display for Summary {
    ghost output = { λ s. Some (summary_text s) };

    fn fmt<W: fmt::Write>(&self, f: &mut fmt::Formatter<W>) -> fmt::Result {
        let Summary {
            states,
            first,
            divisor,
            columns,
        } = *self;
        write!(
            f,
            "states {states}, first {first}, divisor {divisor}, columns {columns}"
        )
    }
}
