// The worked figures, as one theorem over the definitions that the calls promise.
#![tactic(auto)]

ghost use Rattle.figures.specs.Figures.{Worked};

pub fn worked_figures()
    ensures { Worked }
{}
