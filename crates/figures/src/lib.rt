// The worked figures, in one table: each is computed from the definitions that the contracts cite.
#![tactic(auto)]

ghost use Rattle.figures.specs.Figures.{Figures};

// Every figure is what the table says.
pub fn figures_hold()
    ensures { Figures }
{}
