// Figures of small networks, worked out from the definitions.
#![tactic(auto)]

ghost use Rattle.figures.specs.Figures.{Figures};

// The definitions give these totals and cells.
pub fn figures_hold()
    ensures { Figures }
{}
