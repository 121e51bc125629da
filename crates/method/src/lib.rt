// The cell method, and why it gives the total over all tolerated patterns.
#![tactic(auto)]

ghost use Rattle.method.specs.Agreement.{MethodAgrees};

use algebra::Scale;

// On every scale the cell method gives the sum over all tolerated patterns.
pub fn method_agrees<S: Scale>()
    ensures { MethodAgrees S.Weight.kind }
{}
