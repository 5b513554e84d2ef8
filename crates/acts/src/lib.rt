//! What operations do in place: how variables and parts lie in the words of a run, what each operation does to words and cells, and that this is what the expression
//! means. No code runs here; the function stands for a theorem, which its contract names.

#![tactic(auto)]

ghost use Rattle.acts.specs.Settling.{InPlaceLaw};

/// What each operation does to words and cells is what its expression means.
pub fn operations_act_in_place()
    ensures { InPlaceLaw }
{}
