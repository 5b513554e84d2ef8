// What a run means: the evaluator and the machine as mathematics. No code runs here; each function stands for theorems, which its contract names.

#![tactic(auto)]

ghost use Rattle.meaning.specs.Laws.{LeastLaw, EndsLaw, GoingLaw, PiecesLaw, LimitsLaw, HaltsLaw};
ghost use Rattle.meaning.specs.Sound.{SoundLaw, LinearLaw};
ghost use Rattle.meaning.specs.States.{PlacesLaw, BoundsLaw, TypesLaw};
ghost use Rattle.meaning.specs.Examples.{ExamplesLaw};

/// The meaning of a program's functions is the least valuation of their symbols that is its own next.
pub fn meaning_is_least()
    ensures { LeastLaw }
{}

/// The machine ends as the meaning says, at that step and no other; till then it takes each step, and it may be carried in pieces.
pub fn runs_end_as_meant()
    ensures ends { EndsLaw }
    ensures going { GoingLaw }
    ensures pieces { PiecesLaw }
{}

/// A value within the limits is Hofmann's, and a run halts exactly at the limits.
pub fn limits_only_halt()
    ensures within { LimitsLaw }
    ensures halts { HaltsLaw }
{}

/// A judged program never goes wrong, keeps to its declared types, and never charges more cells than its arguments did.
pub fn judged_programs_keep_their_cells()
    ensures sound { SoundLaw }
    ensures linear { LinearLaw }
{}

/// What a going run's state is made of: numbers that are places in the table, no more than the limits allow, and types that the table knows.
pub fn states_stay_in_the_table()
    ensures places { PlacesLaw }
    ensures bounds { BoundsLaw }
    ensures types { TypesLaw }
{}

/// The worked examples hold.
pub fn examples_hold()
    ensures { ExamplesLaw }
{}
