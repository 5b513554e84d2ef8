// The language as mathematics. Nothing runs here: the contracts state what is proved of the definitions in specs/.

#![tactic(auto)]

ghost use Rattle.lfpl.specs.Laws.{JudgementIsHofmanns, ProgramsAreHofmanns, ShapesAreTheRules, SumOfOne};

// The judgement and Hofmann's typing rules agree.
pub fn judgement_is_hofmanns()
    ensures bodies { JudgementIsHofmanns }
    ensures programs { ProgramsAreHofmanns }
    ensures example { SumOfOne }
{}

// How an expression is read agrees with how it is judged.
pub fn shapes_are_the_rules()
    ensures { ShapesAreTheRules }
{}
