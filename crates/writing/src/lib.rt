// The text of a plan, and why reading it gives the plan back.
#![tactic(auto)]

ghost use Rattle.writing.specs.Inverse.{OnlyTexts, EveryPlan, ShortTexts};

// Stands for three theorems: a text that is read is the text of the plan that is read, the text of a plan is read as that plan,
// and no plan has a text that is too long.
pub fn reading_inverts_writing()
    ensures only { OnlyTexts }
    ensures every { EveryPlan }
    ensures short { ShortTexts }
{}
