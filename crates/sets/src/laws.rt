// What is proved of the index of the read set, and what holds its definitions. A law is a function without parameters, and its clause is the theorem.
ghost use Rattle.sets.specs.Laws.{FewPassed, ThirtyFive};
ghost use Rattle.sets.specs.SetCases.{SetCases};

// A walk passes at most one member more than keys have bits.
pub fn few_passed()
    ensures { FewPassed }
{}

// In the three spaces, 35.
pub fn thirty_five()
    ensures { ThirtyFive }
{}

// The definitions at their limits.
pub fn set_cases()
    ensures { SetCases }
{}
