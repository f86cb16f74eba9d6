// What is proved of the questions and of renaming. A law is a function without parameters, and its clause is the theorem.
ghost use Rattle.mir.specs.BranchCases.{BranchCases};
ghost use Rattle.mir.specs.Laws.{StaticsTwo, RefusalParts};
ghost use Rattle.mir.specs.LeftCases.{LeftCases};
ghost use Rattle.mir.specs.LimitCases.{LimitCases};

// A list has at most two statics a record.
pub fn statics_two()
    ensures { StaticsTwo }
{}

// An operation may put the questions before any record first, and those of the records after them.
pub fn refusal_parts()
    ensures { RefusalParts }
{}

// Each question at its limits, and one step past them.
pub fn limit_cases()
    ensures { LimitCases }
{}

// Questions 15 and 16.
pub fn branch_cases()
    ensures { BranchCases }
{}

// What a lent slice holds afterwards.
pub fn left_cases()
    ensures { LeftCases }
{}
