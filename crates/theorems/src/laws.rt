// What is proved of reducing. A law is a function without parameters, and its clause is the theorem.
ghost use Rattle.theorems.specs.Laws.{PoolNeverEmpty, ListsKeepUp, ListsEndEqual, StraightRuns, ListPreserved, ScalarIsStraight, StaleEnd, TargetLabel, TargetSame, OutLength, ReducedLength, CountsAdd, OutPasses, ReducedPasses, EndsSame, FewMembers, MembersOnce, FullestFits, FullestNone};
ghost use Rattle.theorems.specs.Rule.{SameColours, RuleMovesNoColour};

// On a list that passes, of any kinds, no choice finds its pool empty.
pub fn pool_never_empty()
    ensures { PoolNeverEmpty }
{}

// A list with branches and its reduced list, over values of any type.
pub fn keeps_up<Value>()
    ensures { ListsKeepUp Value }
{}

// A list without branches and its reduced list, over values of any type.
pub fn preserved<Value>()
    ensures { ListsEndEqual Value }
{}

// The run of a list without branches ends, as the straight machine does.
pub fn straight_runs<Value>()
    ensures { StraightRuns Value }
{}

// A list and its reduced list over words, as the operations promise it.
pub fn list_preserved()
    ensures { ListPreserved }
{}

// Scalar lists are straight ones.
pub fn scalar_is_straight()
    ensures { ScalarIsStraight }
{}

// What was written before a BranchIf is not read past it.
pub fn stale_end()
    ensures { StaleEnd }
{}

// Each branch goes to a Label of its number.
pub fn target_label()
    ensures { TargetLabel }
{}

// A branch of the reduced list goes where the list's branch goes.
pub fn target_same()
    ensures { TargetSame }
{}

// A record is put out with eight words.
pub fn out_length()
    ensures { OutLength }
{}

// The reduced list has as many records as are kept.
pub fn reduced_length()
    ensures { ReducedLength }
{}

// Records in are records out and the four dropped counts.
pub fn counts_add()
    ensures { CountsAdd }
{}

// Each record in colours passes questions 5 to 7 again.
pub fn out_passes()
    ensures { OutPasses }
{}

// The reduced list passes questions 5 to 7 again.
pub fn reduced_passes()
    ensures { ReducedPasses }
{}

// A list that passes has an end for each colour.
pub fn ends_same()
    ensures { EndsSame }
{}

// The read set has few members.
pub fn few_members()
    ensures { FewMembers }
{}

// The read set has no member twice.
pub fn members_once()
    ensures { MembersOnce }
{}

// The registers get no fuller than there are.
pub fn fullest_fits()
    ensures { FullestFits }
{}

// They stay empty exactly where no record has a Gen source.
pub fn fullest_none()
    ensures { FullestNone }
{}

// Whatever joins the read set, the colours are the same.
pub fn same_colours()
    ensures { SameColours }
{}

// The rule on what two-part loads read moves no colour.
pub fn rule_moves_no_colour()
    ensures { RuleMovesNoColour }
{}
