// What holds the definitions of reducing and of the machine. A law is a function without parameters, and its clause is the theorem.
ghost use Rattle.passes.specs.Arm.{ArmChangesNothing};
ghost use Rattle.passes.specs.BranchRuns.{CoveredCases, BranchRuns, BranchesTold};
ghost use Rattle.passes.specs.FullCases.{FullCases};
ghost use Rattle.passes.specs.MachineCases.{WordCases, MachineCases, ScalarCases, StraightCases, EndsTold, ListsAreTold};
ghost use Rattle.passes.specs.PoolCases.{PoolCases};
ghost use Rattle.passes.specs.Promise.{PromiseInFull, PromiseTold};
ghost use Rattle.passes.specs.StoredLists.{StoredLists, StoredAccounts};
ghost use Rattle.passes.specs.TenCases.{TenCases};
ghost use Rattle.passes.specs.WideCases.{WideCases};

// The table of ten.
pub fn ten_cases()
    ensures { TenCases }
{}

// Fifteen lists, and what the original leaves of them.
pub fn stored_lists()
    ensures { StoredLists }
{}

// The same lists: what is dropped, the statics, and what the read set has.
pub fn stored_accounts()
    ensures { StoredAccounts }
{}

// How full the registers get.
pub fn full_cases()
    ensures { FullCases }
{}

// The last of 64 registers and colours.
pub fn wide_cases()
    ensures { WideCases }
{}

// What a pool is.
pub fn pool_cases()
    ensures { PoolCases }
{}

// The Arm flag changes no answer.
pub fn arm_changes_nothing()
    ensures { ArmChangesNothing }
{}

// A word is any number below 2^64.
pub fn word_cases()
    ensures { WordCases }
{}

// What the machine does with each kind that it runs.
pub fn machine_cases()
    ensures { MachineCases }
{}

// Which kinds and lists are scalar.
pub fn scalar_cases()
    ensures { ScalarCases }
{}

// Which kinds and lists are straight.
pub fn straight_cases()
    ensures { StraightCases }
{}

// Which kinds and lists are covered.
pub fn covered_cases()
    ensures { CoveredCases }
{}

// What the machine does at a branch.
pub fn branch_runs()
    ensures { BranchRuns }
{}

// What is equal at the end of two runs, and what need not be.
pub fn ends_told<Value>()
    ensures { EndsTold Value }
{}

// Lists whose runs are not equal.
pub fn lists_are_told()
    ensures { ListsAreTold }
{}

// Lists whose runs do not keep up.
pub fn branches_told()
    ensures { BranchesTold }
{}

// What operations promise by `Keeps` says this of each register, cell and choice.
pub fn promise_in_full()
    ensures { PromiseInFull }
{}

// What that promise is not true of.
pub fn promise_told()
    ensures { PromiseTold }
{}
