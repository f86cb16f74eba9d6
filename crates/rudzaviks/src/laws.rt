// What the promises say in full, and what holds their definitions. A law is a function without parameters, and its clause is the theorem.
ghost use Rattle.rudzaviks.specs.ExportCases.{ExportCases};
ghost use Rattle.rudzaviks.specs.InFull.{OptimizeInFull, ReduceInFull};

// The promise of `rudzaviks_optimize`.
pub fn optimize_in_full()
    ensures { OptimizeInFull }
{}

// The promise of `rudzaviks_reduce`.
pub fn reduce_in_full()
    ensures { ReduceInFull }
{}

// The exported functions' words.
pub fn export_cases()
    ensures { ExportCases }
{}
