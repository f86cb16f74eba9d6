// What the promises say in full, and what holds their definitions. A law is a function without parameters, and its clause is the theorem.
ghost use Rattle.allocator.specs.InFull.{OptimizedInFull, OptimizedWordsInFull};
ghost use Rattle.allocator.specs.RoomCases.{RoomCases, EntryCases};

// The promise of `optimize`.
pub fn optimized_in_full()
    ensures { OptimizedInFull }
{}

// The promise of `optimize_words`.
pub fn optimized_words_in_full()
    ensures { OptimizedWordsInFull }
{}

// Question 4's limits.
pub fn room_cases()
    ensures { RoomCases }
{}

// Entries for statics.
pub fn entry_cases()
    ensures { EntryCases }
{}
