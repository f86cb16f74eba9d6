// What the promise says in full, and what holds its definitions. A law is a function without parameters, and its clause is the theorem.
ghost use Rattle.file.specs.FileCases.{FileCases, ReducedSmall};
ghost use Rattle.file.specs.InFull.{FileReducedInFull};

// The promise of `reduce_file`.
pub fn file_reduced_in_full()
    ensures { FileReducedInFull }
{}

// Every word of a reduced list fits 32 bits.
pub fn reduced_small()
    ensures { ReducedSmall }
{}

// The file's limits.
pub fn file_cases()
    ensures { FileCases }
{}
