// What holds the words and the masks. A law is a function without parameters, and its clause is the theorem.
ghost use Rattle.colours.specs.MaskCases.{MaskCases, MasksTold};

// Bits, words of locations, and coloured words at their limits.
pub fn mask_cases()
    ensures { MaskCases }
{}

// What the masks of two colours must be.
pub fn masks_told()
    ensures { MasksTold }
{}
