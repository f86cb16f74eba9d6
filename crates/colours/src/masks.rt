// Words of bits, a bit for each colour (document 02, request 3).
ghost use Rattle.std.specs.Prelude.{ℕ, ◌<◌, ◌≤◌, ◌^◌, cond, ◌≡◌, eqb, ltb};
ghost use Rattle.mir.specs.Records.{max_regs};
ghost use Rattle.passes.specs.Color.{first_below};
ghost use Rattle.colours.specs.Masks.{has_bit};

#[derive(Clone, Copy)]
pub struct Masks {
    // The colours that are free.
    pub free: u64,
    // The colours that hold a location.
    pub held: u64,
}

// The bit of colour `c`.
fn bit(c: u32) -> u64
    requires { c < max_regs }
    ensures { result ≡ 2 ^ c }
{
    1 << c
}

// The mask with the bit of colour `c` set, or not.
pub fn with_bit(mask: u64, c: u32, on: bool) -> u64
    requires { c < max_regs }
    ensures { (j : ℕ) → has_bit result j ≡ cond (eqb j c) on (has_bit mask j) }
{
    if on { mask | bit(c) } else { mask & !bit(c) }
}

// The bits of the first `n` colours. A shift by the whole width is none.
pub fn first_bits(n: usize) -> u64
    requires { n ≤ max_regs }
    ensures { (j : ℕ) → has_bit result j ≡ ltb j n }
{
    if n == 64 { u64::MAX } else { (1 << n) - 1 }
}

// The lowest bit that is set. A mask without one has 64 trailing zeros.
pub fn lowest(mask: u64) -> Option<u32>
    ensures { result ≡ first_below (has_bit mask) max_regs }
{
    if mask == 0 {
        return None;
    }
    Some(u64::trailing_zeros(mask))
}
