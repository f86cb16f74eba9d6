// The colours' state (document 01, section 3; the Rust's `Alloc`). A colour is a register of the reduced list.
use crate::symbol::Loc;

// A colour, as the definitions have it; the walks keep all in one struct of plain words (`Allocs`).
#[derive(Clone, Copy)]
pub struct Alloc {
    // The colour is needed up to this instruction.
    pub life: u32,
    // At most one location.
    pub loc: Option<Loc>,
}

// What a choice comes to. `Empty` is the answer for an empty pool; on a list that passes it is never given.
#[derive(Clone, Copy)]
pub enum Choice {
    Found(u32),
    Free(u32),
    Empty,
}

// What becomes of a record: it is kept, or dropped as one of the four kinds that are counted.
#[derive(Clone, Copy)]
pub enum Outcome {
    Kept,
    Nop,
    Load,
    Move,
    Save,
}
