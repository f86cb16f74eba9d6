// A location (document 01, section 1): the space and the index. The Rust's `Loc` has a variant for each space.
#[derive(Clone, Copy, PartialEq, Eq, Debug)]
pub struct Loc {
    // 0, 1 or 2: a number, as a record and the set that C lends have it.
    pub space: u32,
    pub index: u32,
}
