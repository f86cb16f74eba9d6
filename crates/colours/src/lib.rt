// The colours while a list is coloured (document 01, section 3; document 02, request 3): which are free and which hold a location, in
// two words of bits; and the life and the location of each, in two arrays of plain numbers.
#![tactic(auto)]

pub mod allocs;
pub mod laws;
pub mod masks;
pub mod pool;
