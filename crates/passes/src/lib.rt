// What reducing a list means: the colours' state, and in specs/ the three passes and the plain machine, held by cases there, which `laws` names. There
// is no operation here.
#![tactic(auto)]

pub mod alloc;
pub mod laws;
pub mod symbol;
