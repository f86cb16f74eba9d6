// What is proved of the definitions in passes: colouring never finds its pool empty, and a list and its reduced list run alike. There is
// no operation here; `laws` has the theorems.
#![tactic(auto)]

pub mod laws;
