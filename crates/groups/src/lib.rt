// Whole groups at once: all of this crate is in specs/, the definitions of groups and of how two of them stand to each other, and their
// theorems.
#![tactic(auto)]
