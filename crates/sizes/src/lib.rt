// Rooms of real sizes. The definitions of the lowest corners, of the slack and of placings, and their theorems, stand in specs/.
#![tactic(auto)]

// The slack across and upward, each of which may be negative. The needed lengths of `placing` are a struct of their own, since they have no
// sign: as one type over the number, a clause would no longer say by its name which of the two it speaks of.
#[derive(Clone, Copy)]
pub struct Slack {
    pub across: i64,
    pub up: i64,
}
