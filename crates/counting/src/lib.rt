// How many plans there are, for up to so many rooms. The definitions and the theorems stand in specs/.
#![tactic(auto)]

pub const MOST_ROOMS: u8 = 17;
