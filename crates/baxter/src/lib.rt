// The counts of plans by the formulas of document 000: all of this crate is in specs/.
#![tactic(auto)]

pub const FEWEST_ROOMS: usize = 1;
