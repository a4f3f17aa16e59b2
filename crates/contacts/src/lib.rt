// Which rooms of a floorplan touch, and the inner segments of the grid drawing: all of this crate is in specs/.
#![tactic(auto)]

pub const OUTLINE_STARTS_AT: usize = 0;
