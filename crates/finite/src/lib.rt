// General laws on bounded search, counting and tables: all of this crate is in specs/.
#![tactic(auto)]

pub const RANGE_STARTS_AT: usize = 0;
