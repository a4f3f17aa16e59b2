// The first barred pattern of a label list: definitions and theorems stand in specs/.
#![tactic(auto)]

ghost use Rattle.std.specs.Prelude.{◌≡◌, ◌≤◌};
ghost use Rattle.patterns.specs.Pattern.{condition_number};

use record::Position;

// The two conditions of a barred pattern, in the sheet's order and with its numbers.
#[derive(Clone, Copy, Debug, PartialEq, Eq)]
pub enum Condition {
    First = 1,
    Second = 2,
}

impl Condition {
    // The condition's number. Refusals and cuts have one too, each by a cast, over which a trait would be longer.
    pub fn number(self) -> u8
        ensures { (result ≡ condition_number self) × (result ≤ 2) }
    {
        self as u8
    }
}

// Four positions of a barred pattern, i before j before k before l, and the condition that their labels meet.
#[derive(Clone, Copy)]
pub struct Pattern {
    pub condition: Condition,
    pub i: Position,
    pub j: Position,
    pub k: Position,
    pub l: Position,
}
