// The cutting tree of a slicing plan: definitions and theorems stand in specs/.
#![tactic(auto)]

ghost use Rattle.std.specs.Prelude.{◌≡◌};
ghost use Rattle.slicing.specs.Cuts.{opposite};
ghost use Rattle.slicing.specs.Tree.{kind_of_cut};

// By which lines a part of a plan is cut into two parts or more. The numbers are the kinds of a node that is cut so.
#[derive(Clone, Copy)]
pub enum Cut {
    // left to right
    Vertical = 2,
    // bottom to top
    Horizontal = 3,
}

impl Cut {
    // The lines of the next level.
    pub fn opposite(self) -> Cut
        ensures { result ≡ opposite self }
    {
        match self {
            Cut::Vertical => Cut::Horizontal,
            Cut::Horizontal => Cut::Vertical,
        }
    }

    // The kind of a node.
    pub fn kind(self) -> u8
        ensures { result ≡ kind_of_cut self }
    {
        self as u8
    }
}
