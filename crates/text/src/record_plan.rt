// The plan of a record, and what stands at its positions. It has a module of its own, since a struct with a ghost field imports every
// `ghost use` of its file, and those of lib.rt name definitions over `Plan`.
ghost use Rattle.std.specs.Prelude.{◌≡◌, ℕ, suc, ◌≤◌, ◌<◌};
ghost use Rattle.record.specs.Labels.{label_at};
ghost use Rattle.drawing.specs.Corners.{room_in};
ghost use Rattle.drawing.specs.Within.{Within};

use drawing::{Corners, Room};
use record::{Label, Position};

// The plan of a record: the labels and the corners of its rooms, by position. A record has 1 to 255 rooms, and they lie in the outline.
// That a position is one of the n stands in contracts and is no type: `Position` is the sheet's tuple struct, and n is the plan's.
#[derive(Clone, Copy)]
pub struct Plan {
    pub n: u8,
    pub labels: [u8; 255],
    pub corners: Corners,
    ghost some: { 1 ≤ n },
    ghost within: { (k : ℕ) → k < n → Within n (room_in corners (suc k)) },
}

impl Plan {
    // The label at a position.
    pub fn label(&self, position: Position) -> Label
        requires { (1 ≤ position.0) × (position.0 ≤ self.now.n) }
        ensures { result.0 ≡ label_at self.now.labels position.0 }
    {
        Label(self.labels[drawing::index(position)])
    }

    // The room at a position.
    pub fn room(&self, position: Position) -> Room
        requires { (1 ≤ position.0) × (position.0 ≤ self.now.n) }
        ensures value { result ≡ room_in self.now.corners position.0 }
        ensures within { Within self.now.n result }
    {
        self.corners.room(drawing::index(position))
    }
}
