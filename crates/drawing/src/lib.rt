// A room of a floorplan, the corners of the rooms of a drawing, and how two rooms stand to each other. The definitions of the grid drawing
// and its theorems stand in specs/.
#![tactic(auto)]

ghost use Rattle.std.specs.Prelude.{◌≡◌, ◌≢◌, ◌⊎◌, suc, ◌≤◌, ◌<◌, length};
ghost use Rattle.finite.specs.Decide.{Tells};
ghost use Rattle.record.specs.Labels.{label_at};
ghost use Rattle.drawing.specs.Side.{side_of};
ghost use Rattle.drawing.specs.Corners.{room_in};
ghost use Rattle.drawing.specs.InnerLine.{InnerLineOf, ShareInnerLine, FaceOnOneLine};
ghost use Rattle.drawing.specs.Within.{Within};

use record::Position;

// "A room is four unsigned 16-bit numbers: left, bottom, right, top. Right is greater
// than left and top greater than bottom; y grows upward." "A room now carries a 16-bit
// name beside its four corners. Name 0 means unnamed and may occur often." (M-106)
#[repr(C)]
#[derive(Clone, Copy)]
pub struct Room {
    pub left: u16,
    pub bottom: u16,
    pub right: u16,
    pub top: u16,
    pub name: u16,
}

// The corners of the rooms of a drawing, each in a list by position. A record has at most 255 rooms.
#[derive(Clone, Copy)]
pub struct Corners {
    pub left: [u8; 255],
    pub bottom: [u8; 255],
    pub right: [u8; 255],
    pub top: [u8; 255],
}

impl Corners {
    // Nothing read yet: 0 everywhere.
    pub const NONE: Corners = Corners {
        left: [0; 255],
        bottom: [0; 255],
        right: [0; 255],
        top: [0; 255],
    };

    // The room with index i. It is unnamed.
    pub fn room(&self, i: usize) -> Room
        requires { i < 255 }
        ensures { result ≡ room_in self.now (suc i) }
    {
        Room {
            left: u16::from(self.left[i]),
            bottom: u16::from(self.bottom[i]),
            right: u16::from(self.right[i]),
            top: u16::from(self.top[i]),
            name: 0,
        }
    }
}

// "The relation (left, right, above, below) of the first to the second": the first room
// is left of the second, right of it, above it or below it.
#[derive(Clone, Copy)]
pub enum Side {
    Left,
    Right,
    Above,
    Below,
}

// "The relation of two positions shall say whether it is direct, by one segment that holds
// their facing edges, or only through a chain of more steps."
#[derive(Clone, Copy)]
pub struct Relation {
    pub side: Side,
    pub direct: bool,
}

// The index of a position: positions count from 1.
pub fn index(position: Position) -> usize
    requires { 1 ≤ position.0 }
    ensures { suc result ≡ position.0 }
{
    usize::from(position.0) - 1
}

// On which side of the room at the second position the one at the first stands. The room at the earlier position is left of the
// other one or below it, so the one at the later position is right of the other one or above it.
pub fn side_of(labels: &[u8], first: Position, second: Position) -> Side
    requires inside { (1 ≤ first.0) × (first.0 ≤ length labels.now) × (1 ≤ second.0) × (second.0 ≤ length labels.now) }
    requires different { first.0 ≢ second.0 }
    ensures { result ≡ side_of (label_at labels.now) first.0 second.0 }
{
    let i = index(first);
    let j = index(second);
    if i < j {
        if labels[i] < labels[j] {
            return Side::Left;
        }
        return Side::Below;
    }
    if labels[j] < labels[i] {
        return Side::Right;
    }
    Side::Above
}

// Whether the stretch from `from` to `to` and the one from `low` to `high`, both within 0 to n, have an end in common on one of the lines
// 1 to n - 1. A line on which one starts and the other ends is one of these; where both start, or both end, may be the outline. All of it
// is looked at, since no jump here can be foreseen. The stretches are numbers, two each: a type for them would be taken apart at once.
fn share_end(n: usize, from: u16, to: u16, low: u16, high: u16) -> bool
    requires { (from < to) × (to ≤ n) × (low < high) × (high ≤ n) }
    ensures { Tells result (InnerLineOf n low high from ⊎ InnerLineOf n low high to) }
{
    let both_start = (from == low) & (0 < from);
    let both_end = (to == high) & (usize::from(to) < n);
    ((from == high) | both_start) | ((to == low) | both_end)
}

// Whether two rooms of the drawing of n rooms share a line within the outline: an upright one with the left or the right edge of each
// on it, or a flat one with the bottom or the top edge of each. Such a line has one segment, so this tells whether the two touch.
pub fn share_inner_line(n: usize, first: Room, second: Room) -> bool
    requires { Within n first × Within n second }
    ensures { Tells result (ShareInnerLine n first second) }
{
    let across = share_end(n, first.left, first.right, second.left, second.right);
    let up = share_end(n, first.bottom, first.top, second.bottom, second.top);
    across | up
}

// Whether one of the stretches from `from` to `to` and from `low` to `high` ends where the other starts.
fn meet(from: u16, to: u16, low: u16, high: u16) -> bool
    ensures { Tells result ((from ≡ high) ⊎ (to ≡ low)) }
{
    (from == high) | (to == low)
}

// Whether one of two rooms of the drawing ends where the other starts, across or up. The edges that face each other there lie on one
// line, which has one segment, so this tells whether their relation is direct. Which of the four lines it is need not be asked: two
// rooms stand on one side of each other only.
pub fn face_on_one_line(first: Room, second: Room) -> bool
    ensures { Tells result (FaceOnOneLine first second) }
{
    let across = meet(first.left, first.right, second.left, second.right);
    let up = meet(first.bottom, first.top, second.bottom, second.top);
    across | up
}
