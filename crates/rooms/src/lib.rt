// Room lists: outline, causes, segments, the two orders, labels, records, and when two lists are equivalent, all of it in specs/; the
// sides of the outline; and the rooms' corners as they are worked on, in four lists.
#![tactic(auto)]

ghost use Rattle.std.specs.Prelude.{◌≡◌, ◌≤◌, ◌<◌, length, get_or};
ghost use Rattle.finite.specs.Extremes.{least, greatest};
ghost use Rattle.rooms.specs.Corners.{OneLength, corners_at};

use drawing::Room;

// The corners of 1 to 255 rooms in four lists of one length, each corner at its room's place. Where one side's corners stand in a list, the
// compiler looks at several rooms at a time.
#[derive(Clone, Copy)]
pub struct CornerLists<'a> {
    pub left: &'a [u16],
    pub bottom: &'a [u16],
    pub right: &'a [u16],
    pub top: &'a [u16],
    ghost one_length: { OneLength left.now bottom.now right.now top.now },
    ghost some: { 1 ≤ length left.now },
    ghost few: { length left.now ≤ 255 },
}

impl<'a> CornerLists<'a> {
    // How many rooms there are.
    pub fn len(&self) -> usize
        ensures { result ≡ length self.now.left.now }
    {
        self.left.len()
    }

    // The room at place i, without its name.
    pub fn room(&self, i: usize) -> Room
        requires { i < length self.now.left.now }
        ensures { result ≡ corners_at self.now.left.now self.now.bottom.now self.now.right.now self.now.top.now i }
    {
        Room {
            left: self.left[i],
            bottom: self.bottom[i],
            right: self.right[i],
            top: self.top[i],
            name: 0,
        }
    }

    // The same lists with bottoms and tops exchanged: what leads up leads down.
    pub fn upside_down(&self) -> CornerLists<'a>
        ensures left { result.left.now ≡ self.now.left.now }
        ensures bottom { result.bottom.now ≡ self.now.top.now }
        ensures right { result.right.now ≡ self.now.right.now }
        ensures top { result.top.now ≡ self.now.bottom.now }
    {
        CornerLists {
            left: self.left,
            bottom: self.top,
            right: self.right,
            top: self.bottom,
        }
    }
}

// The smallest of the corners, which is a side of the outline where they are lefts or bottoms; and the largest, where they are rights
// or tops.
#[tactic(auto, using(finite::specs::Extremes::least_of_one, finite::specs::Extremes::least_more))]
pub fn lowest(corner: &[u16]) -> u16
    requires { 0 < length corner.now }
    ensures { result ≡ least (λ i. get_or corner.now i 0) (length corner.now) }
{
    let mut smallest = corner[0];
    for i in 1..corner.len() {
        smallest = smallest.min(corner[i]);
    }
    smallest
}

#[tactic(auto, using(finite::specs::Extremes::greatest_more), unfolding(finite::specs::Extremes::greatest))]
pub fn highest(corner: &[u16]) -> u16
    ensures { result ≡ greatest (λ i. get_or corner.now i 0) (length corner.now) }
{
    let mut largest = 0;
    for &x in corner {
        largest = largest.max(x);
    }
    largest
}
