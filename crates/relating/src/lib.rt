// Which relations occur between the rooms of two groups, seen in one walk along the triples of a record's body.
#![tactic(auto)]

ghost use Rattle.std.specs.Prelude.{suc, ◌≤◌, ◌<◌};
ghost use Rattle.finite.specs.Decide.{Tells};
ghost use Rattle.finite.specs.Marks.{Marks};
ghost use Rattle.record.specs.Labels.{label_at};
ghost use Rattle.judging.specs.Walkable.{labels_in, Walkable};
ghost use Rattle.sizes.specs.Direction.{across, upward};
ghost use Rattle.groups.specs.Group.{Member, EachIn};
ghost use Rattle.groups.specs.Pairs.{SomeBefore};

use placing::Lines;
use steps::Runs;

// 1 where the position after an index is in the group, else 0.
pub fn member(group: &[u8; 32], i: usize) -> u8
    requires { i < 256 }
    ensures { Marks result (Member group.now (suc i)) }
{
    (group[i / 8] >> (i % 8)) & 1
}

// Whether some room of the first group is left of some room of the second, and whether one is below one.
#[derive(Clone, Copy)]
pub struct Seen {
    pub left: bool,
    pub below: bool,
}

// The walk, up to the last position of the second group. With each run goes a bit across, which is 1 where a room of the first group is in
// it or in a run below it, and a bit upward, for it and the runs above it: as for rooms of real sizes (`placing`), a line that lies at 1
// behind a room of the first group and else at 0. A new room has a room of the first left of it where the bit across of the run that it
// meets below is 1, and one below it where the bit upward of the run that it meets above is 1. Where both have occurred the walk ends.
pub fn relations(body: &[u8], n: usize, last: usize, first: &[u8; 32], second: &[u8; 32]) -> Seen
    requires { Walkable body.now n × (1 ≤ last) × (last ≤ n) × EachIn second.now (λ j. j ≤ last) }
    ensures left { Tells result.left (SomeBefore (label_at (labels_in body.now n)) across
        first.now second.now) }
    ensures below { Tells result.below (SomeBefore (label_at (labels_in body.now n)) upward
        first.now second.now) }
{
    let mut lines = Lines::at(0u8);
    let mut runs = Runs { below: 0, above: 0 };
    let mut right = member(first, 0);
    let mut top = right;
    let mut some_left = 0u8;
    let mut some_below = 0u8;
    let mut end = last;
    let mut k = 0;
    // A while: where both have occurred its end comes at once, chosen with no jump.
    while k + 1 < end {
        let turn = steps::turn_of(bits::group(body, k));
        let ends = lines.turn(runs, turn, right, top);
        k += 1;
        let one = member(first, k);
        let other = member(second, k);
        some_left |= ends.left & other;
        some_below |= ends.bottom & other;
        right = ends.left | ends.beside | one;
        top = ends.bottom | ends.under | one;
        runs = ends.runs;
        end = steps::chosen(usize::from(some_left & some_below), 0, end);
    }
    Seen {
        left: some_left == 1,
        below: some_below == 1,
    }
}
