// Rooms of real sizes, held against the relations of a plan in one walk along the triples of a record's body.
#![tactic(auto)]

ghost use Rattle.std.specs.Prelude.{◌≡◌, ◌+◌, length};
ghost use Rattle.finite.specs.Decide.{Tells};
ghost use Rattle.judging.specs.Walkable.{labels_in, Walkable};
ghost use Rattle.sizes.specs.Lists.{each_way, HonoursAll};

use placing::Lines;
use steps::Runs;

// Where a room ends that begins at a corner: it may lie beyond 32 bits.
fn end_of(corner: u32, size: u16) -> u64
    ensures { result ≡ corner + size }
{
    u64::from(corner) + u64::from(size)
}

// Whether rooms with these corners honour all relations: none begins before the line at which it would start. The lines of all runs are
// known as in the walk that finds the lowest corners (`placing::lowest`). The lists come one by one: C hands them over so, and they go on
// so to the end.
pub fn keeps(body: &[u8], widths: &[u16], heights: &[u16], x: &[u32], y: &[u32]) -> bool
    requires sizes { Walkable body.now (length widths.now) × (length heights.now ≡ length widths.now) }
    requires corners { (length x.now ≡ length widths.now) × (length y.now ≡ length widths.now) }
    ensures { Tells result (HonoursAll (labels_in body.now (length widths.now))
        (each_way widths.now heights.now) (each_way x.now y.now)) }
{
    let mut lines = Lines::at(0u64);
    let mut runs = Runs { below: 0, above: 0 };
    let mut right = end_of(x[0], widths[0]);
    let mut top = end_of(y[0], heights[0]);
    for k in 0..widths.len() - 1 {
        let turn = steps::turn_of(bits::group(body, k));
        let ends = lines.turn(runs, turn, right, top);
        let next = k + 1;
        if u64::from(x[next]) < ends.left {
            return false;
        }
        if u64::from(y[next]) < ends.bottom {
            return false;
        }
        right = end_of(x[next], widths[next]).max(ends.beside);
        top = end_of(y[next], heights[next]).max(ends.under);
        runs = ends.runs;
    }
    true
}
