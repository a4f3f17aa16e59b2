// Rooms of real sizes, placed in one walk along the triples of a record's body: their lowest corners, and the needed lengths.
#![tactic(auto)]

ghost use Rattle.std.specs.Prelude.{◌≡◌, ◌≤◌, ◌+◌, ◌-◌, length, get_or, set, replicate};
ghost use Rattle.steps.specs.Stack.{either};
ghost use Rattle.record.specs.Labels.{label_at};
ghost use Rattle.sizes.specs.Direction.{across, upward};
ghost use Rattle.judging.specs.Walkable.{labels_in, Walkable};
ghost use Rattle.placing.specs.Along.{LowestFor};
ghost use Rattle.placing.specs.Room.{HasRoom};

use steps::{Runs, Turn};

// The line of a room lies at the furthest end of it and of the rooms behind it. Of the current run and of the runs below it and above it
// the line of the newest room is known, across and up, in a stack for each, the nearest run's on top; under each stack is the outline's
// line, 0. Each turn stores the current run's lines above the tops, and the counts of runs say how much of a stack is in use. A new room
// starts across at the line of the run that it meets below it, and up at that of the run that it meets above it. It ends on one line with
// the other of the two where the triple joins it to that.

// The needed length each way.
#[derive(Clone, Copy)]
pub struct Needed {
    pub across: u32,
    pub up: u32,
}

// The lines at which a new room starts, those of the runs that it ends on one line with (else the outline's), and the runs after it.
#[derive(Clone, Copy)]
pub struct Ends<T: Copy> {
    pub left: T,
    pub bottom: T,
    pub beside: T,
    pub under: T,
    pub runs: Runs,
}

// The four stacks. The counts of runs stand outside: beside the arrays they would wait in memory, which took 1,473 nanoseconds for 255
// rooms where this took 1,370.
#[derive(Clone, Copy)]
pub struct Lines<T: Copy> {
    pub across_below: [T; 256],
    pub across_above: [T; 256],
    pub up_below: [T; 256],
    pub up_above: [T; 256],
}

impl<T: Copy> Lines<T> {
    // The outline's line under each stack.
    pub fn at(line: T) -> Lines<T>
        ensures { (result.across_below ≡ replicate 256 line) × (result.across_above ≡ replicate 256 line)
            × (result.up_below ≡ replicate 256 line) × (result.up_above ≡ replicate 256 line) }
    {
        Lines {
            across_below: [line; 256],
            across_above: [line; 256],
            up_below: [line; 256],
            up_above: [line; 256],
        }
    }

    // Ends the current run's line on both sides, and answers the lines that the new room meets.
    pub fn turn(&mut self, runs: Runs, turn: Turn, right: T, top: T) -> Ends<T>
        requires { HasRoom runs.below runs.above turn }
        ensures stored { (self.new.across_below ≡ set self.old.across_below (runs.below + 1) right)
            × (self.new.across_above ≡ set self.old.across_above (runs.above + 1) right)
            × (self.new.up_below ≡ set self.old.up_below (runs.below + 1) top)
            × (self.new.up_above ≡ set self.old.up_above (runs.above + 1) top) }
        ensures counted { (result.runs.below ≡ runs.below + turn.rises - turn.below)
            × (result.runs.above ≡ runs.above + turn.falls - turn.above) }
        ensures left { (d : T) → result.left ≡ get_or self.new.across_below (runs.below + turn.rises) d }
        ensures bottom { (d : T) → result.bottom ≡ get_or self.new.up_above (runs.above + turn.falls) d }
        ensures beside { (d : T) → result.beside ≡ get_or self.new.across_above (either turn.above (runs.above + turn.falls) 0) d }
        ensures under { (d : T) → result.under ≡ get_or self.new.up_below (either turn.below (runs.below + turn.rises) 0) d }
    {
        self.across_below[runs.below + 1] = right;
        self.across_above[runs.above + 1] = right;
        self.up_below[runs.below + 1] = top;
        self.up_above[runs.above + 1] = top;
        let below = runs.below + turn.rises;
        let above = runs.above + turn.falls;
        Ends {
            left: self.across_below[below],
            bottom: self.up_above[above],
            beside: self.across_above[steps::chosen(turn.above, above, 0)],
            under: self.up_below[steps::chosen(turn.below, below, 0)],
            runs: Runs {
                below: below - turn.below,
                above: above - turn.above,
            },
        }
    }
}

// The lowest corners of the rooms, from the front of two slices, and the needed lengths. The lists come one by one: C hands them over so,
// and they go on so to the end.
pub fn lowest(body: &[u8], widths: &[u16], heights: &[u16], x: &mut [u32], y: &mut [u32]) -> Needed
    requires sizes { Walkable body.now (length widths.now) × (length heights.now ≡ length widths.now) }
    requires places { (length widths.now ≤ length x.old) × (length widths.now ≤ length y.old) }
    ensures across { LowestFor (label_at (labels_in body.now (length widths.now))) across
        (length widths.now) widths.now x.old result.across x.new }
    ensures upward { LowestFor (label_at (labels_in body.now (length widths.now))) upward
        (length widths.now) heights.now y.old result.up y.new }
{
    let mut lines = Lines::at(0u32);
    let mut runs = Runs { below: 0, above: 0 };
    let mut right = u32::from(widths[0]);
    let mut top = u32::from(heights[0]);
    for k in 0..widths.len() - 1 {
        let turn = steps::turn_of(bits::group(body, k));
        let ends = lines.turn(runs, turn, right, top);
        let next = k + 1;
        x[next] = ends.left;
        y[next] = ends.bottom;
        right = (ends.left + u32::from(widths[next])).max(ends.beside);
        top = (ends.bottom + u32::from(heights[next])).max(ends.under);
        runs = ends.runs;
    }
    x[0] = 0;
    y[0] = 0;
    Needed {
        across: right,
        up: top,
    }
}
