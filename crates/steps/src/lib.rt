// One step of the walk: what a triple says of the new label, the table of the eight steps, and choosing by a bit.
#![tactic(auto)]

ghost use Rattle.std.specs.Prelude.{◌≡◌, ◌+◌, ◌-◌, ◌*◌, ◌≤◌, ◌<◌};
ghost use Rattle.record.specs.Walk.{step as table_step};
ghost use Rattle.record.specs.TripleNumber.{triple_of};
ghost use Rattle.steps.specs.Counts.{end_counts, lowered};
ghost use Rattle.steps.specs.Turn.{Says};

// What a triple says of the new label, each 1 or 0: it is joined to a run above it, to a run below it; it lies above the current
// run, below it. They are numbers, since the walks add them to their counts.
#[derive(Clone, Copy)]
pub struct Turn {
    pub above: usize,
    pub below: usize,
    pub rises: usize,
    pub falls: usize,
}

// A triple's three bits, of which the first is worth 4, taken apart. A triple is its number from 0 to 7, which the eight steps match on, and
// no type of its own: so each function that takes one asks that it is below 8.
pub fn turn_of(triple: u8) -> Turn
    requires { triple < 8 }
    ensures { Says (triple_of triple) result }
{
    let number = usize::from(triple);
    let falls = number & 1;
    Turn {
        above: number >> 2,
        below: (number >> 1) & 1,
        rises: 1 - falls,
        falls,
    }
}

// What the walk forward notes for the walk back: of each position after the first the number of its triple, and of each position how
// many labels of its run lie below it. A record has at most 255 positions.
#[derive(Clone, Copy)]
pub struct Notes {
    pub triples: [u8; 255],
    pub lower: [u8; 255],
}

impl Notes {
    // Nothing noted yet: 0 everywhere.
    pub const NONE: Notes = Notes {
        triples: [0; 255],
        lower: [0; 255],
    };
}

// How many runs lie below the current one and how many above it.
#[derive(Clone, Copy)]
pub struct Runs {
    pub below: usize,
    pub above: usize,
}

// Two counts of runs, those below the current run and those above it, with 2 added to each: so a count of one less than none is a
// number too, and tells that the run which was to be joined is missing.
#[derive(Clone, Copy)]
struct Raised(usize, usize);

// The eight steps: each row is the sheet's column "p, q after". Every row is a sum, so that the compiler makes a table of what is
// added and no jump, which could not be foreseen.
fn step(triple: u8, runs: Runs) -> Raised
    requires { (triple < 8) × (runs.below ≤ 255) × (runs.above ≤ 255) }
    ensures { lowered result ≡ table_step (triple_of triple) runs.below runs.above }
{
    let Runs { below, above } = runs;
    match triple {
        0 => Raised(below + 3, above + 2),
        1 => Raised(below + 2, above + 3),
        2 => Raised(below + 2, above + 2),
        3 => Raised(below + 1, above + 3),
        4 => Raised(below + 3, above + 1),
        5 => Raised(below + 2, above + 2),
        6 => Raised(below + 2, above + 1),
        _ => Raised(below + 1, above + 2),
    }
}

// The counts themselves; none where one is less than none.
#[tactic(auto, using(crate::specs::Table::less_is, crate::specs::Table::less_below, crate::specs::Table::less_above))]
fn counted(raised: Raised) -> Option<Runs>
    ensures { end_counts result ≡ lowered raised }
{
    let below = raised.0.checked_sub(2)?;
    let above = raised.1.checked_sub(2)?;
    Some(Runs { below, above })
}

// The counts of runs after one more triple; none where it needs a run that is missing.
pub fn next(triple: u8, runs: Runs) -> Option<Runs>
    requires { (triple < 8) × (runs.below ≤ 255) × (runs.above ≤ 255) }
    ensures { end_counts result ≡ table_step (triple_of triple) runs.below runs.above }
{
    counted(step(triple, runs))
}

// One of two numbers, as a bit says. The compiler makes no jump of it, which could not be foreseen.
pub fn chosen(bit: usize, one: usize, zero: usize) -> usize
    requires { bit ≤ 1 }
    ensures { result ≡ bit * one + (1 - bit) * zero }
{
    if bit == 1 {
        return one;
    }
    zero
}
