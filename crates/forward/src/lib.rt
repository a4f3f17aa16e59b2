// The walk along a record's triples from the front, with what is noted of each position on the way.
#![tactic(auto)]

ghost use Rattle.std.specs.Prelude.{◌≡◌, ◌-◌, ◌≤◌, length};
ghost use Rattle.record.specs.Walk.{walk};
ghost use Rattle.record.specs.Record.{body_length, triple_in};
ghost use Rattle.steps.specs.Counts.{end_counts};
ghost use Rattle.forward.specs.Noted.{Noted};

use steps::{Notes, Runs};

// The walk, with the size and the newest position of each run: a stack of each for the runs below and one for those above, the
// nearest run's on top. Each turn pushes the current run's on both; the counts of runs say how much of a stack is in use. The
// triples are noted by their numbers; of each position, how many labels of its run lie below it is noted, and the newest
// positions in the runs next below and next above its label, which are its room's left and bottom. None where a run is missing. The body and
// its count of rooms are two parameters, here and in the other walks, since each of these asks another fact of the two.
pub fn walk(
    body: &[u8],
    n: usize,
    notes: &mut Notes,
    left: &mut [u8; 255],
    bottom: &mut [u8; 255],
) -> Option<Runs>
    requires { (1 ≤ n) × (n ≤ 255) × (length body.now ≡ body_length n) }
    ensures counts { end_counts result ≡ walk (triple_in body.now) (n - 1) }
    ensures noted { Noted result (triple_in body.now) n notes.new left.new bottom.new }
{
    // Four stacks in arrays of their own, and no pairs: a turn reads a side's sizes and its newest positions at different heights.
    let mut below = [0u8; 255];
    let mut above = [0u8; 255];
    let mut newest_below = [0u8; 255];
    let mut newest_above = [0u8; 255];
    let mut runs = Runs { below: 0, above: 0 };
    let mut size = 1;
    notes.lower[0] = 0;
    left[0] = 0;
    bottom[0] = 0;
    for k in 0..n - 1 {
        let triple = bits::group(body, k);
        notes.triples[k] = triple;
        let after = steps::next(triple, runs)?;
        let turn = steps::turn_of(triple);
        let under = steps::chosen(turn.rises, size, usize::from(below[runs.below]));
        let over = steps::chosen(turn.falls, size, usize::from(above[runs.above]));
        let labels_below = steps::chosen(turn.below, under, 0);
        below[runs.below + 1] = size as u8;
        above[runs.above + 1] = size as u8;
        size = 1 + labels_below + steps::chosen(turn.above, over, 0);
        let next = k + 1;
        newest_below[runs.below + 1] = next as u8;
        newest_above[runs.above + 1] = next as u8;
        notes.lower[next] = labels_below as u8;
        left[next] = newest_below[runs.below + turn.rises];
        bottom[next] = newest_above[runs.above + turn.falls];
        runs = after;
    }
    Some(runs)
}
