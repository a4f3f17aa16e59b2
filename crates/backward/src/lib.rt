// The walk back from a record's last triple, which gives the labels, the rights and the tops.
#![tactic(auto)]

ghost use Rattle.std.specs.Prelude.{◌≡◌, ◌≤◌, ◌<◌, length};
ghost use Rattle.record.specs.Walk.{Accepted};
ghost use Rattle.record.specs.Record.{body_length, triple_in};
ghost use Rattle.steps.specs.Passes.{Unpacked, Lowers};
ghost use Rattle.backward.specs.Written.{Written};

use steps::{Notes, Runs};

// The labels from the end, where all are one run, back to the one at index `earliest`: the newest label is taken out of the
// current run. Of each run below, the stack has the lowest label and the position, less 1, that first came to lie below it; of each
// run above, the label under it and the position, less 1, that first came to lie above it. The body is what the contract speaks of;
// the triples are read as they were noted on the way forward.
pub fn walk(
    body: &[u8],
    n: usize,
    earliest: usize,
    notes: &Notes,
    labels: &mut [u8],
    right: &mut [u8],
    top: &mut [u8],
)
    requires accepted { (earliest < n) × (n ≤ 255) × (length body.now ≡ body_length n) × Accepted (triple_in body.now) n }
    requires noted { Unpacked (triple_in body.now) n notes.now.triples × Lowers (triple_in body.now) n notes.now.lower }
    requires room { (n ≤ length labels.old) × (n ≤ length right.old) × (n ≤ length top.old) }
    ensures { Written (triple_in body.now) n earliest
        labels.old right.old top.old labels.new right.new top.new }
{
    // Four stacks in arrays of their own, and no pairs: a turn reads a side's two at different heights.
    let mut below = [0u8; 255];
    let mut above = [0u8; 255];
    let mut tops = [0u8; 255];
    let mut rights = [0u8; 255];
    let mut runs = Runs { below: 0, above: 0 };
    let mut lowest = 1;
    let mut end_up = n;
    let mut end_right = n;
    for i in (earliest + 1..n).rev() {
        let label = lowest + usize::from(notes.lower[i]);
        labels[i] = label as u8;
        right[i] = end_right as u8;
        top[i] = end_up as u8;
        let turn = steps::turn_of(notes.triples[i - 1]);
        let under = runs.below + turn.below;
        let over = runs.above + turn.above;
        let low = steps::chosen(turn.below, lowest, usize::from(below[runs.below]));
        let high = steps::chosen(turn.above, label, usize::from(above[runs.above]));
        below[runs.below + 1] = lowest as u8;
        above[runs.above + 1] = label as u8;
        tops[runs.below + 1] = end_up as u8;
        rights[runs.above + 1] = end_right as u8;
        lowest = steps::chosen(turn.falls, high, low) + turn.falls;
        end_up = steps::chosen(turn.falls, i, usize::from(tops[under]));
        end_right = steps::chosen(turn.rises, i, usize::from(rights[over]));
        runs = Runs {
            below: under - turn.rises,
            above: over - turn.falls,
        };
    }
    let label = lowest + usize::from(notes.lower[earliest]);
    labels[earliest] = label as u8;
    right[earliest] = end_right as u8;
    top[earliest] = end_up as u8;
}
