// The record of a label list in one pass, which also finds whether the list is Baxter.
#![tactic(auto)]

ghost use Rattle.std.specs.Prelude.{◌≡◌, ◌+◌, ◌*◌, ◌≤◌, ◌<◌, length, replicate};
ghost use Rattle.finite.specs.Decide.{Tells};
ghost use Rattle.record.specs.Labels.{LabelOutside};
ghost use Rattle.record.specs.TripleNumber.{triple_of};
ghost use Rattle.record.specs.TripleSet.{TripleSet};
ghost use Rattle.encoding.specs.Encoded.{Encoded, PastRuns};

use record::Label;

// Whether the label is past the nearest run on some side. It can be so only on the side to which it turns, and there is no need to ask
// which side that is.
fn past_runs(label: Label, below: Label, above: Label) -> bool
    ensures { Tells result (PastRuns label.0 below.0 above.0) }
{
    label.0 < below.0 || above.0 < label.0
}

// How many runs lie on one side after a step: one more for a step away from that side, less one that the label is joined to.
fn runs_after(runs: usize, away: usize, joined: usize) -> usize
    requires { (joined ≤ runs + away) × (runs ≤ 255) × (away ≤ 1) }
    ensures { result + joined ≡ runs + away }
{
    runs + away - joined
}

// The number of a triple, from its three bits.
fn triple_number(first: usize, second: usize, third: usize) -> u8
    requires { (first ≤ 1) × (second ≤ 1) × (third ≤ 1) }
    ensures { (result ≡ 4 * first + 2 * second + third) × (result < 8) }
{
    (4 * first + 2 * second + third) as u8
}

// Sets the triple of position 8m + i + 2, a number from 0 to 7, in a record: its three bits, in the bytes that have them.
fn set_triple(record: &mut [u8], m: usize, i: usize, triple: u8)
    requires { (8 + 3 * (8 * m + i) + 3 ≤ 8 * length «record».old) × (length «record».old ≤ 97) × (triple < 8) }
    ensures { TripleSet «record».old «record».new (8 * m + i + 2) (triple_of triple) }
{
    bits::set_group(&mut record[1..], m, i, triple);
}

// Writes the record of the labels to the front of 97 bytes that are zero, each triple in its place, in one pass with the other runs in
// two stacks: of each run one label is kept. False where the list is not Baxter: a label was seen before, or it lies past the nearest
// run on its side. The two stacks start with a label that no label lies past. Each turn pushes the last label on both; the counts of
// runs say how much of a stack is in use. Bits are whole words here: with bytes a turn may wait for the one before. Eight triples fill
// three bytes, and the turns go in eights: the compiler writes the eight out, and knows the place of each triple in its bytes.
pub fn encode(labels: &[u8], record: &mut [u8]) -> bool
    requires count { (1 ≤ length labels.now) × (length labels.now ≤ 255) }
    requires inside { ¬ LabelOutside labels.now }
    requires zero { «record».old ≡ replicate 97 0 }
    ensures { Encoded result labels.now «record».new }
{
    let n = labels.len();
    record[0] = n as u8;
    let mut seen = [0u8; 32];
    // Each stack is an array, with its count beside it: in a struct with the array, which is indexed, a turn waits for the count in
    // memory, and the pass takes a fifth longer.
    let mut below = [Label(0); 255];
    let mut above = [Label(255); 255];
    let mut runs_below = 0;
    let mut runs_above = 0;
    let mut last = Label(labels[0]);
    marks::mark(&mut seen, last.0);
    // So many eights have the n - 1 triples.
    for m in 0..(n + 6) / 8 {
        for i in 0..8 {
            let next = 8 * m + i + 1;
            if next == n {
                return true;
            }
            let label = Label(labels[next]);
            let at = label.index();
            if marks::mark(&mut seen, label.0) {
                return false;
            }
            let third_bit = usize::from(label.0 < last.0);
            let second_bit = marks::mark_of(&seen, at - 1);
            let first_bit = marks::mark_of(&seen, at + 1);
            let triple = triple_number(first_bit, second_bit, third_bit);
            set_triple(record, m, i, triple);
            if past_runs(label, below[runs_below], above[runs_above]) {
                return false;
            }
            below[runs_below + 1] = last;
            above[runs_above + 1] = last;
            runs_below = runs_after(runs_below, 1 - third_bit, second_bit);
            runs_above = runs_after(runs_above, third_bit, first_bit);
            last = label;
        }
    }
    true
}
