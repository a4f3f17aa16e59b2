// Labels in: a label list becomes its record, or is refused with 1, 6, 7, 8 or 15, in this order. And the verdict on a label list
// alone: 1, 6, 7, 8 or sound.
#![tactic(auto)]

ghost use Rattle.std.specs.Prelude.{◌≡◌, ◌≤◌, length};
ghost use Rattle.finite.specs.Decide.{Tells};
ghost use Rattle.record.specs.Labels.{LabelOutside, LabelTwice};
ghost use Rattle.record.specs.Answer.{LabelsIn};
ghost use Rattle.labels.specs.Verdict.{verdict_of};

use record::Refusal;

// Whether some label is not one of 1 to n. No early end: the whole list costs less than the tests.
pub fn outside(labels: &[u8]) -> bool
    requires { length labels.now ≤ 255 }
    ensures { Tells result (LabelOutside labels.now) }
{
    let most = labels.len() as u8;
    let mut found = false;
    for &label in labels {
        if label == 0 || most < label {
            found = true;
        }
    }
    found
}

// Whether some label occurs twice.
fn twice(labels: &[u8]) -> bool
    ensures { Tells result (LabelTwice labels.now) }
{
    let mut seen = [0u8; 32];
    for &label in labels {
        if marks::mark(&mut seen, label) {
            return true;
        }
    }
    false
}

// The record of a label list, from the front of the record slice, and its length; or the refusal, and the slice as it was. The record
// is made in bytes of its own and copied last, since only the whole pass tells that a list is good.
pub fn labels_in(labels: &[u8], record: &mut [u8]) -> Result<usize, Refusal>
    ensures { LabelsIn labels.now «record».old result «record».new }
{
    let n = labels.len();
    if n == 0 || 255 < n {
        return Err(Refusal::Count);
    }
    if outside(labels) {
        return Err(Refusal::LabelOutside);
    }
    let mut written = [0u8; 97];
    if !encoding::encode(labels, &mut written) {
        if twice(labels) {
            return Err(Refusal::LabelTwice);
        }
        return Err(Refusal::BarredPattern);
    }
    let size = 1 + (3 * n - 3 + 7) / 8;
    if record.len() < size {
        return Err(Refusal::ShortOutput);
    }
    record[..size].copy_from_slice(&written[..size]);
    Ok(size)
}

// The verdict on a label list, for calls that take labels in another form: the answer of Labels in, with room for the longest record,
// tells it.
pub fn judge(labels: &[u8]) -> Result<(), Refusal>
    ensures { result ≡ verdict_of labels.now }
{
    let mut record = [0u8; 97];
    match labels_in(labels, &mut record) {
        Ok(_) => Ok(()),
        Err(refusal) => Err(refusal),
    }
}
