// Reading a record: its labels, or the refusal 9, 10, 11, 14, 12 or 13, in this order.
#![tactic(auto)]

ghost use Rattle.std.specs.Prelude.{◌≡◌, ◌≤◌, ◌<◌, length};
ghost use Rattle.backward.specs.Written.{Written};
ghost use Rattle.reading.specs.Answer.{reading_of, Reads, Ready, triples_of, Leaves};

use record::Refusal;
use steps::Notes;

// The first refusal of the order whose cause the record has; else how many labels it has, and what is noted of each of them for
// `finish`, with the rooms' lefts and bottoms.
fn check(
    record: &[u8],
    notes: &mut Notes,
    left: &mut [u8; 255],
    bottom: &mut [u8; 255],
) -> Result<usize, Refusal>
    ensures answer { result ≡ reading_of «record».now }
    ensures noted { Reads result «record».now notes.new left.new bottom.new }
{
    let n = judging::check_body(record)?;
    let end = forward::walk(&record[1..], n, notes, left, bottom);
    judging::check_end(end, n)
}

// The labels of a record that is not refused, and the rights and tops of the rooms, each at its index, from index `earliest` on;
// what stands before that is left.
fn finish(
    record: &[u8],
    n: usize,
    earliest: usize,
    notes: &Notes,
    labels: &mut [u8],
    right: &mut [u8],
    top: &mut [u8],
)
    requires ready { Ready «record».now n notes.now }
    requires room { (earliest < n) × (n ≤ length labels.old) × (n ≤ length right.old) × (n ≤ length top.old) }
    ensures { Written (triples_of «record».now) n earliest
        labels.old right.old top.old labels.new right.new top.new }
{
    backward::walk(&record[1..], n, earliest, notes, labels, right, top);
}

// Reading a record: the first refusal of the order whose cause it has; else how many labels it has, and of each room left and
// bottom. From index `earliest` on the labels, rights and tops are written too, where there are `places` for all of the record's;
// else their slices are left as they were.
pub fn read(
    record: &[u8],
    earliest: usize,
    places: usize,
    left: &mut [u8; 255],
    bottom: &mut [u8; 255],
    labels: &mut [u8],
    right: &mut [u8],
    top: &mut [u8],
) -> Result<usize, Refusal>
    requires { (places ≤ length labels.old) × (places ≤ length right.old) × (places ≤ length top.old) }
    ensures answer { result ≡ reading_of «record».now }
    ensures leaves { Leaves result «record».now earliest places left.new bottom.new
        labels.old right.old top.old labels.new right.new top.new }
{
    let mut notes = Notes::NONE;
    let n = check(record, &mut notes, left, bottom)?;
    if n <= places && earliest < n {
        finish(record, n, earliest, &notes, labels, right, top);
    }
    Ok(n)
}
