// Judging a record without reading its labels: how many rooms and falls it has, or the refusal 9, 10, 11, 14, 12 or 13, in this
// order. The checks before and after the walk are public, since reading the labels has the same.
#![tactic(auto)]

ghost use Rattle.std.specs.Prelude.{◌≡◌, true, ◌+◌, ◌-◌, ◌*◌, ◌/◌, ◌%◌, ◌≤◌, ◌<◌, length};
ghost use Rattle.finite.specs.Decide.{Tells};
ghost use Rattle.finite.specs.Search.{Some};
ghost use Rattle.bits.specs.Bit.{bit_at};
ghost use Rattle.record.specs.Record.{body_length, triple_in};
ghost use Rattle.record.specs.TripleNumber.{triple_of};
ghost use Rattle.steps.specs.Counts.{end_counts};
ghost use Rattle.judging.specs.Judge.{BodyChecked, Clear, EndChecked, Tallied, Judges};
ghost use Rattle.judging.specs.Packed.{Row, Lacks, Packs, Walked};

use record::Refusal;
use steps::Runs;

// Whether a bit after the first `used` is set. They are the low bits of the last byte.
fn spare_bit(body: &[u8], used: usize) -> bool
    requires { (used ≤ 765) × (length body.now ≡ (used + 7) / 8) }
    ensures { Tells result (Some (λ i. bit_at body.now i ≡ true) used (8 * length body.now)) }
{
    let spare = 8 * body.len() - used;
    if spare == 0 {
        return false;
    }
    let last = usize::from(body[body.len() - 1]);
    (last >> spare) << spare != last
}

// The checks before the walk, 9, 10, 11 and 14, of a record that has so many rooms.
pub fn check_body(record: &[u8]) -> Result<usize, Refusal>
    ensures { BodyChecked result «record».now }
{
    if record.is_empty() {
        return Err(Refusal::NoKind);
    }
    let n = usize::from(record[0]);
    if n == 0 {
        return Err(Refusal::NoKind);
    }
    let used = 3 * n - 3;
    let size = (used + 7) / 8;
    let body = &record[1..];
    if body.len() < size {
        return Err(Refusal::ShortBody);
    }
    if size < body.len() {
        return Err(Refusal::BytesAfter);
    }
    if spare_bit(body, used) {
        return Err(Refusal::SpareBit);
    }
    Ok(n)
}

// The checks after the walk, 12 and 13, of a record that has n rooms.
pub fn check_end(end: Option<Runs>, n: usize) -> Result<usize, Refusal>
    ensures { EndChecked result (end_counts end) n }
{
    match end {
        None => Err(Refusal::MissingRun),
        Some(runs) if runs.below == 0 && runs.above == 0 => Ok(n),
        Some(_) => Err(Refusal::SeveralRuns),
    }
}

// The walk without labels keeps its counts in one word, so that a step is one sum. The low 16 bits hold 2^15 - 1 less the runs below,
// the next 16 bits 2^15 - 1 less the runs above: a count of one less than none sets the highest bit. The bits over them count 1 for each
// step and 1 more for each fall.
const ABOVE: usize = 65536;

const STEP: usize = 4294967296;

// What a triple adds to the word.
fn row(triple: usize) -> usize
    requires { triple < 8 }
    ensures { Row (triple_of triple) result }
{
    match triple {
        0 => STEP - 1,
        1 => 2 * STEP - ABOVE,
        2 => STEP,
        3 => 2 * STEP - ABOVE + 1,
        4 => STEP + ABOVE - 1,
        5 => 2 * STEP,
        6 => STEP + ABOVE,
        _ => 2 * STEP + 1,
    }
}

// Whether a run is missing.
fn lacks(tally: usize) -> bool
    ensures { Tells result (Lacks tally) }
{
    32768 <= tally % 65536 || 32768 <= tally / 65536 % 65536
}

// Eight steps, from triple 8m on: their triples come from three bytes at once. The word after them; none where a triple needs a run that
// is missing.
fn eight_steps(body: &[u8], m: usize, before: usize) -> Option<usize>
    requires { (m < 32) × (3 * m < length body.now) × (length body.now ≤ 96) × Packs (triple_in body.now) (8 * m) before }
    ensures { Walked result (triple_in body.now) (8 * m + 8) }
{
    let word = bits::eight_groups(body, m);
    let mut tally = before;
    for i in 0..8 {
        tally += row(bits::group_of_word(word, i));
        if lacks(tally) {
            return None;
        }
    }
    Some(tally)
}

// The walk over so many words of eight triples.
fn walk_words(body: &[u8], words: usize) -> Option<usize>
    requires { (words ≤ 32) × (3 * words ≤ length body.now + 2) × (length body.now ≤ 96) }
    ensures { Walked result (triple_in body.now) (8 * words) }
{
    let mut tally = 32767 + 32767 * ABOVE;
    for m in 0..words {
        tally = eight_steps(body, m, tally)?;
    }
    Some(tally)
}

// Where the walk without labels ends: the runs beside the last one, and how many falls there were.
#[derive(Clone, Copy)]
struct Tally {
    runs: Runs,
    falls: usize,
}

// The walk without labels, over whole words; none where a run is missing. The bits past the last triple are 0, as the checks before the
// walk saw to: each triple there would be one more run below, and no fall.
fn count_walk(body: &[u8], n: usize) -> Option<Tally>
    requires { (1 ≤ n) × (n ≤ 255) × (length body.now ≡ body_length n) × Clear body.now (3 * n - 3) }
    ensures { Tallied (triple_in body.now) n result }
{
    let words = (n + 6) / 8;
    let tally = walk_words(body, words)?;
    let past = 8 * words + 1 - n;
    Some(Tally {
        runs: Runs {
            below: 32767 - tally % 65536 - past,
            above: 32767 - tally / 65536 % 65536,
        },
        falls: tally / STEP - 8 * words,
    })
}

// How many rooms an accepted record has, and how many falls.
#[derive(Clone, Copy)]
pub struct Judged {
    pub rooms: usize,
    pub falls: usize,
}

// Judges a record without reading its labels.
pub fn judge(record: &[u8]) -> Result<Judged, Refusal>
    ensures { Judges result «record».now }
{
    let n = check_body(record)?;
    let Some(tally) = count_walk(&record[1..], n) else {
        return Err(Refusal::MissingRun);
    };
    let rooms = check_end(Some(tally.runs), n)?;
    Ok(Judged {
        rooms,
        falls: tally.falls,
    })
}
