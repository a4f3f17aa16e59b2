// The numbers of a line: in one pass the form is checked and it is noted where each number begins, and then the numbers are read. There
// is no branch on what a byte is, since nobody can foresee what many hands have typed.
#![tactic(auto)]

ghost use Rattle.std.specs.Prelude.{◌≡◌, ◌≤◌, length, get_or, replicate};
ghost use Rattle.labeltext.specs.Symbol.{symbol_of};
ghost use Rattle.numbers.specs.Places.{place_after, begins_at, Rows, Standing, Reached, MayEnd};
ghost use Rattle.numbers.specs.Number.{number_in, as_byte};
ghost use Rattle.numbers.specs.Store.{Starts, Gathered, Labelled, ReadAs};

use record::Refusal;

// The first three bytes of each number, in three lists: with them side by side the compiler reads several numbers at a time.
#[derive(Clone, Copy)]
struct Digits {
    first: [u8; 255],
    second: [u8; 255],
    third: [u8; 255],
}

// Places in the form, in steps of 8: the form is broken; after one, two or three digits of a number; no number yet; after spaces; after
// a comma. They are numbers, and no enum: a place is the shift by which a row gives the place that follows.
const BROKEN: u64 = 0;

const TWO: u64 = 16;

const START: u64 = 32;

const COMMA: u64 = 48;

// For each kind of byte a row: the eight bits of the row from a place on are the place that follows it.
//
//            broken 0   one 8   two 16   three 24   start 32   spaces 40   comma 48
// a digit           0      16       24          0          8           8          8
// a space           0      40       40         40         32          40         48
// a comma           0      48       48         48          0          48          0
const AFTER_DIGIT: u64 = 0x0008_0808_0018_1000;

const AFTER_SPACE: u64 = 0x0030_2820_2828_2800;

const AFTER_COMMA: u64 = 0x0000_3000_3030_3000;

// The rows of all bytes, by the byte.
#[derive(Clone, Copy)]
struct Table<'a> {
    rows: &'a [u64; 256],
    ghost filled: { Rows rows.now },
}

// Fills in the row of each byte that a line may hold; all others break the form. The bytes are literals here, so that a cast says what they
// are.
fn fill(rows: &mut [u64; 256])
    requires { rows.old ≡ replicate 256 0 }
    ensures { Rows rows.new }
{
    rows[b' ' as usize] = AFTER_SPACE;
    rows[b',' as usize] = AFTER_COMMA;
    rows[b'0' as usize..=b'9' as usize].fill(AFTER_DIGIT);
}

impl Table<'_> {
    // The place after a byte. From a broken form no byte leads on.
    fn place_after(&self, place: u64, byte: u8) -> u64
        requires { place ≤ 48 }
        ensures { result ≡ place_after place (symbol_of byte) }
    {
        (self.rows[usize::from(byte)] >> place) % 64
    }

    // The place after the rest of a line.
    fn last_place(&self, rest: &[u8], before: u64) -> u64
        requires { Standing before }
        ensures { Reached before rest.now result }
    {
        let mut place = before;
        for &byte in rest {
            place = self.place_after(place, byte);
        }
        place
    }
}

// 1 where a number begins with the byte that leads to this place, else 0. In a broken form it is 1 too.
fn begins(place: u64) -> usize
    ensures { (result ≡ begins_at place) × (result ≤ 1) }
{
    usize::from(place < TWO)
}

// A line may end at each place but after a comma, unless the form is broken.
fn may_end(place: u64) -> Result<(), Refusal>
    ensures { MayEnd result place }
{
    if place == BROKEN || place == COMMA {
        return Err(Refusal::TextForm);
    }
    Ok(())
}

// The number with which three bytes begin, as a byte. One that no byte holds is outside 1 to n for each n up to 255, and so is 0.
fn label_of(first: u8, second: u8, third: u8) -> u8
    ensures { result ≡ as_byte (number_in first second third) }
{
    let one = u16::from(first % 16);
    let two = 10 * one + u16::from(second % 16);
    let three = 10 * two + u16::from(third % 16);
    let more = u16::from(47 < second);
    let most = more * u16::from(47 < third);
    let number = one + more * (two - one) + most * (three - two);
    u8::try_from(number).unwrap_or(0)
}

// The byte at a place of a line, or 0 behind its end.
fn byte_at(line: &[u8], i: usize) -> u8
    ensures { result ≡ get_or line.now i 0 }
{
    line.get(i).copied().unwrap_or(0)
}

// Gathers the three bytes from each start on.
fn gather(line: &[u8], starts: &[u16], digits: &mut Digits)
    requires { Starts line.now starts.now }
    ensures { Gathered line.now starts.now digits.new.first digits.new.second digits.new.third }
{
    for k in 0..starts.len() {
        let start = usize::from(starts[k]);
        digits.first[k] = line[start];
        digits.second[k] = byte_at(line, start + 1);
        digits.third[k] = byte_at(line, start + 2);
    }
}

// Reads the number at each start into the list.
fn read_labels(line: &[u8], starts: &[u16], list: &mut [u8; 256])
    requires { Starts line.now starts.now }
    ensures { Labelled line.now starts.now list.new }
{
    let mut digits = Digits {
        first: [0; 255],
        second: [0; 255],
        third: [0; 255],
    };
    gather(line, starts, &mut digits);
    for k in 0..starts.len() {
        list[k] = label_of(digits.first[k], digits.second[k], digits.third[k]);
    }
}

// Reads a line, with its numbers into the list, from the front, if they are 255 at most, and answers how many they are; or the refusal
// with 18 or 1, in this order. With the 256th number the starts are full, and of the rest only the form is looked at.
pub fn read(line: &[u8], list: &mut [u8; 256]) -> Result<usize, Refusal>
    requires { length line.now ≤ 4096 }
    ensures { ReadAs result line.now list.new }
{
    let mut rows = [0u64; 256];
    fill(&mut rows);
    let table = Table { rows: &rows };
    // A buffer with a count: a place is noted at each byte, and only where a number begins the count goes on, so that there is no branch.
    let mut starts = [0u16; 256];
    let mut place = START;
    let mut count = 0;
    for i in 0..line.len() {
        place = table.place_after(place, line[i]);
        starts[count] = i as u16;
        count += begins(place);
        if count == 256 {
            may_end(table.last_place(&line[i + 1..], place))?;
            return Err(Refusal::Count);
        }
    }
    may_end(place)?;
    read_labels(line, &starts[..count], list);
    Ok(count)
}
