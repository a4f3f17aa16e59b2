// Reading on in a book of records, and adding to it.
#![tactic(auto)]

ghost use Rattle.std.specs.Prelude.{◌≡◌, ◌+◌, ◌≤◌, length};
ghost use Rattle.book.specs.Book.{front, longest};
ghost use Rattle.book.specs.Summary.{held, Fits32};
ghost use Rattle.book.specs.Answer.{next_answer, part_for, BookAdd};
ghost use Rattle.bookkeeping.specs.Found.{SumsUp, summary_in, counted_in, Admits, appended};

use book::BookError;
use judging::Judged;
use record::Refusal;

// How many bytes the record has that begins with these, as far as there are bytes.
fn front_size(rest: &[u8]) -> usize
    ensures { result ≡ length (front rest.now) }
{
    if rest.is_empty() {
        return 0;
    }
    let size = 1 + (3 * usize::from(rest[0]) + 4) / 8;
    size.min(rest.len())
}

// What reading on answers: the length of the record that begins at the place, nothing at the end, or why not. The book, its used length and
// the place come from C one by one, and are tested in an order of their own.
pub fn next_answer(book: &[u8], used: usize, place: usize) -> Result<Option<usize>, BookError>
    ensures { result ≡ next_answer book.now used place }
{
    if book.len() < used {
        return Err(BookError::from(Refusal::BeyondBook));
    }
    if used < place {
        return Err(BookError::from(Refusal::BeyondBook));
    }
    if 65535 < used {
        return Err(BookError::from(Refusal::TooLong));
    }
    if place == used {
        return Ok(None);
    }
    let rest = &book[place..used];
    let size = front_size(rest);
    match judging::judge(&rest[..size]) {
        Err(refusal) => Err(BookError::BadRecord(refusal, 1)),
        Ok(_) => Ok(Some(size)),
    }
}

// The record that begins at the place, as that part of the book; the empty part where there is none.
pub fn next_record(book: &[u8], used: usize, place: usize) -> &[u8]
    ensures { result.now ≡ part_for (next_answer book.now used place) book.now place }
{
    match next_answer(book, used, place) {
        Ok(Some(size)) => {
            let end = place + size;
            &book[place..end]
        }
        _ => &book[..0],
    }
}

// The totals of a book, as a summary beside it has them.
#[derive(Clone, Copy, PartialEq, Eq)]
struct Totals {
    plans: u32,
    rooms: u32,
    rises: u32,
    falls: u32,
}

impl Totals {
    // The totals with those of one more plan: each of its rooms but the first is a rise or a fall.
    fn with(self, judged: Judged) -> Totals
        requires { (judged.falls + 1 ≤ judged.rooms) × Fits32 (counted_in (summary_in self) judged) }
        ensures { summary_in result ≡ counted_in (summary_in self) judged }
    {
        Totals {
            plans: self.plans + 1,
            rooms: self.rooms + judged.rooms as u32,
            rises: self.rises + (judged.rooms - 1 - judged.falls) as u32,
            falls: self.falls + judged.falls as u32,
        }
    }
}

// Judges the records of a used part one after another, and sums them up; or gives its first bad record's refusal and ordinal.
fn sum_up(book: &[u8]) -> Result<Totals, BookError>
    requires { length book.now ≤ longest }
    ensures { SumsUp result book.now }
{
    let mut place = 0;
    let mut sums = Totals {
        plans: 0,
        rooms: 0,
        rises: 0,
        falls: 0,
    };
    // A while: each record says where the next one begins.
    while place < book.len() {
        let rest = &book[place..];
        let size = front_size(rest);
        match judging::judge(&rest[..size]) {
            Err(refusal) => {
                let before = sums.plans as usize;
                return Err(BookError::BadRecord(refusal, before + 1));
            }
            Ok(judged) => {
                sums = sums.with(judged);
                place += size;
            }
        }
    }
    Ok(sums)
}

// Judges an addition, and changes nothing: the totals after it.
fn admit(book: &[u8], used: usize, record: &[u8], totals: Totals) -> Result<Totals, BookError>
    ensures { Admits result book.now used «record».now (summary_in totals) }
{
    if book.len() < used {
        return Err(BookError::from(Refusal::BeyondBook));
    }
    if 65535 < used {
        return Err(BookError::from(Refusal::TooLong));
    }
    let sums = sum_up(&book[..used])?;
    if totals != sums {
        return Err(BookError::from(Refusal::OtherSummary));
    }
    let judged = judging::judge(record)?;
    let size = used + record.len();
    if 65535 < size {
        return Err(BookError::from(Refusal::TooLong));
    }
    if book.len() < size {
        return Err(BookError::from(Refusal::ShortOutput));
    }
    Ok(totals.with(judged))
}

// Copies a record behind the used part, which has the room.
fn append(book: &mut [u8], used: usize, record: &[u8])
    requires { used + length «record».now ≤ length book.old }
    ensures { book.new ≡ appended book.old used «record».now }
{
    book[used..used + record.len()].copy_from_slice(record);
}

// Adds a record behind the used part, and its totals to the summary; or says why not, and changes nothing. The four totals come from C,
// each by its own pointer.
pub fn add_record(
    book: &mut [u8],
    used: usize,
    record: &[u8],
    plans: &mut u32,
    rooms: &mut u32,
    rises: &mut u32,
    falls: &mut u32,
) -> Result<usize, BookError>
    ensures { BookAdd book.old used «record».now
        (held plans.old rooms.old rises.old falls.old) result
        book.new (held plans.new rooms.new rises.new falls.new) }
{
    let totals = Totals {
        plans: *plans,
        rooms: *rooms,
        rises: *rises,
        falls: *falls,
    };
    let after = admit(book, used, record, totals)?;
    append(book, used, record);
    *plans = after.plans;
    *rooms = after.rooms;
    *rises = after.rises;
    *falls = after.falls;
    Ok(used + record.len())
}
