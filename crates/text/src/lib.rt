// Forms with numbers in them, of which all that the programs print is made: put into a lent store, as here and in planlist and
// plandraw, or appended to a text in memory of fixed size, as in plancount. And the plan that is printed.
#![tactic(auto)]

ghost use Rattle.std.specs.Prelude.{[], ◌∷◌, ◌+◌, ◌*◌, ◌≤◌, ◌<◌, length, IfOk, IfErr};
ghost use Rattle.record.specs.Refusal.{number_of};
ghost use Rattle.digits.specs.Decimal.{newline, decimal, field};
ghost use Rattle.text.specs.Form.{filled};
ghost use Rattle.finite.specs.Put.{Put};
ghost use Rattle.record.specs.Checked.{Refuses};
ghost use Rattle.text.specs.View.{refused_line};
ghost use Rattle.text.specs.Shown.{IsPlanOf};

mod append;
mod record_plan;

pub use append::{Text, append_form, append_last, refusal_line};
use drawing::Corners;
use record::Refusal;
pub use record_plan::Plan;

// Puts a byte after the text so far, which ends at `at`, and answers where the text then ends. So do all that follow.
fn put_byte(text: &mut [u8], at: usize, byte: u8) -> usize
    requires { at < length text.old }
    ensures { Put text.old at (byte ∷ []) text.new result }
{
    text[at] = byte;
    at + 1
}

// Puts the digits of a number: those of its tenth, then the last one. Not by `itoa`, as append.rt does: for numbers of one digit this takes
// a third of the time, and for those of three the same.
fn put_number(text: &mut [u8], at: usize, number: u64) -> usize
    requires { at + length (decimal number) ≤ length text.old }
    ensures { Put text.old at (decimal number) text.new result }
{
    if number < 10 {
        return put_byte(text, at, b'0' + number as u8);
    }
    let at = put_number(text, at, number / 10);
    put_byte(text, at, b'0' + (number % 10) as u8)
}

// Puts a number that may be a large one, and ends the line.
pub fn put_last(text: &mut [u8], at: usize, number: u64) -> usize
    requires { at + 21 ≤ length text.old }
    ensures { Put text.old at (field number newline) text.new result × (result ≤ at + 21) }
{
    let at = put_number(text, at, number);
    put_byte(text, at, b'\n')
}

// Puts a form, with the next number in the place of each `%`. A while over an index: with a `for` over the form's bytes, proved too, the
// compiler did not write out the forms of a picture, and one of 255 rooms took twice the time.
pub fn put_form(text: &mut [u8], start: usize, form: &[u8], numbers: &[u16]) -> usize
    requires { start + length form.now + 4 * length numbers.now ≤ length text.old }
    ensures { Put text.old start (filled form.now numbers.now) text.new result
        × (result ≤ start + length form.now + 4 * length numbers.now) }
{
    let mut at = start;
    let mut i = 0;
    let mut k = 0;
    while i < form.len() {
        let byte = form[i];
        i += 1;
        if byte == b'%' {
            if k < numbers.len() {
                at = put_number(text, at, u64::from(numbers[k]));
                k += 1;
                continue;
            }
        }
        at = put_byte(text, at, byte);
    }
    at
}

// Puts the line of a refused record from the front.
#[tactic(auto, unfolding(crate::specs::Form::filled))]
pub fn put_refusal(text: &mut [u8], refusal: Refusal) -> usize
    requires { 14 ≤ length text.old }
    ensures { Put text.old 0 (refused_line (number_of refusal)) text.new result × (result ≤ 14) }
{
    put_form(text, 0, b"refused %\n", &[u16::from(refusal.number())])
}

impl Plan {
    // Reads the plan of a record, or why the record is refused.
    pub fn read(record: &[u8]) -> Result<Plan, Refusal>
        ensures plan { IfOk result (IsPlanOf «record».now) }
        ensures refused { IfErr result (Refuses «record».now) }
    {
        let mut labels = [0; 255];
        let mut corners = Corners::NONE;
        let n = answers::read_corners(record, &mut labels, 255, &mut corners)?;
        // `as`: it is proved to lose nothing, where try_from would bring an error that can't come.
        Ok(Plan {
            n: n as u8,
            labels,
            corners,
        })
    }
}
