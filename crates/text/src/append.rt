// Text in memory of fixed size: the forms that lib.rt puts into a lent store, appended to it.
ghost use Rattle.std.specs.Prelude.{◌≡◌, ◌++◌, ◌+◌, ◌*◌, ◌≤◌, length};
ghost use Rattle.arrayvec.specs.ArrayVec.{array_vec_len};
ghost use Rattle.record.specs.Refusal.{number_of};
ghost use Rattle.digits.specs.Decimal.{newline, decimal, field};
ghost use Rattle.text.specs.Form.{filled};
ghost use Rattle.text.specs.View.{refused_line};

use arrayvec::ArrayVec;
use itoa::Buffer;
use record::Refusal;

// A program's whole text, of at most N bytes: each program gives the places that its longest text takes. The room that is left is a
// clause of each function that appends something, and no type: it is another number for each.
pub type Text<const N: usize> = ArrayVec<u8, N>;

// Appends the digits of a number. Not by `write!`: its contract does not say that it succeeds where there is room, and the
// programs' contracts state the whole text.
#[tactic(auto, using(digits::specs::Digits::library_decimal))]
fn append_number<const N: usize>(text: &mut Text<N>, number: u64)
    requires { array_vec_len text.old + length (decimal number) ≤ N }
    ensures items { text.new.items ≡ text.old.items ++ decimal number }
    ensures len { array_vec_len text.new ≡ array_vec_len text.old + length (decimal number) }
{
    let mut digits = Buffer::new();
    let digits = digits.format(number);
    text.try_extend_from_slice(digits.as_bytes()).unwrap();
}

// Appends a number that may be a large one, and ends the line.
#[tactic(auto, using(digits::specs::Digits::decimal_wide))]
pub fn append_last<const N: usize>(text: &mut Text<N>, number: u64)
    requires { array_vec_len text.old + 21 ≤ N }
    ensures items { text.new.items ≡ text.old.items ++ field number newline }
    ensures len { array_vec_len text.new ≤ array_vec_len text.old + 21 }
{
    append_number(text, number);
    text.push(b'\n');
}

// Appends a form, with the next number in the place of each `%`.
pub fn append_form<const N: usize>(text: &mut Text<N>, form: &[u8], numbers: &[u16])
    requires { array_vec_len text.old + length form.now + 4 * length numbers.now ≤ N }
    ensures items { text.new.items ≡ text.old.items ++ filled form.now numbers.now }
    ensures len { array_vec_len text.new ≤ array_vec_len text.old + length form.now + 4 * length numbers.now }
{
    let mut left = numbers;
    for &byte in form {
        match left {
            [number, rest @ ..] if byte == b'%' => {
                append_number(text, u64::from(*number));
                left = rest;
            }
            _ => text.push(byte),
        }
    }
}

// The line of a refused record.
#[tactic(auto, unfolding(crate::specs::Form::filled))]
pub fn refusal_line<const N: usize>(refusal: Refusal) -> Text<N>
    requires { 14 ≤ N }
    ensures items { result.items ≡ refused_line (number_of refusal) }
    ensures len { array_vec_len result ≤ 14 }
{
    let mut text = Text::new();
    append_form(&mut text, b"refused %\n", &[u16::from(refusal.number())]);
    text
}
