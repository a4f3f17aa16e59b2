// Tidy: a text that lists labels becomes its tidy form, or is refused with 18, 1, 6, 7, 8 or 15, in this order.
#![tactic(auto)]

ghost use Rattle.std.specs.Prelude.{◌++◌, ◌≡◌, ◌+◌, ◌≤◌, length, drop};
ghost use Rattle.std.proofs.lemmas.List.Edits.{sets};
ghost use Rattle.digits.specs.Decimal.{space, field};
ghost use Rattle.labeltext.specs.LineOf.{line_of};
ghost use Rattle.labeltext.specs.Tidy.{tidy_text};
ghost use Rattle.labeltext.specs.TidySize.{tidy_size};
ghost use Rattle.labeltext.specs.Answer.{Tidied};
ghost use Rattle.tidy.specs.Digits.{DigitsOf, AllDigits};
ghost use Rattle.tidy.specs.Labels.{TidiedLabels};

use labeltext::LONGEST;
use record::Refusal;

// The three digits of each label as bytes, in three lists: so the compiler takes several labels at a time.
#[derive(Clone, Copy)]
struct Digits {
    hundreds: [u8; 255],
    tens: [u8; 255],
    ones: [u8; 255],
}

// The length of the tidy text of n labels that are 1 to n, each once: two bytes for each, one more for each above 9, and one more for each
// above 99. Their order does not matter, so no label is looked at.
fn tidy_size(n: usize) -> usize
    requires { n ≤ 255 }
    ensures { result ≡ tidy_size n }
{
    2 * n + n.saturating_sub(9) + n.saturating_sub(99)
}

// The three digits of each label. They are found before any is put: no label waits for where the one before it ends.
fn all_digits(labels: &[u8], digits: &mut Digits)
    requires { length labels.now ≤ 255 }
    ensures { AllDigits labels.now digits.new.hundreds digits.new.tens digits.new.ones }
{
    for k in 0..labels.len() {
        let label = labels[k];
        digits.hundreds[k] = b'0' + label / 100;
        digits.tens[k] = b'0' + label / 10 % 10;
        digits.ones[k] = b'0' + label % 10;
    }
}

// Puts a label, by its three digits, and a space after it where the text so far ends, and answers where it then ends. A zero in front is
// put all the same, and the next digit over it: that costs less than to foresee how many digits there are.
fn put_field(text: &mut [u8], at: usize, label: u8, hundred: u8, ten: u8, one: u8) -> usize
    requires { (at + length (field label space) ≤ length text.old) × DigitsOf label hundred ten one }
    ensures is { text.new ≡ sets text.old at (field label space) }
    ensures next { result ≡ at + length (field label space) }
{
    text[at] = hundred;
    let second = at + usize::from(99 < label);
    text[second] = ten;
    let third = second + usize::from(9 < label);
    text[third] = one;
    text[third + 1] = b' ';
    third + 2
}

// Writes the tidy text of some labels from the front of a slice that has the room, and leaves the rest of it. The space after the last
// label gives way to the newline.
fn put_labels(labels: &[u8], tidy: &mut [u8])
    requires { (1 ≤ length labels.now) × (length labels.now ≤ 255) × (length (tidy_text labels.now) ≤ length tidy.old) }
    ensures { tidy.new
        ≡ tidy_text labels.now ++ drop (length (tidy_text labels.now)) tidy.old }
{
    let mut digits = Digits {
        hundreds: [0; 255],
        tens: [0; 255],
        ones: [0; 255],
    };
    all_digits(labels, &mut digits);
    let mut at = 0;
    for k in 0..labels.len() {
        at = put_field(
            tidy,
            at,
            labels[k],
            digits.hundreds[k],
            digits.tens[k],
            digits.ones[k],
        );
    }
    tidy[at - 1] = b'\n';
}

// The tidy text of some labels, from the front of the output slice, and its length; or the refusal, and the slice as it was.
fn tidy_labels(labels: &[u8], tidy: &mut [u8]) -> Result<usize, Refusal>
    ensures { TidiedLabels labels.now tidy.old result tidy.new }
{
    labels::judge(labels)?;
    let size = tidy_size(labels.len());
    if tidy.len() < size {
        return Err(Refusal::ShortOutput);
    }
    put_labels(labels, tidy);
    Ok(size)
}

// A text without the newline that may end it.
fn line_of(text: &[u8]) -> &[u8]
    ensures { result.now ≡ line_of text.now }
{
    let n = text.len();
    if n == 0 || text[n - 1] != b'\n' {
        return text;
    }
    &text[..n - 1]
}

// The tidy form of a text, from the front of the output slice, and its length; or the refusal, and the slice as it was.
pub fn tidy(text: &[u8], tidy: &mut [u8]) -> Result<usize, Refusal>
    ensures { Tidied text.now tidy.old result tidy.new }
{
    if LONGEST < text.len() {
        return Err(Refusal::TextForm);
    }
    // A buffer, which the reader fills by index; the labels are the part of it that was filled.
    let mut list = [0u8; 256];
    match numbers::read(line_of(text), &mut list) {
        Ok(count) => tidy_labels(&list[..count], tidy),
        Err(refusal) => Err(refusal),
    }
}
