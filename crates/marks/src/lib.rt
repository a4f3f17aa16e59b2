// Marks for the labels 0 to 255 that have been seen, in 32 bytes, one bit each. Labels next to each other have their bits in different
// bytes: so a label rarely waits for the byte in which the one before it was just marked.
#![tactic(auto)]

ghost use Rattle.std.specs.Prelude.{◌≡◌, ◌*◌, ◌^◌, ◌≤◌, ◌<◌};
ghost use Rattle.std.specs.Int.Bits.{bit_or};
ghost use Rattle.finite.specs.Decide.{Tells};
ghost use Rattle.marks.specs.Seen.{mark_of, with_label};

// A byte with one bit more.
fn with_bit(byte: usize, bit: usize) -> usize
    requires { (byte < 256) × (bit < 8) }
    ensures { (result ≡ bit_or byte (1 * 2 ^ bit)) × (result < 256) }
{
    byte | (1 << bit)
}

// Marks a label, and tells whether it was marked before.
pub fn mark(seen: &mut [u8; 32], label: u8) -> bool
    ensures was { Tells result (mark_of seen.old label ≡ 1) }
    ensures is { seen.new ≡ with_label seen.old label }
{
    let number = usize::from(label);
    let before = usize::from(seen[number % 32]);
    let after = with_bit(before, number / 32);
    seen[number % 32] = after as u8;
    before == after
}

// The mark of a label, 1 or 0. No label is 256, whose mark is 0: the byte in which it would be ends below it.
pub fn mark_of(seen: &[u8; 32], label: usize) -> usize
    requires { label ≤ 256 }
    ensures { (result ≡ mark_of seen.now label) × (result ≤ 1) }
{
    (usize::from(seen[label % 32]) >> (label / 32)) & 1
}
