// The names of rooms: whether one nonzero name stands on two rooms, and the names by position.
#![tactic(auto)]

ghost use Rattle.std.specs.Prelude.{◌≡◌, ℕ, ◌/◌, ◌≤◌, ◌<◌, length, get_or};
ghost use Rattle.finite.specs.Decide.{Tells};
ghost use Rattle.finite.specs.Fill.{filled};
ghost use Rattle.finite.specs.Marks.{Marks};
ghost use Rattle.naming.specs.Twice.{Twice, Again};
ghost use Rattle.finite.specs.BitTable.{bit_of, with_bit};
ghost use Rattle.naming.specs.Seen.{bit_for};

// ---- pair by pair

// 1 where two names are the same, else 0. A number of the names' width, and no bool: so the compiler looks at several names at a time.
fn same(first: u16, second: u16) -> u16
    ensures { Marks result (first ≡ second) }
{
    u16::from(first == second)
}

// Whether room j is named and an earlier one has its name. No turn leaves the loop: so the compiler looks at several names at a time.
fn again(names: &[u16], j: usize) -> bool
    requires { j < length names.now }
    ensures { Tells result (Again (λ i. get_or names.now i 0) j) }
{
    let name = names[j];
    if name == 0 {
        return false;
    }
    let mut found: u16 = 0;
    for i in 0..j {
        found |= same(names[i], name);
    }
    found == 1
}

fn twice_in_pairs(names: &[u16]) -> bool
    ensures { Tells result (Twice (λ i. get_or names.now i 0) (length names.now)) }
{
    for j in 0..names.len() {
        if again(names, j) {
            return true;
        }
    }
    false
}

// ---- in a table of bits

// 1 for a name, 0 for none.
fn named(name: u16) -> u64
    ensures { result ≡ bit_for name }
{
    u64::from(name != 0)
}

// The name's bit as it was. It is set then, except for name 0, whose bit stays 0.
fn note(seen: &mut [u64], name: u16) -> u64
    requires { name / 64 < length seen.old }
    ensures was { result ≡ bit_of 64 seen.old name }
    ensures noted { seen.new ≡ with_bit 64 seen.old name (bit_for name) }
{
    let number = usize::from(name);
    let word = seen[number / 64];
    let bit = number % 64;
    seen[number / 64] = word | (named(name) << bit);
    (word >> bit) & 1
}

// With a table of so many words, which have a bit for each of the names.
fn twice_in_bits<const WORDS: usize>(names: &[u16]) -> bool
    requires words { WORDS ≤ 1024 }
    requires names_in_bounds { (k : ℕ) → k < length names.now → get_or names.now k 0 / 64 < WORDS }
    ensures { Tells result (Twice (λ i. get_or names.now i 0) (length names.now)) }
{
    let mut seen = [0u64; WORDS];
    let mut found: u64 = 0;
    for &name in names {
        found |= note(&mut seen, name);
    }
    found == 1
}

// ---- all

// Whether one nonzero name stands on two rooms. Where no room is named nothing is compared. A table for small names is soon cleared; one
// for all names, of 8,192 bytes, only pays where there are many.
pub fn twice(names: &[u16]) -> bool
    ensures { Tells result (Twice (λ i. get_or names.now i 0) (length names.now)) }
{
    let largest = rooms::highest(names);
    if largest == 0 {
        return false;
    }
    if largest < 2048 {
        return twice_in_bits::<32>(names);
    }
    if names.len() <= 32 {
        return twice_in_pairs(names);
    }
    twice_in_bits::<1024>(names)
}

// ---- names by position

// The names of the rooms by position, from the front of a slice, from the names in list order and the rooms' places by position.
// As `label_list` of orders does with labels: the loop is two lines, and what each of the two states is said by a definition of its own.
pub fn by_position(names: &[u16], by: &[u8], list: &mut [u16])
    requires places { (length by.now ≤ length names.now) × (length by.now ≤ length list.old) }
    requires rooms_in_bounds { (k : ℕ) → k < length by.now → get_or by.now k 0 < length by.now }
    ensures { list.new ≡ filled (λ k. get_or names.now (get_or by.now k 0) 0) (length by.now) list.old }
{
    for (k, &room) in by.iter().enumerate() {
        list[k] = names[usize::from(room)];
    }
}
