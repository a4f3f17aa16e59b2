// Groups of three bits in a slice of bytes, the highest bit of a byte first: one group read, and one group set; or eight groups read.
// A group lies in one byte or crosses into the next. Either way it is shifted and masked in a word of 16 bits. A slice has at most 65,535
// bytes here, so that the number of a bit is in an index: no type says it, since the slices are the callers' own.
#![tactic(auto)]

ghost use Rattle.std.specs.Prelude.{◌≡◌, ◌+◌, ◌*◌, ◌<◌, ◌≤◌, length};
ghost use Rattle.bits.specs.Bit.{group_at, GroupSet};
ghost use Rattle.bits.specs.Word.{Shows, Stored};
ghost use Rattle.bits.specs.Eight.{group_of_word, EightGroups};

// The word whose high byte is byte `at`. Where the bit worth 2 ^ lowest lies below the high byte, its low byte is the next one.
fn load(bytes: &[u8], at: usize, lowest: usize) -> u16
    requires { (at < length bytes.now) × (lowest < 8 → at + 1 < length bytes.now) }
    ensures { Shows bytes.now at lowest result }
{
    let high = u16::from(bytes[at]) << 8;
    if lowest < 8 {
        return high | u16::from(bytes[at + 1]);
    }
    high
}

// Stores the word's high byte at `at` and, where the bit worth 2 ^ lowest lies below it, its low byte in the next one.
fn store(bytes: &mut [u8], at: usize, lowest: usize, word: u16)
    requires { (at < length bytes.old) × (lowest < 8 → at + 1 < length bytes.old) }
    ensures { Stored bytes.old bytes.new at lowest word }
{
    bytes[at] = (word >> 8) as u8;
    if lowest < 8 {
        bytes[at + 1] = (word & 255) as u8;
    }
}

// Group k, a number from 0 to 7.
pub fn group(bytes: &[u8], k: usize) -> u8
    requires { (3 * k + 3 ≤ 8 * length bytes.now) × (length bytes.now ≤ 65535) }
    ensures { (result ≡ group_at bytes.now k) × (result < 8) }
{
    let at = 3 * k / 8;
    let down = 13 - 3 * k % 8;
    ((load(bytes, at, down) >> down) & 7) as u8
}

// Sets group 8m + i to a number from 0 to 7. Eight groups fill three bytes, so i alone tells the shift and the mask: where a loop over i
// is written out by the compiler, they are constants.
pub fn set_group(bytes: &mut [u8], m: usize, i: usize, value: u8)
    requires { (3 * (8 * m + i) + 3 ≤ 8 * length bytes.old) × (length bytes.old ≤ 65535) × (value < 8) }
    ensures { GroupSet bytes.old bytes.new (8 * m + i) value }
{
    let at = 3 * m + 3 * i / 8;
    let up = 13 - 3 * i % 8;
    let kept = load(bytes, at, up) & !(7 << up);
    store(bytes, at, up, kept | (u16::from(value) << up));
}

// The eight groups from group 8m on, in a word of 24 bits; past the end of the bytes they are 0. Where fewer than three bytes are left,
// the last one counts if it is the second: a product, and no jump, which could not be foreseen.
pub fn eight_groups(bytes: &[u8], m: usize) -> u32
    requires { (3 * m < length bytes.now) × (length bytes.now ≤ 65535) }
    ensures { EightGroups bytes.now m result }
{
    let at = 3 * m;
    let left = bytes.len() - at;
    let high = u32::from(bytes[at]) * 65536;
    if left < 3 {
        return high + u32::from(bytes[bytes.len() - 1]) * 256 * ((left - 1) as u32);
    }
    high + u32::from(bytes[at + 1]) * 256 + u32::from(bytes[at + 2])
}

// Group i of such a word, a number from 0 to 7.
pub fn group_of_word(word: u32, i: usize) -> usize
    requires { i < 8 }
    ensures { (result ≡ group_of_word word i) × (result < 8) }
{
    ((word >> (21 - 3 * i)) & 7) as usize
}
