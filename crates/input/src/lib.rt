// The front of what a reader has, in a lent store: as much as there are places.
#![tactic(auto)]

ghost use Rattle.std.specs.Prelude.{◌≤◌, ◌<◌, length, take, IfOk};
ghost use Rattle.std.specs.Io.KnownBytes.{Consumes, IsAtEnd};

use std::io::{self, Read};

// Reads until the store is full or nothing more comes, and answers how many bytes came. They are the first that the reader had, and where
// it knows them and the store isn't full, they are all.
pub fn read_front<R: Read>(reader: &mut R, bytes: &mut [u8]) -> io::Result<usize>
    ensures fits { IfOk result (λ size. size ≤ length bytes.new) }
    ensures first { IfOk result (λ size.
        Consumes (R.remaining reader.old) (R.remaining reader.new) (take size bytes.new)) }
    ensures all { IfOk result (λ size. size < length bytes.new → IsAtEnd (R.remaining reader.new)) }
{
    let mut size = 0;
    // A while: how many bytes a turn reads is the reader's choice.
    while size < bytes.len() {
        let more = reader.read(&mut bytes[size..])?;
        if more == 0 {
            break;
        }
        size += more;
    }
    Ok(size)
}
