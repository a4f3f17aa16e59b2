// Record in: a record gives its labels, and its rooms as structs.
#![tactic(auto)]

ghost use Rattle.std.specs.Prelude.{◌++◌, ◌≡◌, ◌≤◌, length, drop};
ghost use Rattle.answers.specs.Answer.{Few, slices, RecordIn};
ghost use Rattle.answers.specs.Corners.{rooms_from};

use drawing::{Corners, Room};
use record::Refusal;

// Writes the first `n` rooms from the front of a slice, which has the room, and leaves the rest of it. The fields are stored one by one:
// a room stored whole makes slower code.
fn put_rooms(corners: &Corners, n: usize, rooms: &mut [Room])
    requires { (n ≤ 255) × (n ≤ length rooms.old) }
    ensures { rooms.new ≡ rooms_from corners.now n ++ drop n rooms.old }
{
    for i in 0..n {
        let room = corners.room(i);
        rooms[i].left = room.left;
        rooms[i].bottom = room.bottom;
        rooms[i].right = room.right;
        rooms[i].top = room.top;
        rooms[i].name = room.name;
    }
}

// Record in: the labels and the rooms by position, from the front of their slices, and how many there are; or the refusal, and the
// slices as they were.
pub fn record_in(record: &[u8], labels: &mut [u8], rooms: &mut [Room]) -> Result<usize, Refusal>
    ensures record_in { RecordIn «record».now (slices labels.old rooms.old) result
        (slices labels.new rooms.new) }
    ensures few { Few result }
{
    let mut corners = Corners::NONE;
    let n = answers::read_corners(record, labels, rooms.len(), &mut corners)?;
    put_rooms(&corners, n, rooms);
    Ok(n)
}
