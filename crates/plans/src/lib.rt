// Rooms in, on rooms lent as structs: a thin entry, which copies their numbers and chooses the size of the working arrays.
#![tactic(auto)]

ghost use Rattle.entering.specs.Answer.{slices, RoomsIn};
ghost use Rattle.entering.specs.Copied.{copied_rooms};

use drawing::Room;
use entering::CopiedRooms;
use record::Refusal;

// Rooms in, on so many rooms that were copied, with arrays for as many as there are: short ones are soon cleared. More than 255 are
// refused: they were not all copied.
fn finish(
    copied: &CopiedRooms,
    n: usize,
    record: &mut [u8],
    labels: &mut [u8],
    positions: &mut [u8],
    names: &mut [u16],
) -> Result<usize, Refusal>
    ensures { RoomsIn (copied_rooms copied.now n)
        (slices «record».old labels.old positions.old names.old) result
        (slices «record».new labels.new positions.new names.new) }
{
    if n == 0 || 255 < n {
        return Err(Refusal::Count);
    }
    if n <= 15 {
        return entering::decide::<16, 32>(copied, n, record, labels, positions, names);
    }
    if n <= 63 {
        return entering::decide::<64, 128>(copied, n, record, labels, positions, names);
    }
    entering::decide::<255, 512>(copied, n, record, labels, positions, names)
}

// Rooms in, on rooms lent as structs: they are copied, and the rest is done on the copy.
pub fn rooms_in(
    rooms: &[Room],
    record: &mut [u8],
    labels: &mut [u8],
    positions: &mut [u8],
    names: &mut [u16],
) -> Result<usize, Refusal>
    ensures { RoomsIn rooms.now
        (slices «record».old labels.old positions.old names.old) result
        (slices «record».new labels.new positions.new names.new) }
{
    let mut copied = CopiedRooms::NONE;
    for (i, &room) in rooms.iter().enumerate() {
        copied.put(i, room);
    }
    finish(&copied, rooms.len(), record, labels, positions, names)
}
