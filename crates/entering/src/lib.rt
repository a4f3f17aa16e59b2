// Rooms in, on rooms that were copied: a room list becomes its record, the label and the position of each room, and the names by position;
// or it is refused with 2, 3, 4, 5, 20 or 15, in this order.
#![tactic(auto)]

ghost use Rattle.std.specs.Prelude.{◌≡◌, ◌+◌, ◌*◌, ◌≤◌, length, get_or};
ghost use Rattle.rooms.specs.Lists.{count_of};
ghost use Rattle.naming.specs.Twice.{Twice};
ghost use Rattle.orders.specs.PairedPlan.{PairedPlan};
ghost use Rattle.entering.specs.Answer.{slices, RoomsIn};
ghost use Rattle.entering.specs.Copied.{put, copied_rooms};
ghost use Rattle.entering.specs.Named.{named_in};

use drawing::Room;
use record::Refusal;
use rooms::CornerLists;

// The numbers of up to 255 rooms that were copied, each at its room's place. Their count stands beside them, since it may be more than 255.
#[derive(Clone, Copy)]
pub struct CopiedRooms {
    pub left: [u16; 255],
    pub bottom: [u16; 255],
    pub right: [u16; 255],
    pub top: [u16; 255],
    pub name: [u16; 255],
}

impl CopiedRooms {
    // No room yet: 0 everywhere.
    pub const NONE: CopiedRooms = CopiedRooms {
        left: [0; 255],
        bottom: [0; 255],
        right: [0; 255],
        top: [0; 255],
        name: [0; 255],
    };

    // Copies a room to place i. At 255 and beyond nothing is done.
    pub fn put(&mut self, i: usize, room: Room)
        ensures { self.new ≡ put self.old i room }
    {
        if i < 255 {
            self.left[i] = room.left;
            self.bottom[i] = room.bottom;
            self.right[i] = room.right;
            self.top[i] = room.top;
            self.name[i] = room.name;
        }
    }
}

// The record of an accepted room list, whose corners are paired, the label and the position of each room, and the names by position; or 15,
// and the slices as they were. Once all four are long enough nothing can be refused any more, since the label list of an accepted list is
// Baxter: so labels, positions and names are put where they belong at once, and Labels in writes the record. `by` is for the rooms by
// position, and `list` for the rooms by label and then for the label list. The four slices are what C hands over.
fn write(
    lists: &CornerLists,
    name: &[u16],
    there: &[u16],
    back: &[u16],
    by: &mut [u8],
    list: &mut [u8],
    record: &mut [u8],
    labels: &mut [u8],
    positions: &mut [u8],
    names: &mut [u16],
) -> Result<usize, Refusal>
    requires paired_plan { PairedPlan lists.now there.now back.now }
    requires all_named { length name.now ≡ count_of lists.now }
    requires no_name_twice { ¬ Twice (λ i. get_or name.now i 0) (length name.now) }
    requires places { (length by.old ≡ count_of lists.now) × (length list.old ≡ count_of lists.now) }
    ensures { RoomsIn (named_in lists.now name.now)
        (slices «record».old labels.old positions.old names.old) result
        (slices «record».new labels.new positions.new names.new) }
{
    let n = lists.len();
    if record.len() < 1 + (3 * n + 4) / 8 {
        return Err(Refusal::ShortOutput);
    }
    if labels.len() < n || positions.len() < n || names.len() < n {
        return Err(Refusal::ShortOutput);
    }
    orders::labels_and_positions(lists, there, back, by, list, labels, positions);
    naming::by_position(name, by, names);
    orders::label_list(labels, by, list);
    labels::labels_in(list, record)
}

// Rooms in, on 1 to 255 rooms that were copied, with arrays for so many rooms and for the pairs of so many corners: the causes in their
// order, and then the record, the labels, the positions and the names.
pub fn decide<const ROOMS: usize, const CORNERS: usize>(
    copied: &CopiedRooms,
    n: usize,
    record: &mut [u8],
    labels: &mut [u8],
    positions: &mut [u8],
    names: &mut [u16],
) -> Result<usize, Refusal>
    requires one_to_255 { (1 ≤ n) × (n ≤ 255) }
    requires rooms { (n ≤ ROOMS) × (ROOMS ≤ 255) }
    requires corners { (2 * n + 2 ≤ CORNERS) × (CORNERS ≤ 512) }
    ensures { RoomsIn (copied_rooms copied.now n)
        (slices «record».old labels.old positions.old names.old) result
        (slices «record».new labels.new positions.new names.new) }
{
    let lists = CornerLists {
        left: &copied.left[..n],
        bottom: &copied.bottom[..n],
        right: &copied.right[..n],
        top: &copied.top[..n],
    };
    let name = &copied.name[..n];
    let mut there = [0u16; CORNERS];
    let mut back = [points::UNPAIRED; CORNERS];
    checks::judge(&lists, &mut there, &mut back)?;
    if naming::twice(name) {
        return Err(Refusal::NameTwice);
    }
    let mut by = [0u8; ROOMS];
    let mut list = [0u8; ROOMS];
    write(
        &lists,
        name,
        &there,
        &back,
        &mut by[..n],
        &mut list[..n],
        record,
        labels,
        positions,
        names,
    )
}
