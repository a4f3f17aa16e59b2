// The causes 2 to 5 of a room list, decided on its rooms' corners, which stand in four lists.
#![tactic(auto)]

ghost use Rattle.std.specs.Prelude.{◌≡◌, ◌+◌, ◌*◌, ◌≤◌, ◌<◌};
ghost use Rattle.finite.specs.Decide.{Tells};
ghost use Rattle.finite.specs.Marks.{Marks};
ghost use Rattle.rooms.specs.Causes.{RoomSize, ShareSquare, Overlap, Uncovered};
ghost use Rattle.rooms.specs.Lists.{count_of, rooms_in};
ghost use Rattle.checks.specs.CornerLists.{Flat, SharesEarlier, areas_in};
ghost use Rattle.checks.specs.Area.{area_of};
ghost use Rattle.checks.specs.Filling.{Fills};
ghost use Rattle.checks.specs.Verdict.{VerdictOf, PairedWhere};
ghost use Rattle.points.specs.Paired.{Unpaired};
ghost use Rattle.corners.specs.ListPlan.{plan_in, outline_of};

use drawing::Room;
use record::Refusal;
use rooms::CornerLists;
use std::cmp::Ordering;

// ---- cause 2

// 1 where the room has no width or no height, else 0. A number of the corners' width, and no bool: so the compiler looks at several rooms
// at a time.
fn no_size(room: Room) -> u16
    ensures { Marks result (Flat room) }
{
    u16::from(room.right <= room.left) | u16::from(room.top <= room.bottom)
}

// Whether a room has no width or no height. No turn leaves the loop: so the compiler looks at several rooms at a time.
fn flat(lists: &CornerLists) -> bool
    ensures { Tells result (RoomSize (rooms_in lists.now)) }
{
    let mut found = 0;
    for i in 0..lists.len() {
        found |= no_size(lists.room(i));
    }
    found == 1
}

// ---- cause 3
// That no room is without size is a clause of each function from here on, and no type: it is what cause 2 has found of the same lists, and a
// type of its own for them would be taken off again at each call.

// 1 where the first number is below the second, else 0: a number again, as what two rooms share is, for the compiler's sake.
fn below(first: u16, second: u16) -> u16
    ensures { Marks result (first < second) }
{
    u16::from(first < second)
}

// 1 where a unit square lies in both rooms, which are wide and tall, else 0: each starts before the other ends, both ways.
fn share(first: Room, second: Room) -> u16
    requires first_has_size { (first.left < first.right) × (first.bottom < first.top) }
    requires second_has_size { (second.left < second.right) × (second.bottom < second.top) }
    ensures { Marks result (ShareSquare first second) }
{
    let across = below(first.left, second.right) * below(second.left, first.right);
    let up = below(first.bottom, second.top) * below(second.bottom, first.top);
    across * up
}

// Whether room j shares a unit square with an earlier room, in a loop that no turn leaves, as above.
fn shares_earlier(lists: &CornerLists, j: usize) -> bool
    requires j_in_bounds { j < count_of lists.now }
    requires not_room_size { ¬ RoomSize (rooms_in lists.now) }
    ensures { Tells result (SharesEarlier lists.now j) }
{
    let room = lists.room(j);
    let mut found = 0;
    for i in 0..j {
        found |= share(lists.room(i), room);
    }
    found == 1
}

// Whether two rooms share a unit square.
fn overlap(lists: &CornerLists) -> bool
    requires { ¬ RoomSize (rooms_in lists.now) }
    ensures { Tells result (Overlap (rooms_in lists.now)) }
{
    for j in 0..lists.len() {
        if shares_earlier(lists, j) {
            return true;
        }
    }
    false
}

// ---- cause 4

// The area of a room. A side is at most 65535.
fn area(room: Room) -> u64
    requires { (room.left ≤ room.right) × (room.bottom ≤ room.top) }
    ensures { (result ≡ area_of room) × (result ≤ 65535 * 65535) }
{
    u64::from(room.right - room.left) * u64::from(room.top - room.bottom)
}

// The sum of the rooms' areas.
fn areas(lists: &CornerLists) -> u64
    requires { ¬ RoomSize (rooms_in lists.now) }
    ensures { result ≡ areas_in lists.now }
{
    let mut total = 0;
    for i in 0..lists.len() {
        total += area(lists.room(i));
    }
    total
}

// How the areas of the rooms, added up, stand to the outline's own.
fn compare_areas(lists: &CornerLists, outline: Room) -> Ordering
    requires not_room_size { ¬ RoomSize (rooms_in lists.now) }
    requires outline_value { outline ≡ outline_of (plan_in lists.now) }
    ensures { Fills result (rooms_in lists.now) }
{
    let total = areas(lists);
    let whole = area(outline);
    if total < whole {
        return Ordering::Less;
    }
    if whole < total {
        return Ordering::Greater;
    }
    Ordering::Equal
}

// ---- all four

// Whether the list has none of them, or the first one's refusal, in the sheet's order. The areas come first: rooms that add up to more than
// the outline overlap, and rooms that add up to less leave a square over. Of those that add up to as much, the corners are in pairs just
// where the list has no cause, and then the pairs are noted. Else, as the outline is full, two rooms overlap or four meet.
pub fn judge(lists: &CornerLists, there: &mut [u16], back: &mut [u16]) -> Result<(), Refusal>
    requires { Unpaired (2 * count_of lists.now + 2) there.old back.old }
    ensures verdict { VerdictOf (rooms_in lists.now) result }
    ensures pairs { PairedWhere result (plan_in lists.now) there.new back.new }
{
    if flat(lists) {
        return Err(Refusal::RoomSize);
    }
    let outline = corners::outline(lists);
    match compare_areas(lists, outline) {
        Ordering::Greater => Err(Refusal::Overlap),
        Ordering::Less => {
            if overlap(lists) {
                return Err(Refusal::Overlap);
            }
            Err(Refusal::Uncovered)
        }
        Ordering::Equal => {
            if corners::pair_corners(lists, outline, there, back) {
                return Ok(());
            }
            if overlap(lists) {
                return Err(Refusal::Overlap);
            }
            Err(Refusal::FourMeet)
        }
    }
}
