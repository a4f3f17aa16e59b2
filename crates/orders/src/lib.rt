// Label and position of each room of an accepted list, and its label list. Both orders are walked from the first room by links between
// rooms at their corners, which the pairs of all corners are.
#![tactic(auto)]

ghost use Rattle.std.specs.Prelude.{◌≡◌, List, ℕ, ◌*◌, ◌≤◌, length, take};
ghost use Rattle.finite.specs.Fill.{filled};
ghost use Rattle.drawing.specs.declared.Room.{Room};
ghost use Rattle.rooms.specs.LabelList.{label_list};
ghost use Rattle.rooms.specs.Lists.{count_of, rooms_in};
ghost use Rattle.orders.specs.InOrder.{InBothOrders, Ranking, Numbered, LabelsInOrder};
ghost use Rattle.orders.specs.PairedPlan.{PairedPlan};
ghost use Rattle.orders.specs.Turns.{LinksWithin, Turned};
ghost use Rattle.orders.specs.Walks.{WalkBoth};

use rooms::CornerLists;

// ---- the order

// Where each link leads, and whether the walk stops there. From room c the walk goes on along a line at 2c, to the room under c or beside
// it, and at 2c + 1 it has come to the line's end, c itself, which comes next; from there it goes on at c's upper-right corner. A link
// down to room d goes on at d where a room is under d, and a link aside where a room is beside d. The links after the first `count` are
// those of the outline's corners; some of the first lead to them, but the walk does not go by them.
fn turn(links: &[u16], count: usize, turned: &mut [u16])
    requires links_within { LinksWithin count links.now }
    requires places { count ≤ length turned.old }
    ensures { Turned count links.now turned.new }
{
    for j in 0..count {
        let link = usize::from(links[j]);
        let room = link / 2 * 2;
        turned[j] = (room + (link + usize::from(links[room])) % 2) as u16;
    }
}

// The rooms by position, from the first one by the links `up`, and by label, from the first one by the links `down`. A step of the one walk
// waits for a load, so the other goes beside it. The two slices are one for each order, and each is used alone after this. The corners are
// not looked at; they say how far the walks have come.
fn walk(
    lists: &CornerLists,
    up: &[u16],
    down: &[u16],
    first_up: usize,
    first_down: usize,
    by_position: &mut [u8],
    by_label: &mut [u8],
)
    requires walk_both { WalkBoth lists.now up.now down.now first_up first_down }
    requires places { (count_of lists.now ≤ length by_position.old) × (count_of lists.now ≤ length by_label.old) }
    ensures { InBothOrders (rooms_in lists.now) (count_of lists.now) by_position.new by_label.new }
{
    let n = lists.len();
    let mut at = 2 * first_up + 1;
    let mut k = 0;
    let mut other = 2 * first_down + 1;
    let mut j = 0;
    // A while: a turn comes to the next room of an order, or only nearer to it.
    while k + j < 2 * n {
        if k < n {
            by_position[k] = (at / 2) as u8;
            k += at % 2;
            at = usize::from(up[at]);
        }
        if j < n {
            by_label[j] = (other / 2) as u8;
            j += other % 2;
            other = usize::from(down[other]);
        }
    }
}

// The rooms by position and by label, of paired corners, with arrays for so many turned links. The pairs lead upward from room to room the
// one way and downward the other way, and the corners of the outline that the two orders start from are paired with those of their first
// rooms.
fn orders_with<const LINKS: usize>(
    lists: &CornerLists,
    there: &[u16],
    back: &[u16],
    by_position: &mut [u8],
    by_label: &mut [u8],
)
    requires links { (2 * count_of lists.now ≤ LINKS) × (LINKS ≤ 512) }
    requires paired_plan { PairedPlan lists.now there.now back.now }
    requires places { (count_of lists.now ≤ length by_position.old) × (count_of lists.now ≤ length by_label.old) }
    ensures { InBothOrders (rooms_in lists.now) (count_of lists.now) by_position.new by_label.new }
{
    let mut up = [0u16; LINKS];
    let mut down = [0u16; LINKS];
    let n = lists.len();
    turn(back, 2 * n, &mut up);
    turn(there, 2 * n, &mut down);
    let first_up = usize::from(there[2 * n]) / 2;
    let first_down = usize::from(back[2 * n]) / 2;
    walk(
        lists,
        &up,
        &down,
        first_up,
        first_down,
        by_position,
        by_label,
    );
}

// The same, with arrays for as many links as there are: short ones are soon cleared.
fn both_orders(
    lists: &CornerLists,
    there: &[u16],
    back: &[u16],
    by_position: &mut [u8],
    by_label: &mut [u8],
)
    requires paired_plan { PairedPlan lists.now there.now back.now }
    requires places { (count_of lists.now ≤ length by_position.old) × (count_of lists.now ≤ length by_label.old) }
    ensures { InBothOrders (rooms_in lists.now) (count_of lists.now) by_position.new by_label.new }
{
    if lists.len() <= 15 {
        return orders_with::<32>(lists, there, back, by_position, by_label);
    }
    if lists.len() <= 63 {
        return orders_with::<128>(lists, there, back, by_position, by_label);
    }
    orders_with::<512>(lists, there, back, by_position, by_label)
}

// ---- positions and labels

// The rank of each room, at its place in the list, from the rooms in their order.
fn rank_all(by: &[u8], ranks: &mut [u8])
    requires ranked { (f : ℕ → ℕ) × Ranking by.now f }
    requires places { (length by.now ≤ 255) × (length by.now ≤ length ranks.old) }
    ensures { (f : ℕ → ℕ) → Ranking by.now f → ranks.new ≡ filled f (length by.now) ranks.old }
{
    for (k, &room) in by.iter().enumerate() {
        ranks[usize::from(room)] = (k + 1) as u8;
    }
}

// From the front of the slices the label and the position of each room, at its place in the list, and the rooms by position. `by_label` is
// for the rooms by label. `there` and `back` are no struct with their clause: what is known of them names the keys by which they were
// paired, and a ghost field takes no fact that has several proofs.
pub fn labels_and_positions(
    lists: &CornerLists,
    there: &[u16],
    back: &[u16],
    by_position: &mut [u8],
    by_label: &mut [u8],
    labels: &mut [u8],
    positions: &mut [u8],
)
    requires paired_plan { PairedPlan lists.now there.now back.now }
    requires order_places { (count_of lists.now ≤ length by_position.old) × (count_of lists.now ≤ length by_label.old) }
    requires rank_places { (count_of lists.now ≤ length labels.old) × (count_of lists.now ≤ length positions.old) }
    ensures { Numbered (rooms_in lists.now) (count_of lists.now) by_position.new labels.old labels.new
        positions.old positions.new }
{
    both_orders(lists, there, back, by_position, by_label);
    let n = lists.len();
    rank_all(&by_label[..n], labels);
    rank_all(&by_position[..n], positions);
}

// ---- the label list

// The labels by position, from the labels of the rooms, which stand at the rooms' places, and the rooms by position.
pub fn label_list(labels: &[u8], by: &[u8], list: &mut [u8])
    requires labels_in_order { (rooms : List Room) × LabelsInOrder rooms labels.now by.now }
    requires places { length by.now ≤ length list.old }
    ensures { (rooms : List Room) → LabelsInOrder rooms labels.now by.now
        → take (length by.now) list.new ≡ label_list rooms }
{
    for (k, &room) in by.iter().enumerate() {
        list[k] = labels[usize::from(room)];
    }
}
