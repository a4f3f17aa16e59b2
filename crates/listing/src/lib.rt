// The listing of a plan, a header line and then a line for each position: put into a lent store, or made as a text.
#![tactic(auto)]

ghost use Rattle.std.specs.Prelude.{◌≡◌, suc, ◌+◌, ◌*◌, ◌≤◌, ◌<◌, length};
ghost use Rattle.drawing.specs.Corners.{room_in};
ghost use Rattle.finite.specs.Put.{Put};
ghost use Rattle.text.specs.Places.{Places, corners, view_in};
ghost use Rattle.listing.specs.Text.{line_of, lines_of, listing};

mod append;

pub use append::listing;
use drawing::Room;
use record::{Label, Position};

// The room with index i, of which the corners stand in arrays by position. It is unnamed. One lifetime does for the four, which are
// lent at once.
fn room_from<'a>(
    left: &'a [u8; 255],
    bottom: &'a [u8; 255],
    right: &'a [u8; 255],
    top: &'a [u8; 255],
    i: usize,
) -> Room
    requires { i < 255 }
    ensures { result ≡ room_in (corners left.now bottom.now right.now top.now) (suc i) }
{
    Room {
        left: u16::from(left[i]),
        bottom: u16::from(bottom[i]),
        right: u16::from(right[i]),
        top: u16::from(top[i]),
        name: 0,
    }
}

// Puts the line of a position.
#[tactic(auto, using(crate::specs::Lines::line_form))]
fn put_line(text: &mut [u8], at: usize, position: Position, label: Label, room: Room) -> usize
    requires { at + 36 ≤ length text.old }
    ensures { Put text.old at (line_of position.0 label.0 room) text.new result × (result ≤ at + 36) }
{
    text::put_form(
        text,
        at,
        b"% % % % % %\n",
        &[
            u16::from(position.0),
            u16::from(label.0),
            room.left,
            room.bottom,
            room.right,
            room.top,
        ],
    )
}

// Puts the lines of n positions.
fn put_lines<'a>(
    text: &mut [u8],
    start: usize,
    n: usize,
    labels: &[u8],
    left: &'a [u8; 255],
    bottom: &'a [u8; 255],
    right: &'a [u8; 255],
    top: &'a [u8; 255],
) -> usize
    requires places { Places n labels.now }
    requires fits { start + 36 * n ≤ length text.old }
    ensures { Put text.old start
        (view_in lines_of labels.now left.now bottom.now right.now top.now n)
        text.new result × (result ≤ start + 36 * n) }
{
    let mut at = start;
    for i in 0..n {
        let label = Label(labels[i]);
        let room = room_from(left, bottom, right, top, i);
        at = put_line(text, at, Position((i + 1) as u8), label, room);
    }
    at
}

// Puts the listing of n rooms from the front.
#[tactic(auto, unfolding(text::specs::Form::filled))]
pub fn put_listing<'a>(
    text: &mut [u8],
    n: usize,
    labels: &[u8],
    left: &'a [u8; 255],
    bottom: &'a [u8; 255],
    right: &'a [u8; 255],
    top: &'a [u8; 255],
) -> usize
    requires places { Places n labels.now }
    requires fits { 9200 ≤ length text.old }
    ensures { Put text.old 0
        (view_in listing labels.now left.now bottom.now right.now top.now n)
        text.new result × (result ≤ 9200) }
{
    let at = text::put_form(text, 0, b"rooms %\n", &[n as u16]);
    put_lines(text, at, n, labels, left, bottom, right, top)
}
