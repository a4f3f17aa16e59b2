// The picture of a plan, the head, then the rooms, then the inner segments: put into a lent store, or made as a text.
#![tactic(auto)]

ghost use Rattle.std.specs.Prelude.{◌≡◌, suc, ◌+◌, ◌*◌, ◌≤◌, ◌<◌, length};
ghost use Rattle.drawing.specs.Corners.{room_in};
ghost use Rattle.finite.specs.Put.{Put};
ghost use Rattle.text.specs.Places.{corners, view_in};
ghost use Rattle.shapes.specs.Picture.{rooms, segments, picture};
ghost use Rattle.shapes.specs.Plan.{Plan};

mod append;

pub use append::picture;
use drawing::Room;
use record::{Label, Position};

// The room with index i, of which the corners stand in arrays by position. It is unnamed. One lifetime does for the four, which are
// lent at once.
fn room_from<'a>(
    left: &'a [u8; 255],
    bottom: &'a [u8; 255],
    right: &'a [u8; 255],
    top: &'a [u8; 255],
    i: usize,
) -> Room
    requires { i < 255 }
    ensures { result ≡ room_in (corners left.now bottom.now right.now top.now) (suc i) }
{
    Room {
        left: u16::from(left[i]),
        bottom: u16::from(bottom[i]),
        right: u16::from(right[i]),
        top: u16::from(top[i]),
        name: 0,
    }
}

// Puts the rooms of a plan.
fn put_rooms<'a>(
    text: &mut [u8],
    start: usize,
    n: usize,
    labels: &[u8],
    left: &'a [u8; 255],
    bottom: &'a [u8; 255],
    right: &'a [u8; 255],
    top: &'a [u8; 255],
) -> usize
    requires plan { Plan n labels.now left.now bottom.now right.now top.now }
    requires fits { start + 154 * n ≤ length text.old }
    ensures { Put text.old start
        (view_in rooms labels.now left.now bottom.now right.now top.now n)
        text.new result × (result ≤ start + 154 * n) }
{
    let mut at = start;
    for i in 0..n {
        let label = Label(labels[i]);
        let room = room_from(left, bottom, right, top, i);
        at = shapes::put_rectangle(text, at, n as u16, room);
        at = shapes::put_names(text, at, n as u16, Position((i + 1) as u8), label, room);
    }
    at
}

// Puts the inner segments of a plan, one after each position but the last.
fn put_segments<'a>(
    text: &mut [u8],
    start: usize,
    n: usize,
    labels: &[u8],
    left: &'a [u8; 255],
    bottom: &'a [u8; 255],
    right: &'a [u8; 255],
    top: &'a [u8; 255],
) -> usize
    requires plan { Plan n labels.now left.now bottom.now right.now top.now }
    requires fits { (1 ≤ n) × (start + 62 * n ≤ length text.old) }
    ensures { Put text.old start
        (view_in segments labels.now left.now bottom.now right.now top.now n)
        text.new result × (result ≤ start + 62 * n) }
{
    let mut at = start;
    for k in 0..n - 1 {
        let first = Label(labels[k]);
        let second = Label(labels[k + 1]);
        let earlier = room_from(left, bottom, right, top, k);
        let later = room_from(left, bottom, right, top, k + 1);
        at = shapes::put_segment(
            text,
            at,
            n as u16,
            (k + 1) as u16,
            first,
            second,
            earlier,
            later,
        );
    }
    at
}

// Puts the picture of a plan from the front.
pub fn put_plan<'a>(
    text: &mut [u8],
    n: usize,
    labels: &[u8],
    left: &'a [u8; 255],
    bottom: &'a [u8; 255],
    right: &'a [u8; 255],
    top: &'a [u8; 255],
) -> usize
    requires plan { Plan n labels.now left.now bottom.now right.now top.now }
    requires fits { (1 ≤ n) × (56000 ≤ length text.old) }
    ensures { Put text.old 0
        (view_in picture labels.now left.now bottom.now right.now top.now n)
        text.new result × (result ≤ 56000) }
{
    let at = shapes::put_head(text, n as u16);
    let at = put_rooms(text, at, n, labels, left, bottom, right, top);
    let at = put_segments(text, at, n, labels, left, bottom, right, top);
    text::put_form(text, at, b"</svg>\n", &[])
}
