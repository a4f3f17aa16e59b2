// Puts the shapes of a picture, each of which is one form with its numbers: the head with the outline, a room's rectangle and its
// names, and a segment. A grid step is 40 units, and the margin is 20. They are put into a lent store, or appended to a text.
#![tactic(auto)]

ghost use Rattle.std.specs.Prelude.{◌≡◌, ◌+◌, ◌≤◌, length};
ghost use Rattle.drawing.specs.Within.{Within};
ghost use Rattle.contacts.specs.GridLine.{line_between};
ghost use Rattle.finite.specs.Put.{Put};
ghost use Rattle.shapes.specs.Picture.{short_side, rectangle, names, segment_drawn, head};

mod append;

pub use append::{append_head, append_names, append_rectangle, append_segment};
use drawing::Room;
use record::{Label, Position};

// ---- rooms

// Puts the rectangle of a room.
#[tactic(auto, unfolding(text::specs::Form::filled))]
pub fn put_rectangle(text: &mut [u8], at: usize, n: u16, room: Room) -> usize
    requires inside { (n ≤ 255) × Within n room }
    requires fits { at + 57 ≤ length text.old }
    ensures { Put text.old at (rectangle n room) text.new result × (result ≤ at + 57) }
{
    let x = 20 + 40 * room.left + 4;
    let y = 20 + 40 * (n - room.top) + 4;
    let width = 40 * (room.right - room.left) - 8;
    let height = 40 * (room.top - room.bottom) - 8;
    text::put_form(
        text,
        at,
        b"<rect x=\"%\" y=\"%\" width=\"%\" height=\"%\"/>\n",
        &[x, y, width, height],
    )
}

// The steps along the shorter side of a room.
fn short_side(room: Room) -> u16
    requires { (room.left ≤ room.right) × (room.bottom ≤ room.top) }
    ensures { result ≡ short_side room }
{
    (room.right - room.left).min(room.top - room.bottom)
}

// Puts the label and the position of a room, around its middle.
#[tactic(auto, unfolding(text::specs::Form::filled))]
pub fn put_names(
    text: &mut [u8],
    at: usize,
    n: u16,
    position: Position,
    label: Label,
    room: Room,
) -> usize
    requires inside { (n ≤ 255) × Within n room }
    requires fits { at + 97 ≤ length text.old }
    ensures { Put text.old at (names n position.0 label.0 room) text.new result × (result ≤ at + 97) }
{
    let size = short_side(room);
    let x = 20 + 20 * (room.left + room.right);
    let y = 20 + 20 * ((n - room.top) + (n - room.bottom));
    let above = y - 2 * size;
    let below = y + 11 * size;
    text::put_form(
        text,
        at,
        b"<text x=\"%\" y=\"%\" font-size=\"%\">%<tspan x=\"%\" y=\"%\">%</tspan></text>\n",
        &[
            x,
            above,
            13 * size,
            u16::from(label.0),
            x,
            below,
            u16::from(position.0),
        ],
    )
}

// ---- segments

// Puts the segment between two rooms that follow each other by position, the first of them at position k.
#[tactic(auto, unfolding(text::specs::Form::filled))]
pub fn put_segment(
    text: &mut [u8],
    at: usize,
    n: u16,
    k: u16,
    first: Label,
    second: Label,
    earlier: Room,
    later: Room,
) -> usize
    requires inside { (n ≤ 255) × (k ≤ n) × Within n earlier × Within n later }
    requires fits { at + 62 ≤ length text.old }
    ensures { Put text.old at (segment_drawn n (line_between k first.0 second.0 earlier later)) text.new result
        × (result ≤ at + 62) }
{
    if first.0 < second.0 {
        let x = 20 + 40 * k;
        let high = 20 + 40 * (n - earlier.top) + 6;
        let low = 20 + 40 * (n - later.bottom) - 6;
        text::put_form(
            text,
            at,
            b"<line class=\"v\" x1=\"%\" y1=\"%\" x2=\"%\" y2=\"%\"/>\n",
            &[x, high, x, low],
        )
    } else {
        let y = 20 + 40 * (n - k);
        let left = 20 + 40 * later.left + 6;
        let right = 20 + 40 * earlier.right - 6;
        text::put_form(
            text,
            at,
            b"<line class=\"h\" x1=\"%\" y1=\"%\" x2=\"%\" y2=\"%\"/>\n",
            &[left, y, right, y],
        )
    }
}

// ---- the head

// Puts the head of the picture, with the outline, from the front.
#[tactic(auto, unfolding(text::specs::Form::filled))]
pub fn put_head(text: &mut [u8], n: u16) -> usize
    requires { (n ≤ 255) × (500 ≤ length text.old) }
    ensures { Put text.old 0 (head n) text.new result × (result ≤ 500) }
{
    let side = 40 + 40 * n;
    let inside = 40 * n;
    text::put_form(
        text,
        0,
        b"<svg xmlns=\"http://www.w3.org/2000/svg\" viewBox=\"0 0 % %\" font-family=\"sans-serif\" text-anchor=\"middle\">\n<style>\
    rect{fill:#eaf0f6}text{fill:#16222e;font-weight:bold}tspan{fill:#5f7588;font-weight:normal}\
    line{stroke-width:3}.v{stroke:#b5482f}.h{stroke:#2f6ea5}.o{fill:#fff;stroke:#16222e;stroke-width:3}</style>\n\
    <rect class=\"o\" x=\"20\" y=\"20\" width=\"%\" height=\"%\"/>\n",
        &[side, side, inside, inside],
    )
}
