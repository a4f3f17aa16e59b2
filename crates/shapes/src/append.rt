// The shapes of a picture of a plan, appended to a text in memory of fixed size: the forms and numbers are those that lib.rt puts into a
// lent store.
ghost use Rattle.std.specs.Prelude.{◌≡◌, ◌++◌, ◌+◌, ◌≤◌, ◌<◌};
ghost use Rattle.arrayvec.specs.ArrayVec.{array_vec_len};
ghost use Rattle.record.specs.Labels.{label_at};
ghost use Rattle.drawing.specs.Corners.{room_in};
ghost use Rattle.contacts.specs.GridLine.{line_at};
ghost use Rattle.shapes.specs.Picture.{rectangle, names, segment_drawn, head};

use crate::short_side;
use record::Position;
use text::{Plan, Text};

// ---- rooms

// Appends the rectangle of the room at a position.
#[tactic(auto, unfolding(text::specs::Form::filled))]
pub fn append_rectangle<const N: usize>(text: &mut Text<N>, plan: &Plan, position: Position)
    requires inside { (1 ≤ position.0) × (position.0 ≤ plan.now.n) }
    requires fits { array_vec_len text.old + 57 ≤ N }
    ensures items { text.new.items
        ≡ text.old.items ++ rectangle plan.now.n (room_in plan.now.corners position.0) }
    ensures len { array_vec_len text.new ≤ array_vec_len text.old + 57 }
{
    let n = u16::from(plan.n);
    let room = plan.room(position);
    let x = 20 + 40 * room.left + 4;
    let y = 20 + 40 * (n - room.top) + 4;
    let width = 40 * (room.right - room.left) - 8;
    let height = 40 * (room.top - room.bottom) - 8;
    text::append_form(
        text,
        b"<rect x=\"%\" y=\"%\" width=\"%\" height=\"%\"/>\n",
        &[x, y, width, height],
    );
}

// Appends the label and the position of the room at a position, around its middle.
#[tactic(auto, unfolding(text::specs::Form::filled))]
pub fn append_names<const N: usize>(text: &mut Text<N>, plan: &Plan, position: Position)
    requires inside { (1 ≤ position.0) × (position.0 ≤ plan.now.n) }
    requires fits { array_vec_len text.old + 97 ≤ N }
    ensures items { text.new.items ≡ text.old.items
        ++ names plan.now.n position.0 (label_at plan.now.labels position.0)
        (room_in plan.now.corners position.0) }
    ensures len { array_vec_len text.new ≤ array_vec_len text.old + 97 }
{
    let n = u16::from(plan.n);
    let room = plan.room(position);
    let label = u16::from(plan.label(position).0);
    let position = u16::from(position.0);
    let size = short_side(room);
    let x = 20 + 20 * (room.left + room.right);
    let y = 20 + 20 * ((n - room.top) + (n - room.bottom));
    let above = y - 2 * size;
    let below = y + 11 * size;
    text::append_form(
        text,
        b"<text x=\"%\" y=\"%\" font-size=\"%\">%<tspan x=\"%\" y=\"%\">%</tspan></text>\n",
        &[x, above, 13 * size, label, x, below, position],
    );
}

// ---- segments

// Appends the segment between the rooms at position k and the next.
#[tactic(auto, unfolding(text::specs::Form::filled))]
pub fn append_segment<const N: usize>(text: &mut Text<N>, plan: &Plan, k: u8)
    requires inside { (1 ≤ k) × (k < plan.now.n) }
    requires fits { array_vec_len text.old + 62 ≤ N }
    ensures items { text.new.items ≡ text.old.items
        ++ segment_drawn plan.now.n
        (line_at (label_at plan.now.labels) (room_in plan.now.corners) k) }
    ensures len { array_vec_len text.new ≤ array_vec_len text.old + 62 }
{
    let n = u16::from(plan.n);
    let first = plan.label(Position(k));
    let second = plan.label(Position(k + 1));
    let earlier = plan.room(Position(k));
    let later = plan.room(Position(k + 1));
    let k = u16::from(k);
    if first.0 < second.0 {
        let x = 20 + 40 * k;
        let high = 20 + 40 * (n - earlier.top) + 6;
        let low = 20 + 40 * (n - later.bottom) - 6;
        text::append_form(
            text,
            b"<line class=\"v\" x1=\"%\" y1=\"%\" x2=\"%\" y2=\"%\"/>\n",
            &[x, high, x, low],
        );
    } else {
        let y = 20 + 40 * (n - k);
        let left = 20 + 40 * later.left + 6;
        let right = 20 + 40 * earlier.right - 6;
        text::append_form(
            text,
            b"<line class=\"h\" x1=\"%\" y1=\"%\" x2=\"%\" y2=\"%\"/>\n",
            &[left, y, right, y],
        );
    }
}

// ---- the head

// Appends the head of the picture of n rooms, with the outline.
#[tactic(auto, unfolding(text::specs::Form::filled))]
pub fn append_head<const N: usize>(text: &mut Text<N>, n: u8)
    requires { array_vec_len text.old + 500 ≤ N }
    ensures items { text.new.items ≡ text.old.items ++ head n }
    ensures len { array_vec_len text.new ≤ array_vec_len text.old + 500 }
{
    let inside = 40 * u16::from(n);
    let side = 40 + inside;
    text::append_form(
        text,
        b"<svg xmlns=\"http://www.w3.org/2000/svg\" viewBox=\"0 0 % %\" font-family=\"sans-serif\" text-anchor=\"middle\">\n<style>\
    rect{fill:#eaf0f6}text{fill:#16222e;font-weight:bold}tspan{fill:#5f7588;font-weight:normal}\
    line{stroke-width:3}.v{stroke:#b5482f}.h{stroke:#2f6ea5}.o{fill:#fff;stroke:#16222e;stroke-width:3}</style>\n\
    <rect class=\"o\" x=\"20\" y=\"20\" width=\"%\" height=\"%\"/>\n",
        &[side, side, inside, inside],
    );
}
