// The listing of a plan as a text in memory of fixed size.
ghost use Rattle.std.specs.Prelude.{◌≡◌, ◌++◌, ◌+◌, ◌*◌, ◌≤◌};
ghost use Rattle.arrayvec.specs.ArrayVec.{array_vec_len};
ghost use Rattle.record.specs.Labels.{label_at};
ghost use Rattle.drawing.specs.Corners.{room_in};
ghost use Rattle.text.specs.Shown.{shown};
ghost use Rattle.listing.specs.Text.{line_of, lines_of, listing};

use record::{Label, Position};
use text::{Plan, Text};

// Appends the line of a position.
#[tactic(auto, using(crate::specs::Lines::line_form))]
fn append_line<const N: usize>(text: &mut Text<N>, plan: &Plan, position: Position)
    requires inside { (1 ≤ position.0) × (position.0 ≤ plan.now.n) }
    requires fits { array_vec_len text.old + 36 ≤ N }
    ensures items { text.new.items ≡ text.old.items
        ++ line_of position.0 (label_at plan.now.labels position.0)
        (room_in plan.now.corners position.0) }
    ensures len { array_vec_len text.new ≤ array_vec_len text.old + 36 }
{
    let room = plan.room(position);
    let Label(label) = plan.label(position);
    text::append_form(
        text,
        b"% % % % % %\n",
        &[
            u16::from(position.0),
            u16::from(label),
            room.left,
            room.bottom,
            room.right,
            room.top,
        ],
    );
}

// Appends the lines of all positions.
#[tactic(auto, using(crate::specs::Lines::no_lines, crate::specs::Lines::one_line_more))]
fn append_lines<const N: usize>(text: &mut Text<N>, plan: &Plan)
    requires { array_vec_len text.old + 36 * plan.now.n ≤ N }
    ensures items { text.new.items ≡ text.old.items ++ shown lines_of plan.now }
    ensures len { array_vec_len text.new ≤ array_vec_len text.old + 36 * plan.now.n }
{
    for i in 0..plan.n {
        append_line(text, plan, Position(i + 1));
    }
}

// The listing of a plan.
#[tactic(auto, unfolding(text::specs::Form::filled))]
pub fn listing<const N: usize>(plan: &Plan) -> Text<N>
    requires { 9200 ≤ N }
    ensures items { result.items ≡ shown listing plan.now }
    ensures len { array_vec_len result ≤ 9200 }
{
    let mut text = Text::new();
    let n = plan.n;
    text::append_form(&mut text, b"rooms %\n", &[u16::from(n)]);
    append_lines(&mut text, plan);
    text
}
