// The picture of a plan as a text in memory of fixed size.
ghost use Rattle.std.specs.Prelude.{◌≡◌, ◌++◌, ◌+◌, ◌*◌, ◌≤◌};
ghost use Rattle.arrayvec.specs.ArrayVec.{array_vec_len};
ghost use Rattle.text.specs.Shown.{shown};
ghost use Rattle.shapes.specs.Picture.{rooms, segments, picture};

use record::Position;
use text::{Plan, Text};

// Appends the rooms of a plan.
#[tactic(auto, using(crate::specs::Drawn::no_rooms, crate::specs::Drawn::one_room_more))]
fn append_rooms<const N: usize>(text: &mut Text<N>, plan: &Plan)
    requires { array_vec_len text.old + 154 * plan.now.n ≤ N }
    ensures items { text.new.items ≡ text.old.items ++ shown rooms plan.now }
    ensures len { array_vec_len text.new ≤ array_vec_len text.old + 154 * plan.now.n }
{
    for i in 0..plan.n {
        let position = Position(i + 1);
        shapes::append_rectangle(text, plan, position);
        shapes::append_names(text, plan, position);
    }
}

// Appends the inner segments of a plan, one after each position but the last.
#[tactic(auto, using(crate::specs::Drawn::no_segments, crate::specs::Drawn::one_segment_more))]
fn append_segments<const N: usize>(text: &mut Text<N>, plan: &Plan)
    requires { array_vec_len text.old + 62 * plan.now.n ≤ N }
    ensures items { text.new.items ≡ text.old.items ++ shown segments plan.now }
    ensures len { array_vec_len text.new ≤ array_vec_len text.old + 62 * plan.now.n }
{
    for k in 1..plan.n {
        shapes::append_segment(text, plan, k);
    }
}

// The picture of a plan.
#[tactic(auto, unfolding(text::specs::Form::filled))]
pub fn picture<const N: usize>(plan: &Plan) -> Text<N>
    requires { 56000 ≤ N }
    ensures items { result.items ≡ shown picture plan.now }
    ensures len { array_vec_len result ≤ 56000 }
{
    let mut text = Text::new();
    let n = plan.n;
    shapes::append_head(&mut text, n);
    append_rooms(&mut text, plan);
    append_segments(&mut text, plan);
    text::append_form(&mut text, b"</svg>\n", &[]);
    text
}
