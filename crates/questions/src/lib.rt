// The question: how two rooms of a record stand to each other, whether directly, and whether they touch.
#![tactic(auto)]

ghost use Rattle.std.specs.Prelude.{◌≡◌, ◌-◌, ◌≤◌};
ghost use Rattle.finite.specs.Decide.{Tells};
ghost use Rattle.questions.specs.Answer.{question_answer, Outside};

use drawing::{Corners, Relation};
use record::{Position, Refusal};

// What the question tells: the relation of the first room to the second, and whether they touch.
#[derive(Clone, Copy)]
pub struct Related {
    pub relation: Relation,
    pub touch: bool,
}

// Whether a position is not one of 1 to n.
fn outside(position: u8, n: usize) -> bool
    ensures { Tells result (Outside position n) }
{
    position == 0 || n < usize::from(position)
}

// The index of the earlier of two positions; the first index where one of them is 0, which is none.
fn earlier(first: u8, second: u8) -> usize
    ensures { (result ≤ first - 1) × (result ≤ second - 1) }
{
    usize::from(first.min(second).saturating_sub(1))
}

// The question: positions are handed in as any number. The record is read back to the earlier of them, into 255 places for each
// number, which every record has room in.
pub fn question(record: &[u8], first: u8, second: u8) -> Result<Related, Refusal>
    ensures { result ≡ question_answer «record».now first second }
{
    let mut labels = [0u8; 255];
    let mut corners = Corners::NONE;
    let n = answers::read_into(record, earlier(first, second), &mut labels, &mut corners)?;
    if outside(first, n) || outside(second, n) {
        return Err(Refusal::PositionOutside);
    }
    if first == second {
        return Err(Refusal::SamePosition);
    }
    let side = drawing::side_of(&labels, Position(first), Position(second));
    let one = corners.room(drawing::index(Position(first)));
    let other = corners.room(drawing::index(Position(second)));
    let direct = drawing::face_on_one_line(one, other);
    let touch = drawing::share_inner_line(n, one, other);
    Ok(Related {
        relation: Relation { side, direct },
        touch,
    })
}
