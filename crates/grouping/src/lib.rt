// Whole groups at once: how the rooms of one group stand to those of another one.
#![tactic(auto)]

ghost use Rattle.std.specs.Prelude.{◌⊎◌, ◌≡◌, ◌*◌, ◌≤◌, ◌<◌, Some, Ok};
ghost use Rattle.std.specs.Int.Bits.{bit_and};
ghost use Rattle.finite.specs.Decide.{Tells};
ghost use Rattle.record.specs.Labels.{label_at};
ghost use Rattle.judging.specs.Walkable.{labels_in, Walkable};
ghost use Rattle.groups.specs.Group.{EachIn, Common, Fits};
ghost use Rattle.groups.specs.Answer.{standing, groups_answer};
ghost use Rattle.grouping.specs.Ends.{FirstIn, LastIn, Past, verdict_of};

use drawing::Side;
use record::Refusal;
use relating::Seen;

// ---- the extremes of a group's positions

// How many bytes of a group there are up to the last that is not 0. This and `bytes_unused` look from one end each, and so do the two that
// use them: one function over the direction would ask for it in each turn.
fn bytes_used(group: &[u8; 32]) -> usize
    ensures { (result ≤ 32) × EachIn group.now (λ k. k ≤ 8 * result) }
{
    for i in (0..32).rev() {
        if group[i] != 0 {
            return i + 1;
        }
    }
    0
}

// The last position in a group.
fn last_position(group: &[u8; 32]) -> Option<usize>
    ensures { LastIn group.now result }
{
    for i in (0..8 * bytes_used(group)).rev() {
        if relating::member(group, i) == 1 {
            return Some(i + 1);
        }
    }
    None
}

// How many bytes of a group there are before the first that is not 0.
fn bytes_unused(group: &[u8; 32]) -> usize
    ensures { (result ≤ 32) × EachIn group.now (λ k. 8 * result < k) }
{
    for unused in 0..32 {
        if group[unused] != 0 {
            return unused;
        }
    }
    32
}

// The first position in a group.
fn first_position(group: &[u8; 32]) -> Option<usize>
    ensures { FirstIn group.now result }
{
    for i in 8 * bytes_unused(group)..256 {
        if relating::member(group, i) == 1 {
            return Some(i + 1);
        }
    }
    None
}

// Whether all positions of a group come after one.
fn all_after(group: &[u8; 32], last: usize) -> bool
    ensures { Tells result (EachIn group.now (λ k. last < k)) }
{
    first_position(group).is_none_or(|first| last < first)
}

// ---- what is refused of two groups

// Whether a last position is past the last of n rooms.
fn past(n: usize, last: Option<usize>) -> bool
    ensures { Tells result (Past n last) }
{
    last.is_some_and(|last| n < last)
}

// Whether one of two last positions is past the last of n rooms.
fn outside(n: usize, one: Option<usize>, other: Option<usize>) -> bool
    ensures { Tells result ((Past n one) ⊎ (Past n other)) }
{
    past(n, one) | past(n, other)
}

// The bits that two bytes have in common.
fn shared(one: u8, other: u8) -> u8
    ensures { (result ≡ bit_and one other) × (result < 256) }
{
    one & other
}

// Whether a position is in both groups. No turn leaves the loop, so that the compiler takes several bytes at a time.
fn in_common(first: &[u8; 32], second: &[u8; 32]) -> bool
    ensures { Tells result (Common first.now second.now) }
{
    let mut both: u8 = 0;
    for i in 0..32 {
        both |= shared(first[i], second[i]);
    }
    both != 0
}

// ---- the answer

// The side where it is seen which of two relations occur: of the one on its own, and none where both do.
fn verdict(seen: Seen, left: Side, below: Side) -> Option<Side>
    ensures { result ≡ verdict_of seen.left seen.below left below }
{
    if !seen.below {
        return Some(left);
    }
    if !seen.left {
        return Some(below);
    }
    None
}

// The side for two groups whose last positions are known. Where all positions of one come before those of the other, each of its rooms
// is left of each room of the other or below it; and else some room comes before one of the other group and some after one.
fn stand(
    body: &[u8],
    n: usize,
    one: usize,
    other: usize,
    first: &[u8; 32],
    second: &[u8; 32],
) -> Option<Side>
    requires { Walkable body.now n × Fits n first.now second.now × LastIn first.now (Some one) × LastIn second.now (Some other) }
    ensures { Ok result ≡ standing (label_at (labels_in body.now n)) first.now second.now }
{
    if all_after(second, one) {
        let seen = relating::relations(body, n, other, first, second);
        return verdict(seen, Side::Left, Side::Below);
    }
    if all_after(first, other) {
        let seen = relating::relations(body, n, one, second, first);
        return verdict(seen, Side::Right, Side::Above);
    }
    None
}

// The question of two groups: the record is judged, then the groups are looked at, and where nothing is refused one walk along the triples
// sees how they stand.
pub fn groups(record: &[u8], first: &[u8; 32], second: &[u8; 32]) -> Result<Option<Side>, Refusal>
    ensures { result ≡ groups_answer «record».now first.now second.now }
{
    let n = judging::judge(record)?.rooms;
    let one = last_position(first);
    let other = last_position(second);
    if outside(n, one, other) {
        return Err(Refusal::PositionOutside);
    }
    let Some(one) = one else {
        return Err(Refusal::EmptyGroup);
    };
    let Some(other) = other else {
        return Err(Refusal::EmptyGroup);
    };
    if in_common(first, second) {
        return Err(Refusal::SamePosition);
    }
    Ok(stand(&record[1..], n, one, other, first, second))
}
