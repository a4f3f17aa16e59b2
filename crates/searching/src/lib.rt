// Pattern: the first barred pattern of a label list, that there is none, or the refusal with 1, 6 or 7, in this order.
#![tactic(auto)]

ghost use Rattle.std.specs.Prelude.{◌≡◌, ◌+◌, ◌≤◌, ◌<◌, Ok, length, replicate};
ghost use Rattle.record.specs.Labels.{label_at};
ghost use Rattle.record.specs.Judged.{Permutation};
ghost use Rattle.patterns.specs.Answer.{pattern_answer};
ghost use Rattle.patterns.specs.Sides.{NextTo, Beyond};
ghost use Rattle.patterns.specs.Scope.{NoneIn, StartsBefore};
ghost use Rattle.searching.specs.Places.{Places, PlacedOrNot, PlaceNextTo};
ghost use Rattle.searching.specs.Search.{FirstBetween, Completes, SearchedTo, pattern_at};

use patterns::{Condition, Pattern};
use record::{Label, Position, Refusal};

// A list of the labels 1 to n, each once, with the position of each label. Labels that are none of these have place 0.
#[derive(Clone, Copy)]
struct Placed<'a> {
    labels: &'a [u8],
    places: &'a [u8; 257],
    ghost permutation: { Permutation labels.now },
    ghost some: { 1 ≤ length labels.now },
    ghost few: { length labels.now ≤ 255 },
    ghost placed: { Places (label_at labels.now) (length labels.now) places.now },
}

// Lists the position of each label, and tells whether the labels are 1 to n, each once, and at most 255; else the rest is left out.
fn list_places(labels: &[u8], places: &mut [u8; 257]) -> bool
    requires { places.old ≡ replicate 257 0 }
    ensures { PlacedOrNot labels.now places.new result }
{
    let n = labels.len();
    if n == 0 || 255 < n || labels::outside(labels) {
        return false;
    }
    for i in 0..n {
        let at = Label(labels[i]).index();
        if places[at] != 0 {
            return false;
        }
        places[at] = (i + 1) as u8;
    }
    true
}

// The label next above a label, or where `above` is false next below it. Here and below a side is a bool, as comparing two labels gives it.
fn next_to(label: usize, above: bool) -> usize
    requires { (1 ≤ label) × (label ≤ 255) }
    ensures { NextTo above label result × (result < 257) }
{
    if above { label + 1 } else { label - 1 }
}

// The pattern at four positions of the condition in which the last label lies above the first one, or where `above` is false below it.
fn pattern_at(above: bool, i: usize, j: usize, k: usize, l: usize) -> Pattern
    requires { (i ≤ 255) × (j ≤ 255) × (k ≤ 255) × (l ≤ 255) }
    ensures { result ≡ pattern_at above i j k l }
{
    let condition = if above {
        Condition::First
    } else {
        Condition::Second
    };
    Pattern {
        condition,
        i: Position(i as u8),
        j: Position(j as u8),
        k: Position(k as u8),
        l: Position(l as u8),
    }
}

impl Placed<'_> {
    // The label at a position.
    fn label_at(&self, position: usize) -> usize
        requires { (1 ≤ position) × (position ≤ length self.now.labels.now) }
        ensures { (result ≡ label_at self.now.labels.now position) × (result ≤ 255) }
    {
        Label(self.labels[position - 1]).index()
    }

    // The position of the label next above a label, or where `above` is false next below it. It is 0 if there is none: no position lies
    // before that, so a search for a position before it finds none, and needs no test of whether there is one.
    fn place_next_to(&self, label: usize, above: bool) -> usize
        requires { (1 ≤ label) × (label ≤ 255) }
        ensures { PlaceNextTo self.now.places.now label above result }
    {
        usize::from(self.places[next_to(label, above)])
    }

    // The first position from `from` on and before `to` whose label lies above a label, or where `above` is false does not.
    fn first_beyond(&self, from: usize, to: usize, above: bool, label: usize) -> Option<usize>
        requires { (1 ≤ from) × (to ≤ length self.now.labels.now) }
        ensures { FirstBetween (Beyond (label_at self.now.labels.now) above label) from to result }
    {
        for at in from..to {
            if (label < self.label_at(at)) == above {
                return Some(at);
            }
        }
        None
    }

    // The first pattern that starts at position i. The last position is told by its label. Where the next label lies above i's label, a
    // pattern of the first condition has the next position for j and for k the first one, at `turn`, where the labels turn below i's; a
    // pattern of the second has j there, and k where they first come back above. The other way round it is the same. The j of the one is
    // the earlier one.
    fn complete(&self, i: usize) -> Option<Pattern>
        requires { (1 ≤ i) × (i < length self.now.labels.now) }
        ensures { Completes (label_at self.now.labels.now) (length self.now.labels.now) i result }
    {
        let label = self.label_at(i);
        let above = label < self.label_at(i + 1);
        let near = self.place_next_to(label, above);
        let far = self.place_next_to(label, !above);
        let turn = self.first_beyond(i + 2, near.max(far), !above, label)?;
        if turn < near {
            return Some(pattern_at(above, i, i + 1, turn, near));
        }
        let back = self.first_beyond(turn + 1, far, above, label)?;
        Some(pattern_at(!above, i, turn, back, far))
    }

    // The first pattern that starts before position `to`, where none starts before position `from`.
    fn search(&self, from: usize, to: usize) -> Option<Pattern>
        requires range { (1 ≤ from) × (from ≤ to) × (to ≤ length self.now.labels.now) }
        requires none_before { NoneIn (label_at self.now.labels.now) (length self.now.labels.now) (StartsBefore from) }
        ensures { SearchedTo (label_at self.now.labels.now) (length self.now.labels.now) to result }
    {
        for i in from..to {
            if let Some(found) = self.complete(i) {
                return Some(found);
            }
        }
        None
    }

    // The first pattern, if there is one. Most lists that have a pattern have one that starts at the first few positions. Where none does,
    // Labels in tells whether to look on, in one pass.
    fn first_pattern(&self) -> Option<Pattern>
        ensures { Ok result ≡ pattern_answer self.now.labels.now }
    {
        let n = self.labels.len();
        let few = n.min(4);
        if let Some(early) = self.search(1, few) {
            return Some(early);
        }
        if labels::judge(self.labels).is_ok() {
            return None;
        }
        self.search(few, n)
    }
}

// The first barred pattern of a label list, or that there is none; or the refusal with 1, 6 or 7, which is the one of Labels in.
pub fn pattern(labels: &[u8]) -> Result<Option<Pattern>, Refusal>
    ensures { result ≡ pattern_answer labels.now }
{
    let mut places = [0u8; 257];
    if list_places(labels, &mut places) {
        let placed = Placed {
            labels,
            places: &places,
        };
        return Ok(placed.first_pattern());
    }
    match labels::judge(labels) {
        Ok(()) => Ok(None),
        Err(refusal) => Err(refusal),
    }
}
