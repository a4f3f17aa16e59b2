// The cutting tree of a slicing plan: a record is read, and the tree of its labels is put from the root down. Positions count from 1.
#![tactic(auto)]

ghost use Rattle.std.specs.Prelude.{suc, ◌+◌, ◌≤◌, ◌<◌, ◌≡◌, length};
ghost use Rattle.finite.specs.Decide.{Tells};
ghost use Rattle.record.specs.Labels.{label_at};
ghost use Rattle.slicing.specs.Cuts.{Before};
ghost use Rattle.slicing.specs.Interval.{place_of, lowest_of_first, lowest_of_rest};
ghost use Rattle.slicing.specs.Answer.{TreeIn, Few};
ghost use Rattle.trees.specs.Block.{BlockOf, PartFits, BlocksFit, FindsLine, EndsPart, Puts};
ghost use Rattle.trees.specs.Written.{Plan, Writes};

use drawing::Corners;
use record::Refusal;
use slicing::Cut;

// Where the trees that were put end, and how many they are.
#[derive(Clone, Copy)]
struct TreesPut {
    end: usize,
    number: usize,
}

// Whether the room with the one label stands before a later one with the other, in the order of a cut.
fn stands_before(cut: Cut, one: u8, other: u8) -> bool
    ensures { Tells result (Before cut one other) }
{
    match cut {
        Cut::Vertical => one < other,
        Cut::Horizontal => other < one,
    }
}

// The place of a room of a block in the order of a cut, by its label: one of the block's positions. Here and below a block goes as three
// numbers, `from`, `to` and `lowest`: as a struct they took 7 in 100 more time for a tree.
fn place(labels: &[u8], from: usize, to: usize, lowest: usize, cut: Cut, position: usize) -> usize
    requires { BlockOf labels.now from to lowest × (from ≤ position) × (position < to) }
    ensures { (result ≡ place_of cut from to lowest (label_at labels.now position)) × (result < to) }
{
    let label = usize::from(labels[position - 1]);
    match cut {
        Cut::Vertical => from + label - lowest,
        Cut::Horizontal => to + lowest - (label + 1),
    }
}

// Before which position a line parts a block of two rooms or more; none where no line does. It is looked for from both ends at once, and
// so found at no more cost than the shorter of the two blocks at the ends.
fn find_line(labels: &[u8], from: usize, to: usize, lowest: usize, cut: Cut) -> Option<usize>
    requires { BlockOf labels.now from to lowest × (suc from < to) }
    ensures { FindsLine result (label_at labels.now) cut from to }
{
    let mut i = from;
    let mut end = from + 1;
    let mut j = to;
    let mut start = to - 1;
    // A while: how many turns it takes depends on the places that it finds.
    while end <= start {
        if i == end {
            return Some(end);
        }
        if j == start {
            return Some(start);
        }
        end = end.max(place(labels, from, to, lowest, cut, i) + 1);
        i += 1;
        j -= 1;
        start = start.min(place(labels, from, to, lowest, cut, j));
    }
    None
}

// The lowest label of the rooms before a line.
fn lowest_before(cut: Cut, line: usize, to: usize, lowest: usize) -> usize
    requires { (line ≤ to) × (lowest + to ≤ 511) }
    ensures { result ≡ lowest_of_first cut line to lowest }
{
    match cut {
        Cut::Vertical => lowest,
        Cut::Horizontal => lowest + (to - line),
    }
}

// The lowest label of the rooms after a line.
fn lowest_after(cut: Cut, from: usize, line: usize, lowest: usize) -> usize
    requires { (from ≤ line) × (lowest + line ≤ 511) }
    ensures { result ≡ lowest_of_rest cut from line lowest }
{
    match cut {
        Cut::Vertical => lowest + (line - from),
        Cut::Horizontal => lowest,
    }
}

// Where the first part ends of rooms that are put part by part: after a room that is in its place, which is a leaf; else before a line;
// or, where the first and the last label tell that they are one block, after the last room. None where the rooms have no tree.
fn part_end(labels: &[u8], from: usize, to: usize, lowest: usize, cut: Cut) -> Option<usize>
    requires { BlockOf labels.now from to lowest }
    ensures { EndsPart result labels.now cut from to }
{
    if place(labels, from, to, lowest, cut, from) == from {
        return Some(from + 1);
    }
    if stands_before(cut, labels[from - 1], labels[to - 2]) {
        return find_line(labels, from, to, lowest, cut);
    }
    Some(to)
}

// Puts the trees of the blocks into which the lines of a cut part some rooms: a leaf, a node that is cut the other way, or several. None
// where the rooms have no such trees. They are put by index, and not to the end of a vector: a node's count stands before its children, and is
// known after them.
#[cycle(put_blocks_put_part)]
fn put_part(
    labels: &[u8],
    from: usize,
    to: usize,
    lowest: usize,
    cut: Cut,
    tree: &mut [u8],
    at: usize,
) -> Option<TreesPut>
    requires { BlockOf labels.now from to lowest × PartFits from to at (length tree.old) }
    ensures { Puts result (label_at labels.now) cut from to tree.old at tree.new }
{
    if from + 1 == to {
        tree[at] = 1;
        return Some(TreesPut {
            end: at + 1,
            number: 1,
        });
    }
    if stands_before(cut, labels[from - 1], labels[to - 2]) {
        return put_blocks(labels, from, to, lowest, cut, tree, at);
    }
    let lines = cut.opposite();
    let TreesPut { end, number } = put_blocks(labels, from, to, lowest, lines, tree, at + 2)?;
    tree[at] = lines.kind();
    tree[at + 1] = number as u8;
    Some(TreesPut { end, number: 1 })
}

// The same, part by part from the first room on. A part has fewer rooms than these, but where they are one block.
#[cycle(put_blocks_put_part)]
fn put_blocks(
    labels: &[u8],
    from: usize,
    to: usize,
    lowest: usize,
    cut: Cut,
    tree: &mut [u8],
    at: usize,
) -> Option<TreesPut>
    requires { BlockOf labels.now from to lowest × BlocksFit labels.now cut from to at (length tree.old) }
    ensures { Puts result (label_at labels.now) cut from to tree.old at tree.new }
{
    let mut start = from;
    let mut low = lowest;
    let mut next = at;
    let mut number = 0;
    // A while: the step is a part, of one room or more.
    while start < to {
        let end = part_end(labels, start, to, low, cut)?;
        let first = lowest_before(cut, end, to, low);
        let part = put_part(labels, start, end, first, cut, tree, next)?;
        next = part.end;
        number += part.number;
        low = lowest_after(cut, start, end, low);
        start = end;
    }
    Some(TreesPut { end: next, number })
}

// A cut of which a plan is one block, by its first and its last label: where the first is smaller, no horizontal line can part it.
fn whole_cut(first: u8, last: u8) -> Cut
    ensures { ¬ Before result first last }
{
    if first < last {
        return Cut::Horizontal;
    }
    Cut::Vertical
}

// Puts the tree of a plan, whose labels are given by position, from the front of a slice that has the room; none where it has no tree.
fn write_tree(labels: &[u8], tree: &mut [u8]) -> Option<TreesPut>
    requires { Plan labels.now × (763 ≤ length tree.old) }
    ensures { Writes result (label_at labels.now) (length labels.now) tree.new }
{
    let n = labels.len();
    let cut = whole_cut(labels[0], labels[n - 1]);
    put_blocks(labels, 1, n + 1, 1, cut, tree, 0)
}

// The cutting tree of a record: its bytes from the front of the tree slice, and their number; or the refusal, and the slice as it was.
pub fn tree(record: &[u8], tree: &mut [u8]) -> Result<usize, Refusal>
    ensures tree_in { TreeIn «record».now tree.old result tree.new }
    ensures few { Few result }
{
    let mut labels = [0u8; 255];
    let mut corners = Corners::NONE;
    let n = answers::read_into(record, 0, &mut labels, &mut corners)?;
    let mut put = [0u8; 763];
    let Some(written) = write_tree(&labels[..n], &mut put) else {
        return Err(Refusal::NotSlicing);
    };
    let size = written.end;
    if tree.len() < size {
        return Err(Refusal::ShortOutput);
    }
    tree[..size].copy_from_slice(&put[..size]);
    Ok(size)
}
