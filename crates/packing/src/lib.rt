// Rooms of real sizes: the lowest corners of a record's rooms, the slack of an outline, and whether a placing honours all relations.
#![tactic(auto)]

ghost use Rattle.std.specs.Prelude.{◌≡◌, ◌<◌, pos, ◌-ℤ◌, length};
ghost use Rattle.finite.specs.Decide.{Tells};
ghost use Rattle.sizes.specs.Lists.{each_way};
ghost use Rattle.sizes.specs.Sized.{OtherLength, ZeroSize};
ghost use Rattle.sizes.specs.Answer.{LowestCorners, Few, slack_answer, placing_answer};
ghost use Rattle.packing.specs.Admitted.{Admits};

use record::Refusal;
use sizes::Slack;

// ---- what is refused

// Whether one of two lists has another length than n.
fn other_length(n: usize, one: usize, other: usize) -> bool
    ensures { Tells result (OtherLength n (each_way one other)) }
{
    (one != n) | (other != n)
}

// Whether some width or height is 0: the smallest one is.
fn zero_size(widths: &[u16], heights: &[u16]) -> bool
    requires { (0 < length widths.now) × (0 < length heights.now) }
    ensures { Tells result (ZeroSize (each_way widths.now heights.now)) }
{
    let width = rooms::lowest(widths);
    let height = rooms::lowest(heights);
    (width == 0) | (height == 0)
}

// What the three calls refuse alike, in their order: the record, lists of sizes or corners with another length than it has rooms, and a
// size of 0. Else how many rooms there are.
fn admit(
    record: &[u8],
    widths: &[u16],
    heights: &[u16],
    x_length: usize,
    y_length: usize,
) -> Result<usize, Refusal>
    ensures { Admits result «record».now (each_way widths.now heights.now)
        (each_way x_length y_length) }
{
    let n = judging::judge(record)?.rooms;
    if other_length(n, widths.len(), heights.len()) {
        return Err(Refusal::OtherLength);
    }
    if other_length(n, x_length, y_length) {
        return Err(Refusal::OtherLength);
    }
    if zero_size(widths, heights) {
        return Err(Refusal::ZeroSize);
    }
    Ok(n)
}

// ---- the three calls
// Widths, heights, x and y are lent by C one by one, and go on so.

// The lowest corners of the rooms by position, from the front of two slices; or the refusal, and the slices as they were.
pub fn lowest_corners(
    record: &[u8],
    widths: &[u16],
    heights: &[u16],
    x: &mut [u32],
    y: &mut [u32],
) -> Result<usize, Refusal>
    ensures lowest_corners { LowestCorners «record».now (each_way widths.now heights.now)
        (each_way x.old y.old) result (each_way x.new y.new) }
    ensures few { Few result }
{
    let n = admit(record, widths, heights, widths.len(), heights.len())?;
    if x.len() < n {
        return Err(Refusal::ShortOutput);
    }
    if y.len() < n {
        return Err(Refusal::ShortOutput);
    }
    placing::lowest(&record[1..], widths, heights, x, y);
    Ok(n)
}

// An outline less the needed length.
fn less(outline: u32, needed: u32) -> i64
    ensures { result ≡ pos outline -ℤ pos needed }
{
    i64::from(outline) - i64::from(needed)
}

// The slack each way of an outline, which may be negative; or the refusal.
pub fn slack(
    record: &[u8],
    widths: &[u16],
    heights: &[u16],
    outline_width: u32,
    outline_height: u32,
) -> Result<Slack, Refusal>
    ensures { result ≡ slack_answer «record».now (each_way widths.now heights.now)
        (each_way outline_width outline_height) }
{
    admit(record, widths, heights, widths.len(), heights.len())?;
    let mut x = [0u32; 255];
    let mut y = [0u32; 255];
    let needed = placing::lowest(&record[1..], widths, heights, &mut x, &mut y);
    Ok(Slack {
        across: less(outline_width, needed.across),
        up: less(outline_height, needed.up),
    })
}

// Whether a placing, the lower-left corners of the rooms by position, honours all left and below relations; or the refusal.
pub fn placing_in(
    record: &[u8],
    widths: &[u16],
    heights: &[u16],
    x: &[u32],
    y: &[u32],
) -> Result<(), Refusal>
    ensures { result ≡ placing_answer «record».now (each_way widths.now heights.now)
        (each_way x.now y.now) }
{
    admit(record, widths, heights, x.len(), y.len())?;
    if !holding::keeps(&record[1..], widths, heights, x, y) {
        return Err(Refusal::BrokenRelation);
    }
    Ok(())
}
