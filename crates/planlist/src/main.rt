// Lists the rooms of one record: reads it from standard input and prints its rooms by position, or why it is refused.
// The whole text is put into one array and then written at once: `put_text` states that it is the sheet's, byte for byte.
#![tactic(auto)]

ghost use Rattle.std.specs.Prelude.{◌≡◌, ◌≤◌, length, take};
ghost use Rattle.io.specs.Counts.{IsPrefixLen};
ghost use Rattle.listing.specs.Text.{text_of};

use std::io::{self, Write};
use text::Plan;

// "at most 98 bytes": one more than the longest record has, so that a longer input is refused for its first 98 bytes already.
const INPUT: usize = 98;

// Places for a header and 255 lines of six numbers, each of at most five digits and one byte more.
const TEXT: usize = 9200;

// Puts the whole text for a record from the front: the listing of its plan, or why it is refused. There are places for any record.
// plandraw has the same lines over pictures: one function for both, over a closure, would be no shorter, and each of the two states its
// own text. Into a store, since a listing of 255 rooms made as a `Text` took 1.7 times as long (DESIGN-PASS.md has the figures).
fn put_text(record: &[u8], text: &mut [u8]) -> usize
    requires { 9200 ≤ length text.old }
    ensures { (take result text.new ≡ text_of «record».now) × IsPrefixLen result text.new }
{
    match Plan::read(record) {
        Ok(plan) => {
            let n = usize::from(plan.n);
            let corners = &plan.corners;
            listing::put_listing(
                text,
                n,
                &plan.labels,
                &corners.left,
                &corners.bottom,
                &corners.right,
                &corners.top,
            )
        }
        Err(refusal) => text::put_refusal(text, refusal),
    }
}

fn main(rt: HostRuntime) -> io::Result<()> {
    let mut bytes = [0u8; INPUT];
    let size = input::read_front(&mut rt.stdin(), &mut bytes)?;
    let mut text = [0u8; TEXT];
    let end = put_text(&bytes[..size], &mut text);
    rt.stdout().write_all(&text[..end])
}
