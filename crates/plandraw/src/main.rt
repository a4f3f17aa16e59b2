// Draws the plan of one record: reads it from standard input and prints its grid drawing as SVG, or why it is refused.
// The whole text is put into one array and then written at once: `put_picture` states that it is the picture, byte for byte.
#![tactic(auto)]

ghost use Rattle.std.specs.Prelude.{◌≡◌, ◌≤◌, length, take};
ghost use Rattle.io.specs.Counts.{IsPrefixLen};
ghost use Rattle.shapes.specs.Picture.{picture_of};

use std::io::{self, Write};
use text::Plan;

// As many bytes as planlist reads.
const INPUT: usize = 98;

// Places for the head, 255 rooms of at most 154 bytes and 254 segments of at most 62.
const TEXT: usize = 56000;

// Puts the whole text for a record from the front: the picture of its plan, or why it is refused.
fn put_picture(record: &[u8], text: &mut [u8]) -> usize
    requires { 56000 ≤ length text.old }
    ensures { (take result text.new ≡ picture_of «record».now) × IsPrefixLen result text.new }
{
    match Plan::read(record) {
        Ok(plan) => {
            let n = usize::from(plan.n);
            let corners = &plan.corners;
            picture::put_plan(
                text,
                n,
                &plan.labels,
                &corners.left,
                &corners.bottom,
                &corners.right,
                &corners.top,
            )
        }
        Err(refusal) => text::put_refusal(text, refusal),
    }
}

fn main(rt: HostRuntime) -> io::Result<()> {
    let mut bytes = [0u8; INPUT];
    let size = input::read_front(&mut rt.stdin(), &mut bytes)?;
    let mut text = [0u8; TEXT];
    let end = put_picture(&bytes[..size], &mut text);
    rt.stdout().write_all(&text[..end])
}
