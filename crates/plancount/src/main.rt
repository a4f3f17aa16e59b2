// Prints how many plans there are: for 1 to 17 rooms, how many accepted records have 0, 1, 2 .. rises.
// The whole text is made and then written at once: `put_text` states that it is the request's, byte for byte.
#![tactic(auto)]

ghost use Rattle.std.specs.Prelude.{◌≡◌, ◌++◌, ◌+◌, ◌≤◌, ◌<◌};
ghost use Rattle.arrayvec.specs.ArrayVec.{array_vec_len};
ghost use Rattle.counting.specs.Ways.{plan_count};
ghost use Rattle.plancount.specs.Text.{line_of, Printed};

use std::io::{self, Write};
use text::Text;

// Places for 17 times 17 lines, each of two numbers of at most five digits and one of at most twenty, and a byte after each.
const TEXT: usize = 9537;

// The figure of a pair, which is one that is counted.
fn figure(n: u8, rises: u8) -> u64
    requires { (n ≤ 17) × (rises < n) }
    ensures { result ≡ plan_count n rises }
{
    tallying::plan_count(n, rises).unwrap()
}

// Puts the line of a pair.
#[tactic(auto, using(crate::proofs::Lines::line_form))]
fn put_line(text: &mut Text<TEXT>, n: u8, rises: u8)
    requires pair { (n ≤ 17) × (rises < n) }
    requires fits { array_vec_len text.old + 33 ≤ TEXT }
    ensures items { text.new.items ≡ text.old.items ++ line_of n rises (plan_count n rises) }
    ensures len { array_vec_len text.new ≤ array_vec_len text.old + 33 }
{
    text::append_form(text, b"% % ", &[u16::from(n), u16::from(rises)]);
    text::append_last(text, figure(n, rises));
}

// The whole text.
#[tactic(auto, using(crate::proofs::Lines::in_turn))]
fn put_text() -> Text<TEXT>
    ensures { Printed result.items }
{
    let mut text = Text::new();
    for n in 1..=counting::MOST_ROOMS {
        for rises in 0..n {
            put_line(&mut text, n, rises);
        }
    }
    text
}

fn main(rt: HostRuntime) -> io::Result<()> {
    let text = put_text();
    rt.stdout().write_all(text.as_slice())
}
