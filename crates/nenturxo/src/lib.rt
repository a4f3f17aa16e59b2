// The C interface: the public calls as exported functions, and nothing else. A slice is a pointer and its length. What a call does is
// proved of the function that it calls, and which number its answer is, in the crate `codes`.
#![tactic(auto)]

ghost use Rattle.std.specs.Prelude.{◌≡◌};
ghost use Rattle.record.specs.Answer.{LabelsIn};
ghost use Rattle.patterns.specs.Answer.{pattern_answer};
ghost use Rattle.labeltext.specs.Answer.{Tidied};
ghost use Rattle.answers.specs.Answer.{slices, RecordIn};
ghost use Rattle.slicing.specs.Answer.{TreeIn};
ghost use Rattle.questions.specs.Answer.{question_answer};
ghost use Rattle.groups.specs.Answer.{groups_answer};
ghost use Rattle.sizes.specs.Lists.{each_way};
ghost use Rattle.sizes.specs.Answer.{LowestCorners, SlackIn, placing_answer};
ghost use Rattle.book.specs.Summary.{held};
ghost use Rattle.book.specs.Answer.{next_answer, BookAdd};
ghost use Rattle.traces.specs.Answer.{Traced};
ghost use Rattle.counting.specs.Answer.{PlanCount, PlanTotal};
ghost use Rattle.entering.specs.Answer.{slices as room_slices, RoomsIn};
ghost use Rattle.codes.specs.Code.{Coded, size_code, pattern_code, question_code, next_code, add_code, slack_code, placing_code};
ghost use Rattle.codes.specs.Code.{groups_code, trace_code};

use drawing::Room;

// Rooms in: the record's length, the record, the label and the position of each room in list order and the names by position from the
// front of the slices, or the refusal's number negated, and nothing written.
#[unsafe(no_mangle)]
pub extern "C" fn nenturxo_rooms_in(
    rooms: &[Room],
    record: &mut [u8],
    labels: &mut [u8],
    positions: &mut [u8],
    names: &mut [u16],
) -> i32
    ensures { Coded size_code result (λ answer. RoomsIn rooms.now
        (room_slices «record».old labels.old positions.old names.old) answer
        (room_slices «record».new labels.new positions.new names.new)) }
{
    let answer = plans::rooms_in(rooms, record, labels, positions, names);
    codes::size_code(answer)
}

// Labels in: the record's length, written from the front of `record`, or the refusal's number negated, and nothing written.
#[unsafe(no_mangle)]
pub extern "C" fn nenturxo_labels_in(labels: &[u8], record: &mut [u8]) -> i32
    ensures { Coded size_code result
        (λ answer. LabelsIn labels.now «record».old answer «record».new) }
{
    let answer = labels::labels_in(labels, record);
    codes::size_code(answer)
}

// Pattern: the number of the first barred pattern, 0 where there is none, or the refusal's number negated.
#[unsafe(no_mangle)]
pub extern "C" fn nenturxo_pattern(labels: &[u8]) -> i64
    ensures { result ≡ pattern_code (pattern_answer labels.now) }
{
    let answer = searching::pattern(labels);
    codes::pattern_code(answer)
}

// Tidy: the length of the tidy text, written from the front of `tidy`, or the refusal's number negated, and nothing written.
#[unsafe(no_mangle)]
pub extern "C" fn nenturxo_tidy(text: &[u8], tidy: &mut [u8]) -> i32
    ensures { Coded size_code result
        (λ answer. Tidied text.now tidy.old answer tidy.new) }
{
    let answer = tidy::tidy(text, tidy);
    codes::size_code(answer)
}

// Record in: the number of rooms, their labels and the rooms by position from the front of the slices, or the refusal's number negated,
// and nothing written.
#[unsafe(no_mangle)]
pub extern "C" fn nenturxo_record_in(record: &[u8], labels: &mut [u8], rooms: &mut [Room]) -> i32
    ensures { Coded size_code result (λ answer. RecordIn «record».now
        (slices labels.old rooms.old) answer (slices labels.new rooms.new)) }
{
    let answer = drawn::record_in(record, labels, rooms);
    codes::size_code(answer)
}

// Tree: the length of the cutting tree of a slicing plan, written from the front of `tree`, or the refusal's number negated, and nothing
// written.
#[unsafe(no_mangle)]
pub extern "C" fn nenturxo_tree(record: &[u8], tree: &mut [u8]) -> i32
    ensures { Coded size_code result
        (λ answer. TreeIn «record».now tree.old answer tree.new) }
{
    let answer = trees::tree(record, tree);
    codes::size_code(answer)
}

// The question: the side's number, 4 more where the two touch, 8 more where their relation is direct, or the refusal's number negated.
#[unsafe(no_mangle)]
pub extern "C" fn nenturxo_question(record: &[u8], first: u8, second: u8) -> i32
    ensures { result ≡ question_code (question_answer «record».now first second) }
{
    let answer = questions::question(record, first, second);
    codes::question_code(answer)
}

// Reading on in a book: the length of the record that begins at the place, whose bytes are the caller's own; 0 at the end; a bad record's
// number and 256 times its ordinal, negated; or another refusal's number negated.
#[unsafe(no_mangle)]
pub extern "C" fn nenturxo_book_next(book: &[u8], used: usize, place: usize) -> i32
    ensures { result ≡ next_code (next_answer book.now used place) }
{
    let answer = bookkeeping::next_answer(book, used, place);
    codes::next_code(answer)
}

// Adding to a book: the new used length, with the record written behind the used part and its totals added to the four; a bad record's
// number and 256 times its ordinal, negated; or another refusal's number negated, and nothing written.
#[unsafe(no_mangle)]
pub extern "C" fn nenturxo_book_add(
    book: &mut [u8],
    used: usize,
    record: &[u8],
    plans: &mut u32,
    rooms: &mut u32,
    rises: &mut u32,
    falls: &mut u32,
) -> i32
    ensures { Coded add_code result (λ answer. BookAdd book.old used «record».now
        (held plans.old rooms.old rises.old falls.old) answer
        book.new (held plans.new rooms.new rises.new falls.new)) }
{
    let answer = bookkeeping::add_record(book, used, record, plans, rooms, rises, falls);
    codes::add_code(answer)
}

// Lowest corners: the number of rooms, with their corners by position from the front of the slices, or the refusal's number negated, and
// nothing written.
#[unsafe(no_mangle)]
pub extern "C" fn nenturxo_lowest_corners(
    record: &[u8],
    widths: &[u16],
    heights: &[u16],
    x: &mut [u32],
    y: &mut [u32],
) -> i32
    ensures { Coded size_code result (λ answer. LowestCorners «record».now
        (each_way widths.now heights.now) (each_way x.old y.old) answer
        (each_way x.new y.new)) }
{
    let answer = packing::lowest_corners(record, widths, heights, x, y);
    codes::size_code(answer)
}

// Slack: 0, with the slack across and upward in two numbers, or the refusal's number negated, and nothing written.
#[unsafe(no_mangle)]
pub extern "C" fn nenturxo_slack(
    record: &[u8],
    widths: &[u16],
    heights: &[u16],
    outline_width: u32,
    outline_height: u32,
    across: &mut i64,
    up: &mut i64,
) -> i32
    ensures { Coded slack_code result (λ answer. SlackIn «record».now
        (each_way widths.now heights.now) (each_way outline_width outline_height)
        (each_way across.old up.old) answer (each_way across.new up.new)) }
{
    match packing::slack(record, widths, heights, outline_width, outline_height) {
        Ok(slack) => {
            *across = slack.across;
            *up = slack.up;
            0
        }
        Err(refusal) => codes::refused(refusal),
    }
}

// Placing in: 0 for a placing that honours all relations, or the refusal's number negated.
#[unsafe(no_mangle)]
pub extern "C" fn nenturxo_placing_in(
    record: &[u8],
    widths: &[u16],
    heights: &[u16],
    x: &[u32],
    y: &[u32],
) -> i32
    ensures { result ≡ placing_code (placing_answer «record».now (each_way widths.now heights.now)
        (each_way x.now y.now)) }
{
    let answer = packing::placing_in(record, widths, heights, x, y);
    codes::placing_code(answer)
}

// Groups: the number of the side on which every room of the first group stands of every room of the second, 4 for mixed, or the refusal's
// number negated.
#[unsafe(no_mangle)]
pub extern "C" fn nenturxo_groups(record: &[u8], first: &[u8; 32], second: &[u8; 32]) -> i32
    ensures { result ≡ groups_code (groups_answer «record».now first.now second.now) }
{
    let answer = grouping::groups(record, first, second);
    codes::groups_code(answer)
}

// Trace: the count of the moves and the final rooms and runs in one number, with the rooms and runs after each move from the front of
// `states`; of a refused move its number, its ordinal and the rooms and runs before it in one number, negated; or another refusal's number
// negated; and on any refusal nothing written.
#[unsafe(no_mangle)]
pub extern "C" fn nenturxo_trace(trace: &[u8], states: &mut [u16]) -> i64
    ensures { Coded trace_code result
        (λ answer. Traced trace.now states.old answer states.new) }
{
    let answer = replaying::trace(trace, states);
    codes::trace_code(answer)
}

// Plan count: how many accepted records of n rooms have so many rises, or the refusal's number negated.
#[unsafe(no_mangle)]
pub extern "C" fn nenturxo_plan_count(n: u8, rises: u8) -> i64
    ensures { Coded size_code result (PlanCount n rises) }
{
    let answer = tallying::plan_count(n, rises);
    codes::count_code(answer)
}

// Plan total: how many accepted records of n rooms there are, or the refusal's number negated.
#[unsafe(no_mangle)]
pub extern "C" fn nenturxo_plan_total(n: u8) -> i64
    ensures { Coded size_code result (PlanTotal n) }
{
    let answer = tallying::plan_total(n);
    codes::count_code(answer)
}
