// The number that each call of the C interface returns for its answer.
#![tactic(auto)]

ghost use Rattle.std.specs.Prelude.{false, ◌≡◌, ◌^◌, ◌≤◌, ◌<◌};
ghost use Rattle.traces.specs.Sizes.{TraceFits};
ghost use Rattle.counting.specs.Sizes.{CountFits};
ghost use Rattle.codes.specs.Code.{refusal_code, size_code, pattern_number, pattern_code, relation_number, related_number, question_code};
ghost use Rattle.codes.specs.Code.{bad_record_code, book_error_code, next_code, add_code, placing_code, groups_code};
ghost use Rattle.codes.specs.Code.{replayed_number, refused_move_number, trace_code};
ghost use Rattle.codes.specs.Size.{SizeFits, ErrorFits, NextFits, AddFits};

use book::BookError;
use drawing::Side;
use patterns::Pattern;
use questions::Related;
use record::Refusal;
use traces::{Replayed, TraceError};

// A refusal's number, negated.
pub fn refused(refusal: Refusal) -> i32
    ensures { result ≡ refusal_code refusal }
{
    -i32::from(refusal.number())
}

// The number of an answer that is a length or a count.
pub fn size_code(answer: Result<usize, Refusal>) -> i32
    requires { SizeFits answer }
    ensures { result ≡ size_code answer }
{
    answer.map_or_else(refused, |size| size as i32)
}

// The number of a pattern: its condition, and a byte for each position.
fn pattern_number(pattern: Pattern) -> u64
    ensures is { result ≡ pattern_number pattern.condition pattern.i.0 pattern.j.0 pattern.k.0 pattern.l.0 }
    ensures below { result < 2 ^ 34 }
{
    let condition = u64::from(pattern.condition.number());
    let with_i = 256 * condition + u64::from(pattern.i.0);
    let with_j = 256 * with_i + u64::from(pattern.j.0);
    let with_k = 256 * with_j + u64::from(pattern.k.0);
    256 * with_k + u64::from(pattern.l.0)
}

// The number of an answer of Pattern, in 64 bits.
pub fn pattern_code(answer: Result<Option<Pattern>, Refusal>) -> i64
    ensures { result ≡ pattern_code answer }
{
    match answer {
        Ok(Some(pattern)) => pattern_number(pattern) as i64,
        Ok(None) => 0,
        Err(refusal) => i64::from(refused(refusal)),
    }
}

// A side's number.
fn side_number(side: Side) -> u8
    ensures { (result ≡ relation_number side false) × (result ≤ 3) }
{
    side as u8
}

// The number of a relation and a touch.
fn related_number(related: Related) -> u8
    ensures { (result ≡ related_number related.relation related.touch) × (result ≤ 15) }
{
    let relation = related.relation;
    side_number(relation.side) + 8 * u8::from(relation.direct) + 4 * u8::from(related.touch)
}

// The number of an answer of the question.
pub fn question_code(answer: Result<Related, Refusal>) -> i32
    ensures { result ≡ question_code answer }
{
    answer.map_or_else(refused, |related| i32::from(related_number(related)))
}

// The number of a bad record in a book and 256 times its ordinal, negated.
fn bad_record(refusal: Refusal, ordinal: usize) -> i32
    requires { ordinal ≤ 65535 }
    ensures { result ≡ bad_record_code refusal ordinal }
{
    -(i32::from(refusal.number()) + 256 * ordinal as i32)
}

// The number of why a call of a book is refused.
fn book_error(error: BookError) -> i32
    requires { ErrorFits error }
    ensures { result ≡ book_error_code error }
{
    match error {
        BookError::BadRecord(refusal, ordinal) => bad_record(refusal, ordinal),
        BookError::Refused(refusal) => refused(refusal),
    }
}

// The number of an answer of reading on in a book.
pub fn next_code(answer: Result<Option<usize>, BookError>) -> i32
    requires { NextFits answer }
    ensures { result ≡ next_code answer }
{
    match answer {
        Ok(next) => next.unwrap_or(0) as i32,
        Err(error) => book_error(error),
    }
}

// The number of an answer of adding to a book. As `size_code`, with the error of a book: one function over both errors would want a trait.
pub fn add_code(answer: Result<usize, BookError>) -> i32
    requires { AddFits answer }
    ensures { result ≡ add_code answer }
{
    answer.map_or_else(book_error, |used| used as i32)
}

// The number of an answer for a placing.
pub fn placing_code(answer: Result<(), Refusal>) -> i32
    ensures { result ≡ placing_code answer }
{
    answer.map_or_else(refused, |()| 0)
}

// The number of an answer for two groups.
pub fn groups_code(answer: Result<Option<Side>, Refusal>) -> i32
    ensures { result ≡ groups_code answer }
{
    match answer {
        Ok(Some(side)) => i32::from(side_number(side)),
        Ok(None) => 4,
        Err(refusal) => refused(refusal),
    }
}

// The number of an accepted trace: its moves, and the rooms and runs at the end.
fn replayed_number(end: Replayed) -> usize
    requires { (end.moves ≤ 65535) × (end.rooms ≤ 255) × (end.runs ≤ 255) }
    ensures { (result ≡ replayed_number end.moves end.rooms end.runs) × (result < 2 ^ 32) }
{
    let moves_and_rooms = 256 * end.moves + end.rooms;
    256 * moves_and_rooms + end.runs
}

// The number of a refused move of a trace, with its ordinal and the rooms and runs before it.
fn refused_move_number(refusal: Refusal, ordinal: usize, rooms: usize, runs: usize) -> usize
    requires { (ordinal ≤ 65535) × (rooms ≤ 255) × (runs ≤ 255) }
    ensures { (result ≡ refused_move_number refusal ordinal rooms runs) × (result < 2 ^ 40) }
{
    let with_rooms = 256 * ordinal + rooms;
    let with_runs = 256 * with_rooms + runs;
    256 * with_runs + usize::from(refusal.number())
}

// The number of an answer of Trace, in 64 bits.
pub fn trace_code(answer: Result<Replayed, TraceError>) -> i64
    requires { TraceFits answer }
    ensures { result ≡ trace_code answer }
{
    match answer {
        Ok(end) => replayed_number(end) as i64,
        Err(TraceError::RefusedMove(refusal, ordinal, rooms, runs)) => {
            -(refused_move_number(refusal, ordinal, rooms, runs) as i64)
        }
        Err(TraceError::Refused(refusal)) => i64::from(refused(refusal)),
    }
}

// The number of an answer of Plan count or Plan total, in 64 bits.
pub fn count_code(answer: Result<u64, Refusal>) -> i64
    requires { CountFits answer }
    ensures { result ≡ size_code answer }
{
    answer.map_or_else(
        |refusal| i64::from(refused(refusal)),
        |figure| figure as i64,
    )
}
