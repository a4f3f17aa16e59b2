// The replay of a drafting trace: the rooms and runs after each move, or the refusal 21, 28, 1, 29, 12, 13 or 15, in the order of the
// request. A trace is gone through twice: it is judged whole, and then the states of one that is accepted are written.
#![tactic(auto)]

ghost use Rattle.std.specs.Prelude.{◌≡◌, ◌+◌, ◌≤◌, ◌<◌, length, slice_get};
ghost use Rattle.record.specs.TripleNumber.{triple_of};
ghost use Rattle.traces.specs.Move.{moves_of};
ghost use Rattle.traces.specs.Replay.{replay};
ghost use Rattle.traces.specs.Row.{NoneRefused};
ghost use Rattle.traces.specs.Answer.{Traced};
ghost use Rattle.replaying.specs.Packed.{row_of, CountsRuns, gain_of};
ghost use Rattle.replaying.specs.Turn.{Fits, AddTurn, BackTurn, MoveTurn};
ghost use Rattle.replaying.specs.Passes.{judged_of, filled_by};

use record::Refusal;
use traces::{Replayed, TraceError};

// How many runs lie below the current one and how many above it stand in one number: below + 1 in the low 8 bits and above + 1 over them.
// So a count of one less than none is 0 there, and tells that the run which was to be joined is missing.
const ONE_RUN: usize = 257;

// What a triple adds to this number, and 256 more. Every row is a number, and the row that is never asked for is not the last triple's: so
// the compiler makes a table of them and no jump, which could not be foreseen.
fn row(triple: u8) -> usize
    requires { triple < 8 }
    ensures { (result ≡ row_of (triple_of triple)) × (result ≤ 512) }
{
    match triple {
        0 => 257,
        1 => 512,
        2 => 256,
        3 => 511,
        4 => 1,
        5 => 256,
        6 => 0,
        7 => 255,
        _ => 256,
    }
}

// The triple of the move at a place, if it has its body.
fn triple_at(trace: &[u8], at: usize) -> Option<u8>
    requires { at < length trace.now }
    ensures { result ≡ slice_get trace.now (at + 1) }
{
    trace.get(at + 1).copied()
}

// A plan as it is drafted: its rooms, and the counts of its runs. That the counts fit 16 bits is no ghost field: it follows from the state
// that they stand for, which the contracts name.
#[derive(Clone, Copy)]
struct Plan {
    rooms: usize,
    counts: usize,
}

// What a move makes of a plan: one with a room more, or one that it goes back to.
#[derive(Clone, Copy)]
enum Turn {
    Added(Plan),
    Back(Plan),
}

impl Plan {
    // The number of runs, the current one among them.
    fn runs(self) -> usize
        requires { Fits self }
        ensures { CountsRuns self.counts result }
    {
        self.counts / 256 + self.counts % 256 - 1
    }

    // A room is added.
    fn added(self, triple: u8) -> Result<Plan, Refusal>
        requires { (triple < 8) × Fits self }
        ensures { AddTurn (triple_of triple) self result }
    {
        if self.rooms == 255 {
            return Err(Refusal::Count);
        }
        let counts = self.counts + row(triple) - 256;
        if counts % 256 == 0 {
            return Err(Refusal::MissingRun);
        }
        if counts < 256 {
            return Err(Refusal::MissingRun);
        }
        Ok(Plan {
            rooms: self.rooms + 1,
            counts,
        })
    }

    // A room is taken away, with kind 2, or one run is claimed, with kind 3. Either goes back to counts that were kept, with kind 3 to
    // those of the plan as it is: so there is no jump between the two, which could not be foreseen.
    fn back(self, kind: u8, kept: &[u16; 256]) -> Result<Plan, Refusal>
        requires { (2 ≤ kind) × (kind ≤ 3) × Fits self }
        ensures { BackTurn kind self kept.now result }
    {
        let rooms = self.rooms + usize::from(kind) - 3;
        if rooms == 0 {
            return Err(Refusal::OnlyRoom);
        }
        let counts = usize::from(kept[rooms]);
        if kind == 3 {
            if counts != ONE_RUN {
                return Err(Refusal::SeveralRuns);
            }
        }
        Ok(Plan { rooms, counts })
    }

    // The move at a place.
    fn made(self, trace: &[u8], at: usize, kept: &[u16; 256]) -> Result<Turn, Refusal>
        requires within { (at < length trace.now) × (length trace.now ≤ 65535) }
        requires fits { Fits self }
        ensures { MoveTurn trace.now at self kept.now result }
    {
        match trace[at] {
            1 => {
                let Some(triple) = triple_at(trace, at) else {
                    return Err(Refusal::BadMove);
                };
                if 7 < triple {
                    return Err(Refusal::BadMove);
                }
                Ok(Turn::Added(self.added(triple)?))
            }
            kind @ 2..=3 => Ok(Turn::Back(self.back(kind, kept)?)),
            _ => Err(Refusal::BadMove),
        }
    }
}

// The first pass: the rooms and runs after so many moves; or why a move is refused, its ordinal, and the rooms and runs before it. The
// counts of runs are kept by the number of rooms, at first those of one room alone.
fn judge(trace: &[u8]) -> Result<Replayed, TraceError>
    requires { length trace.now ≤ 65535 }
    ensures { result ≡ judged_of (replay (moves_of trace.now)) }
{
    let mut kept = [257u16; 256];
    let mut at = 0;
    let mut moves = 0;
    let mut plan = Plan {
        rooms: 1,
        counts: ONE_RUN,
    };
    // A while: a move is one or two bytes.
    while at < trace.len() {
        let turn = match plan.made(trace, at, &kept) {
            Ok(turn) => turn,
            Err(refusal) => {
                let ordinal = moves + 1;
                return Err(TraceError::RefusedMove(refusal, ordinal, plan.rooms, plan.runs()));
            }
        };
        match turn {
            Turn::Added(next) => {
                kept[next.rooms] = next.counts as u16;
                plan = next;
                at += 2;
            }
            Turn::Back(next) => {
                plan = next;
                at += 1;
            }
        }
        moves += 1;
    }
    Ok(Replayed {
        moves,
        rooms: plan.rooms,
        runs: plan.runs(),
    })
}

// What a triple adds to an entry. A table beside `row`, since its numbers are others: each is a match on the triple's number.
fn gain(triple: u8) -> usize
    requires { triple < 8 }
    ensures { (result ≡ gain_of (triple_of triple)) × (result ≤ 257) }
{
    match triple {
        0 => 257,
        1 => 257,
        2 => 256,
        3 => 256,
        4 => 256,
        5 => 256,
        6 => 255,
        7 => 255,
        _ => 256,
    }
}

// The second pass, over a trace that is accepted. Nothing but the entries themselves has to be kept by the number of rooms, at first that
// of one room and one run.
fn write(trace: &[u8], states: &mut [u16])
    requires { (length trace.now ≤ 65535) × NoneRefused (moves_of trace.now) × (length (moves_of trace.now) ≤ length states.old) }
    ensures { states.new ≡ filled_by trace.now states.old }
{
    let mut kept = [257u16; 256];
    let mut at = 0;
    let mut moves = 0;
    let mut rooms = 1;
    let mut entry = 257;
    // A while: a move is one or two bytes.
    while at < trace.len() {
        let kind = trace[at];
        if kind == 1 {
            entry += gain(trace[at + 1]);
            rooms += 1;
            kept[rooms] = entry as u16;
            at += 2;
        } else {
            // The kind is a number here: one sum for 2 and 3, and no jump.
            rooms = rooms + usize::from(kind) - 3;
            entry = usize::from(kept[rooms]);
            at += 1;
        }
        states[moves] = entry as u16;
        moves += 1;
    }
}

// The replay of a trace: the rooms and runs after each move, from the front of the slice, and at the end; or the refusal, and the slice as
// it was.
pub fn trace(trace: &[u8], states: &mut [u16]) -> Result<Replayed, TraceError>
    ensures { Traced trace.now states.old result states.new }
{
    if 65535 < trace.len() {
        return Err(TraceError::from(Refusal::TooLong));
    }
    let replayed = judge(trace)?;
    if states.len() < replayed.moves {
        return Err(TraceError::from(Refusal::ShortOutput));
    }
    write(trace, states);
    Ok(replayed)
}
