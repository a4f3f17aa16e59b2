// Drafting traces: what a replay answers. The definitions and the theorems stand in specs/.
#![tactic(auto)]

ghost use Rattle.std.specs.Prelude.{◌≡◌};
ghost use Rattle.traces.specs.declared.TraceError.TheVariants.{Refused};

use record::Refusal;

// What a replay answers of an accepted trace: the count of its moves, and the final rooms and runs.
#[derive(Clone, Copy)]
pub struct Replayed {
    pub moves: usize,
    pub rooms: usize,
    pub runs: usize,
}

// Why a trace is refused: of a refused move why, its ordinal, and the rooms and runs before it; or why the trace as a whole.
#[derive(Clone, Copy)]
pub enum TraceError {
    RefusedMove(Refusal, usize, usize, usize),
    Refused(Refusal),
}

impl From<Refusal> for TraceError {
    ghost from_gives = { λ refusal error. error ≡ Refused refusal };

    fn from(refusal: Refusal) -> TraceError {
        TraceError::Refused(refusal)
    }
}
