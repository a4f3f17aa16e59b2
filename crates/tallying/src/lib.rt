// How many plans there are, by the recurrence over what is left of a walk. A plane holds one figure for each p and q: how many ways lead
// from p runs below and q above to none, with as many rises and falls left as the plane stands for. Each figure comes from eight others:
// four of the plane with a rise less, and four of the plane with a fall less.
//
// A plane has eleven rows of ten places, for p from -1 to 9, and the figure of p and q stands at place 10 (p + 1) + 9 - q. No figure is
// needed for a p or q above 8: p runs below took p rises to come about and take p falls to end, and there are 16 of both at most; likewise
// for q. The places round the figures stay 0, so that a step whose run is missing adds nothing. Where a row ends the next one begins, and
// where a plane ends the next one does.
#![tactic(auto)]

ghost use Rattle.std.specs.Prelude.{◌≡◌, suc, ◌+◌, ◌*◌, ◌^◌, ◌≤◌, ◌<◌, length};
ghost use Rattle.finite.specs.Fill.{Filling};
ghost use Rattle.counting.specs.Ways.{plan_count, plan_total};
ghost use Rattle.finite.specs.Decide.{Tells};
ghost use Rattle.counting.specs.Answer.{NotCounted, PlanCount, PlanTotal};
ghost use Rattle.tallying.specs.Plane.{cell_of, copy_of, RowFits, PlaneFits, Swept};
ghost use Rattle.tallying.specs.Shows.{Planes};

use counting::MOST_ROOMS;
use record::Refusal;

// From one row of a plane to the next, and from one plane to the next.
const ROW: usize = 10;

const PLANE: usize = 110;

// The place of no runs in the second plane.
const NO_RUNS: usize = 129;

// The figure at a place: four from the same plane, which still holds those with a rise less, and four from the plane before it, of a fall
// less. One place on is the figure of one run above less, and ten on that of one run below more.
fn figure(planes: &[u64], at: usize) -> u64
    requires { (121 ≤ at) × (at + 11 < length planes.now) × (cell_of planes.now at < 2 ^ 64) }
    ensures { result ≡ cell_of planes.now at }
{
    let by_rise = planes[at] + planes[at + 1] + planes[at + 10] + planes[at + 11];
    let by_fall = planes[at - 110] + planes[at - 111] + planes[at - 120] + planes[at - 121];
    by_rise + by_fall
}

// Sweeps a part of a row, in place: a figure needs none that stands before it in its plane.
fn sweep_row(planes: &mut [u64], start: usize, end: usize)
    requires { RowFits start end planes.old }
    ensures { Filling (cell_of planes.old) start end planes.old planes.new }
{
    for at in start..end {
        planes[at] = figure(planes, at);
    }
}

// Sweeps so many rows and columns of a plane from a place on.
fn sweep(planes: &mut [u64], start: usize, rows: usize, columns: usize)
    requires { PlaneFits start rows columns planes.old }
    ensures { Swept start rows columns planes.old planes.new }
{
    for i in 0..rows {
        let at = start + ROW * i;
        sweep_row(planes, at, at + columns);
    }
}

// Lets the planes have one rise more, plane by plane: the plane before it has it already.
fn let_rise(planes: &mut [u64], rises_left: usize, rises: usize, falls: usize)
    requires { Planes rises falls rises_left planes.old × (rises_left ≤ rises) × (rises + falls ≤ 16) × (falls ≤ 8) }
    ensures { Planes rises falls (suc rises_left) planes.new }
{
    for falls_left in 0..falls + 1 {
        let below = falls_left.min(rises - rises_left);
        let above = rises_left.min(falls - falls_left);
        sweep(
            planes,
            PLANE * falls_left + NO_RUNS - above,
            below + 1,
            above + 1,
        );
    }
}

// The number of plans with so many rises and falls.
fn count_of(rises: usize, falls: usize) -> u64
    requires { (rises + falls ≤ 16) × (falls ≤ 8) }
    ensures { result ≡ plan_count (suc (rises + falls)) rises }
{
    let mut planes = [0u64; 1101];
    planes[NO_RUNS] = 1;
    for rises_left in 0..rises + 1 {
        let_rise(&mut planes, rises_left, rises, falls);
    }
    planes[PLANE * falls + NO_RUNS]
}

// Copies the second plane to the first.
fn copy_back(planes: &mut [u64])
    requires { length planes.old ≡ 221 }
    ensures { Filling (copy_of planes.old) 0 110 planes.old planes.new }
{
    planes.copy_within(PLANE..2 * PLANE, 0);
}

// The number of plans of n rooms. Without the rises one plane is both what a rise and what a fall goes on with.
fn total_of(n: usize) -> u64
    requires { (1 ≤ n) × (n ≤ 17) }
    ensures { result ≡ plan_total n }
{
    let mut pair = [0u64; 221];
    pair[NO_RUNS] = 1;
    copy_back(&mut pair);
    // From 1: so the compiler sees that no reach overflows, and sweeps several figures at a time.
    for k in 1..n {
        let reach = k.min(n - 1 - k);
        sweep(&mut pair, NO_RUNS - reach, reach + 1, reach + 1);
        copy_back(&mut pair);
    }
    pair[NO_RUNS]
}

// Whether the plans of n rooms are not counted.
fn not_counted(n: u8) -> bool
    ensures { Tells result (NotCounted n) }
{
    (n == 0) | (MOST_ROOMS < n)
}

// How many accepted records of n rooms have so many rises.
pub fn plan_count(n: u8, rises: u8) -> Result<u64, Refusal>
    ensures { PlanCount n rises result }
{
    if not_counted(n) {
        return Err(Refusal::NotCounted);
    }
    if n <= rises {
        return Ok(0);
    }
    let falls = n - 1 - rises;
    // As many plans have so many falls, and fewer falls take fewer planes.
    if rises < falls {
        return Ok(count_of(usize::from(falls), usize::from(rises)));
    }
    Ok(count_of(usize::from(rises), usize::from(falls)))
}

// How many accepted records of n rooms there are.
pub fn plan_total(n: u8) -> Result<u64, Refusal>
    ensures { PlanTotal n result }
{
    if not_counted(n) {
        return Err(Refusal::NotCounted);
    }
    Ok(total_of(usize::from(n)))
}
