// N in one row of cells, a cell for each sum: the row of one part more is written over it from its highest sum down, by a window that slides along
// it.
ghost use Rattle.std.specs.Prelude.{◌≡◌, true, false, ℕ, ◌+◌, ◌-◌, ◌≤◌, ◌<◌, IfOk, MatchOption, min, length};
ghost use Rattle.walsh.specs.Order.{count, count_of};
ghost use Rattle.bounds.specs.Edition.{edition_checks};
ghost use Rattle.bounds.specs.Refusal.{first_refusal};
ghost use Rattle.bounds.specs.Reason.{told};
ghost use Rattle.band.specs.Band.{InBand, cap};
ghost use Rattle.band.specs.Window.{Slid};
ghost use Rattle.count.specs.Row.{Passing, RowCounts, Within, Passed, Enters, Leaves, Stretch, IsStretches};

use crate::Shape;
use bounds::{LIMIT, Reason};

// The lowest and the highest sum of a row from which the total can still be reached.
#[derive(Clone, Copy)]
struct Ends {
    low: usize,
    high: usize,
}

// The sums of the row after from `t` on are written, and `window` is the number for the sum before.
#[derive(Clone, Copy)]
struct At {
    t: usize,
    window: u64,
}

// Part `k`, counted from 0, with its bound, and the sums of the rows before and after it.
#[derive(Clone, Copy)]
struct Part<'a> {
    upper: &'a [u8],
    total: usize,
    k: usize,
    m: usize,
    row: Ends,
    next: Ends,
    ghost passing: { Passing upper.now total k m row next },
}

// (Band's `row_of` has these two too, with a place in its table; both are private.)
fn ends_of(total: usize, left: usize, all: usize) -> Ends
    requires { left ≤ all }
    ensures { (result.low ≡ total - (all - left)) × (result.high ≡ min total left) }
{
    Ends {
        low: total.saturating_sub(all - left),
        high: total.min(left),
    }
}

// The number for the sum `t` of the row before.
fn cell(part: Part, cells: &[u64; 256], t: usize) -> u64
    requires { InBand part.upper.now part.total part.k t
        × RowCounts part.upper.now part.total cells.now part.k 0 (t + 1) }
    ensures { (result ≡ count part.entry.upper.now part.entry.k t) × (result < cap) }
{
    cells[t]
}

// The window for the highest sum of the row after, or none where a number is over the limit. It is looked at only where `careful` is true: elsewhere
// every number of the row is known to be within the limit.
// (A parameter of `top`, `fall` and `pass`: tried as a field of `Part` with a ghost field for that, N of 24 bounds took 2 % more instructions and 8 to
// 18 % longer.)
fn top(part: Part, cells: &[u64; 256], careful: bool) -> Option<u64>
    requires { RowCounts part.upper.now part.total cells.now part.k 0 256
        × (careful ≡ false → Within part.upper.now part.total (part.k + 1)) }
    ensures { MatchOption result (cap ≤ count part.entry.upper.now (length part.entry.upper.now) part.entry.total)
        (λ w. Slid part.entry.upper.now part.entry.total part.entry.k (part.entry.next.high + 1) w × (w < cap)) }
{
    let row = part.row;
    let first = row.low.max(part.next.high.saturating_sub(part.m));
    let mut w: u64 = 0;
    for t in first..row.high + 1 {
        w += cell(part, cells, t);
        if careful && LIMIT < w {
            return None;
        }
    }
    Some(w)
}

// The cell that leaves the window as it moves from the sum `t` to the sum before, or 0. (What is asked for is said of a sum in a loop and of the cells that
// it writes, not of the part.)
fn leaving(part: Part, cells: &[u64; 256], t: usize, leaves: bool) -> u64
    requires { (part.next.low ≤ t) × (t ≤ part.next.high)
        × RowCounts part.upper.now part.total cells.now part.k 0 (t + 1) × Leaves part.row t leaves }
    ensures { result ≡ count part.entry.upper.now part.entry.k t }
{
    if leaves { cell(part, cells, t) } else { 0 }
}

// The cell that enters it, or 0. (As `leaving`.)
fn entering(part: Part, cells: &[u64; 256], t: usize, enters: bool) -> u64
    requires { (part.next.low ≤ t) × (t ≤ part.next.high)
        × RowCounts part.upper.now part.total cells.now part.k 0 (t + 1) × Enters part.row part.m t enters }
    ensures { (result < cap) × (enters ≡ true → result ≡ count part.entry.upper.now part.entry.k (t - (part.entry.m + 1)))
        × (enters ≡ false → result ≡ 0) }
{
    if enters {
        cell(part, cells, t - (part.m + 1))
    } else {
        0
    }
}

// Writes the row after from the sum before `at` down to `end`, or stops at a number over the limit. (Flags and no closures: of the middle stretch only the
// row's numbers say which.)
fn fall(
    part: Part,
    cells: &mut [u64; 256],
    at: At,
    end: usize,
    enters: bool,
    leaves: bool,
    careful: bool,
) -> Option<At>
    requires { Stretch part.row part.next part.m at.t end enters leaves
        × Passed part.upper.now part.total part.k at.t at.window cells.old
        × (careful ≡ false → Within part.upper.now part.total (part.k + 1)) }
    ensures { MatchOption result (cap ≤ count part.entry.upper.now (length part.entry.upper.now) part.entry.total)
        (λ to. (to.t ≡ min at.t end) × Passed part.entry.upper.now part.entry.total part.entry.k to.t to.window cells.new) }
{
    let mut w = at.window;
    for t in (end..at.t).rev() {
        let x = leaving(part, cells, t, leaves);
        let y = entering(part, cells, t, enters);
        cells[t] = w;
        w = band::window::moved(w, x, y);
        if careful && LIMIT < w {
            return None;
        }
    }
    Some(At {
        t: at.t.min(end),
        window: w,
    })
}

// The row after in three, from `from` down: to `first` cells only enter the window, to `second` they enter and leave it (`both`) or neither, then
// they only leave it.
#[derive(Clone, Copy)]
struct Stretches {
    from: usize,
    first: usize,
    second: usize,
    both: bool,
}

fn stretches_of(part: Part) -> Stretches
    ensures { IsStretches part.entry.row part.entry.next part.entry.m result }
{
    let row = part.row;
    let next = part.next;
    let full = row.low + part.m;
    let least = row.high.min(full);
    Stretches {
        from: next.high + 1,
        first: row.high + full - least + 1,
        second: next.low + (least + 1).saturating_sub(next.low),
        both: full < row.high,
    }
}

// The row of one part more over the row before, or none where a number is over the limit.
fn pass(part: Part, cells: &mut [u64; 256], careful: bool) -> Option<()>
    requires { RowCounts part.upper.now part.total cells.old part.k 0 256
        × (careful ≡ false → Within part.upper.now part.total (part.k + 1)) }
    ensures { MatchOption result (cap ≤ count part.entry.upper.now (length part.entry.upper.now) part.entry.total)
        (λ _. (length cells.new ≡ 256) × RowCounts part.entry.upper.now part.entry.total cells.new (part.entry.k + 1) 0 256) }
{
    let window = top(part, cells, careful)?;
    let s = stretches_of(part);
    let start = At { t: s.from, window };
    let grown = fall(part, cells, start, s.first, true, false, careful)?;
    let both = s.both;
    let slid = fall(part, cells, grown, s.second, both, both, careful)?;
    let low = part.next.low;
    fall(part, cells, slid, low, false, true, careful)?;
    Some(())
}

// The number of compositions, or none where it is over the limit. Numbers are looked at only from the first row on that `few_parts` does not bound.
#[tactic(auto, using(crate::proofs::Answers::shape_facts))]
fn rows(shape: Shape, few: usize, cells: &mut [u64; 256]) -> Option<u64>
    requires { (k : ℕ) → k ≤ few → Within shape.upper.now shape.total k }
    ensures { MatchOption result (cap ≤ count shape.entry.upper.now (length shape.entry.upper.now) shape.entry.total)
        (λ n. (n ≡ count shape.entry.upper.now (length shape.entry.upper.now) shape.entry.total) × (n < cap)) }
{
    let upper = shape.upper;
    let total = shape.total as usize;
    let all = shape.all;
    let mut left = 0;
    let mut row = ends_of(total, 0, all);
    cells[0] = 1;
    for (k, bound) in upper.iter().enumerate() {
        let m = usize::from(*bound);
        left += m;
        let next = ends_of(total, left, all);
        let part = Part {
            upper,
            total,
            k,
            m,
            row,
            next,
        };
        pass(part, cells, few <= k)?;
        row = next;
    }
    Some(cells[total])
}

// N of a shape, where the numbers of the first `few` rows are within the limit.
pub(crate) fn count_row(shape: Shape, few: usize) -> Result<u64, Reason>
    requires { (k : ℕ) → k ≤ few → Within shape.upper.now shape.total k }
    ensures refusal { told result ≡ first_refusal (edition_checks shape.entry.upper.now shape.entry.total) }
    ensures count { IfOk result (λ n. n ≡ count_of shape.entry.upper.now shape.entry.total) }
{
    let mut cells = [0u64; 256];
    rows(shape, few, &mut cells).ok_or(Reason::Limit)
}

// N, or the refusal. Where N stands in the constant table, the checks 1 to 4 refuse nothing.
pub fn number(upper: &[u8], total: u32) -> Result<u64, Reason>
    ensures refusal { told result ≡ first_refusal (edition_checks upper.now total) }
    ensures count { IfOk result (λ n. n ≡ count_of upper.now total) }
{
    if let Some(n) = mahonian::staircase_count(upper, total) {
        if LIMIT < n {
            return Err(Reason::Limit);
        }
        return Ok(n);
    }
    let shape = crate::survey(upper, total)?;
    count_row(shape, crate::few_parts(shape))
}
