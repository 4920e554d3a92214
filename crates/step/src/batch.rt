// Consecutive compositions, one behind the other (document 01, "Trays").
ghost use Rattle.std.specs.Prelude.{◌≡◌, List, ◌++◌, ℕ, ◌*◌, ◌≤◌, ◌<◌, length, get_or};
ghost use Rattle.walsh.specs.Order.{Composition};
ghost use Rattle.bounds.specs.Refusal.{first_refusal};
ghost use Rattle.bounds.specs.Reason.{told};
ghost use Rattle.bounds.specs.Places.{lent_checks, copied};
ghost use Rattle.bounds.specs.declared.Refusal.{Refusal};
ghost use Rattle.step.specs.Batch.{range_checks, batch_of};
ghost use Rattle.step.specs.Run.{NextLeft, InFront, values_left, Running, BehindRun, CanMove, moved_of, shown, Onward, Asked, copies_from};
ghost use Rattle.step.specs.Stride.{CanSlide, slid_of, Leaps, Strides};

use crate::{PivotSums, is_sized, turn, turn_from};
use bounds::{Reason, copy};
use rank::{Located, locate};
use walsh::is_odd;

// The places 'serial given' and 'lent part' of a tray, where N is `count` and a copy has n bytes: the serials that the copies begin with and end with
// are both within 1..N.
pub fn check_room(count: u64, n: usize, serial: u64, copies: u64, have: usize) -> Result<(), Reason>
    ensures { told result ≡ first_refusal (range_checks count serial copies ++ lent_checks (copies * n) have) }
{
    places::check_serial(count, serial)?;
    if count - serial + 1 < copies {
        return Err(Reason::Serial);
    }
    places::check_copies(n, copies, have)
}

// Where the first two parts stand that are left, that is, whose bound is not 0.
#[derive(Clone, Copy)]
struct Front {
    low: usize,
    high: usize,
}

// Bounds and total, and where the first two parts stand that are left.
#[derive(Clone, Copy)]
struct Shape<'a> {
    upper: &'a [u8],
    total: usize,
    front: Front,
    ghost few: { length upper.now ≤ 24 },
    ghost in_front: { InFront upper.now front },
}

// The first two parts of a composition that are left, which way the second goes, and how often it can still move. Most steps move these two alone, so
// they are kept apart from the others.
#[derive(Clone, Copy)]
struct Run {
    first: u8,
    second: u8,
    falling: bool,
    more: usize,
}

// How many of the values lo..hi come after v.
fn values_left(v: usize, lo: usize, hi: usize, falling: bool) -> usize
    ensures { result ≡ values_left lo hi falling v }
{
    if falling {
        v.saturating_sub(lo)
    } else {
        hi.saturating_sub(v)
    }
}

// The first part from part i on that is left, or a place behind them all. (No `Option`: specs/Run `NextLeft` says this place.)
fn next_left(upper: &[u8], i: usize) -> usize
    ensures { NextLeft upper.now i result }
{
    for j in i..upper.len() {
        if 0 < upper[j] {
            return j;
        }
    }
    i.max(upper.len())
}

fn run_of(shape: Shape, parts: &[u8]) -> Run
    requires { length parts.now ≡ length shape.upper.now }
    ensures { (result.first ≡ get_or parts.now shape.entry.front.low 0) × (result.second ≡ get_or parts.now shape.entry.front.high 0)
        × Running shape.entry.upper.now shape.entry.total shape.entry.front result }
{
    let upper = shape.upper;
    let Front { low, high } = shape.front;
    let first = parts[low];
    let second = parts[high];
    let sum = usize::from(first) + usize::from(second);
    let falling = is_odd(shape.total.saturating_sub(sum));
    let lo = sum.saturating_sub(usize::from(upper[low]));
    let hi = usize::from(upper[high]).min(sum);
    let more = values_left(usize::from(second), lo, hi, falling);
    Run {
        first,
        second,
        falling,
        more,
    }
}

// The second part so many values on.
fn slid(run: Run, steps: usize) -> Run
    requires { CanSlide run steps }
    ensures { result ≡ slid_of run steps }
{
    let by = steps as u8;
    if run.falling {
        return Run {
            first: run.first + by,
            second: run.second - by,
            falling: true,
            more: run.more - steps,
        };
    }
    Run {
        first: run.first - by,
        second: run.second + by,
        falling: false,
        more: run.more - steps,
    }
}

// Where the search for the part that moves begins when the run has ended: behind its two parts, which cannot move.
fn behind(shape: Shape, run: Run) -> PivotSums
    ensures { BehindRun shape.entry.upper.now shape.entry.front run result }
{
    let upper = shape.upper;
    let Front { low, high } = shape.front;
    PivotSums {
        at: high + 1,
        left: usize::from(upper[low]) + usize::from(upper[high]),
        sum: usize::from(run.first) + usize::from(run.second),
        right: 0,
        falling: false,
    }
}

// Goes on to the next composition: by the run where it can move, or else by a step of the parts behind it, with which a new run begins.
fn onward(shape: Shape, run: Run, parts: &mut [u8]) -> Run
    requires { (shape.total ≤ 255) × (length parts.old ≡ length shape.upper.now)
        × Running shape.upper.now shape.total shape.front run
        × Composition shape.upper.now shape.total (shown shape.front run parts.old) }
    ensures { Onward shape.entry.upper.now shape.entry.total shape.entry.front (shown shape.entry.front run parts.old) result parts.new }
{
    if 0 < run.more {
        return slid(run, 1);
    }
    let Front { low, high } = shape.front;
    parts[low] = run.first;
    parts[high] = run.second;
    turn_from(shape.upper, shape.total, behind(shape, run), parts);
    run_of(shape, parts)
}

// Writes 24 cells over the beginning of `out`. (Speed: by `copy`, which asks for the lengths of both, a tray took up to 1.3 times as long.)
fn store(cells: &[u8], out: &mut [u8])
    requires { (length cells.now ≡ 24) × (24 ≤ length out.old) }
    ensures { out.new ≡ copied cells.now out.old }
{
    for i in 0..24 {
        out[i] = cells[i];
    }
}

// Copies 24 cells over the beginning of `out`, or as many as it has room for. All 24 at once are two moves in compiled code; the other copy writes
// the first cell by itself so that the compiler does not make one copy of both, whose length would be no constant.
fn lay(cells: &[u8], out: &mut [u8])
    requires { (length cells.now ≡ 24) × (0 < length out.old) }
    ensures { out.new ≡ copied cells.now out.old }
{
    let room = out.len();
    if 24 <= room {
        store(cells, out);
        return;
    }
    copy(&cells[1..room], &mut out[1..]);
    out[0] = cells[0];
}

// Writes the composition of a run, whose other parts are those of `cells`, over the beginning of `out`: all 24 cells, or as many as have room.
fn put(front: Front, run: Run, cells: &[u8], out: &mut [u8])
    requires { (length cells.now ≡ 24) × (front.low < front.high) × (front.high < 24) × (front.high < length out.old) }
    ensures { out.new ≡ copied (shown front run cells.now) out.old }
{
    let low = front.low;
    let high = front.high;
    lay(cells, out);
    out[low] = run.first;
    out[high] = run.second;
}

// Writes `copies` compositions from `first` on, each into the part of `out` that starts where the one before it ends. What a copy leaves behind its
// own n bytes is overwritten by the next one, and the last one has room for n bytes alone.
fn write_runs(shape: Shape, first: [u8; 24], copies: u64, out: &mut [u8])
    requires { Asked shape.upper.now shape.total first copies (length out.old) }
    ensures { out.new ≡ copies_from shape.entry.upper.now shape.entry.total first copies }
{
    let n = shape.upper.len();
    let front = shape.front;
    let mut parts = first;
    let mut run = run_of(shape, &parts[..n]);
    for j in 0..copies {
        let at = j as usize * n;
        put(front, run, &parts, &mut out[at..]);
        run = onward(shape, run, &mut parts[..n]);
    }
}

// The same of any number of copies. Where there are two compositions or more, two parts are left.
fn write(upper: &[u8], total: usize, first: [u8; 24], copies: u64, out: &mut [u8])
    requires { Asked upper.now total first copies (length out.old) }
    ensures { out.new ≡ copies_from upper.now total first copies }
{
    if copies < 2 {
        copy(&first, out);
        return;
    }
    let low = next_left(upper, 0);
    let high = next_left(upper, low + 1);
    let front = Front { low, high };
    let shape = Shape {
        upper,
        total,
        front,
    };
    write_runs(shape, first, copies, out);
}

// Writes `copies` compositions from that of `serial` on into `out`, or answers the refusal and writes nothing. One table serves them all.
pub fn batch(
    upper: &[u8],
    total: u32,
    serial: u64,
    copies: u64,
    out: &mut [u8],
) -> Result<(), Reason>
    ensures { ◌≡◌ {A = Refusal × List ℕ} (told result, out.new)
        (batch_of upper.now total serial copies out.old) }
{
    let Located { count, composition } = locate(upper, total, serial)?;
    check_room(count, upper.len(), serial, copies, out.len())?;
    write(upper, total as usize, composition, copies, out);
    Ok(())
}

// ---- several steps in place

// The steps that move the first two parts alone, all at once, and the step behind them; `most` steps at most. The answer is how many were made. Where
// the first part is above its bound, it is one step. (Bounds, total and parts apart, as in `turn`.)
fn leap(upper: &[u8], total: usize, parts: &mut [u8], most: usize) -> usize
    requires { (1 < length upper.now) × (length upper.now ≤ 24) × (length parts.old ≡ length upper.now) × (total ≤ 4294967296)
        × (0 < most) }
    ensures { Leaps upper.now total parts.old most result parts.new }
{
    let front = Front { low: 0, high: 1 };
    let shape = Shape {
        upper,
        total,
        front,
    };
    let run = run_of(shape, parts);
    if upper[0] < run.first {
        turn(upper, total, parts);
        return 1;
    }
    let steps = most.min(run.more);
    let to = slid(run, steps);
    parts[0] = to.first;
    parts[1] = to.second;
    if steps == most {
        return steps;
    }
    turn_from(upper, total, behind(shape, to), parts);
    steps + 1
}

// So many forward steps in place, as by so many calls of `advance`. (A `while`, since each leap has a length of its own.)
pub fn stride(upper: &[u8], total: u32, parts: &mut [u8], steps: usize)
    ensures { Strides upper.now total parts.old steps parts.new }
{
    if !is_sized(upper, parts) || upper.len() < 2 {
        return;
    }
    let mut made: usize = 0;
    while made < steps {
        made += leap(upper, total as usize, parts, steps - made);
    }
}
