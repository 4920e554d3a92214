// The walk over a filled band, from the last part down: from a rank, which counts from 0, to its composition, and back.
ghost use Rattle.std.specs.Prelude.{◌≡◌, suc, ◌+◌, ◌-◌, ◌<◌, ◌≤◌, [], length, slice_index, slice_index_or};
ghost use Rattle.walsh.specs.Sums.{sum, sum_to};
ghost use Rattle.walsh.specs.Order.{CompositionTo, order, count, least, most};
ghost use Rattle.walsh.specs.Rank.{index_of, part_index, block_size, rank_of};
ghost use Rattle.bounds.specs.Edition.{whole};
ghost use Rattle.band.specs.Band.{IsRow};
ghost use Rattle.band.specs.Walk.{run_of, in_run, Here, Readable, Picked, Filled};

use crate::Row;

// A filled band and its last row, from which a walk begins.
#[derive(Clone, Copy)]
pub(crate) struct Table<'a> {
    pub(crate) upper: &'a [u8],
    pub(crate) total: usize,
    pub(crate) last: Row,
    pub(crate) cells: &'a [u64],
    ghost filled: { Filled upper.now total last cells.now },
}

// The values of a part in their order: rising from `low`, or falling from `high`.
#[derive(Clone, Copy)]
struct Run {
    low: usize,
    high: usize,
    falls: bool,
}

// A value, and the rank among the compositions that have it.
#[derive(Clone, Copy)]
struct Pick {
    value: usize,
    rank: u64,
}

// The run of part `k`, where the bounds to its left sum to `left`.
fn run_of(upper: &[u8], k: usize, left: usize, rem: usize, t: usize) -> Run
    requires { (k < length upper.now) × (left ≡ sum_to upper.now k) }
    ensures { result ≡ run_of upper.now k rem t }
{
    Run {
        low: rem.saturating_sub(left),
        high: usize::from(upper[k]).min(rem),
        falls: walsh::is_odd(t),
    }
}

// Value number `i` of a run.
fn value(w: Run, i: usize) -> usize
    requires { (w.high ≤ 255) × (i < suc w.high - w.low) }
    ensures { result ≡ in_run w i }
{
    if w.falls { w.high - i } else { w.low + i }
}

// The number of the value `v` of a run.
fn index(w: Run, v: usize) -> usize
    requires { (w.low ≤ v) × (v ≤ w.high) }
    ensures { result ≡ index_of w.low w.high w.falls v }
{
    if w.falls { w.high - v } else { v - w.low }
}

// The cell of what value number `i` leaves: how many compositions have it.
fn block(cells: &[u64], row: Row, rem: usize, w: Run, i: usize) -> u64
    requires { Readable w rem row cells.now × (i < suc w.high - w.low) }
    ensures { result ≡ slice_index cells.now (row.start + (rem - in_run w i - row.low)) }
{
    cells[row.start + (rem - value(w, i) - row.low)]
}

// The row before: the bound of part `k` comes off the sum that is kept, which is then that of the bounds to its left.
fn down(upper: &[u8], total: usize, k: usize, from: Row) -> Row
    requires { (total ≤ 255) × (total ≤ whole upper.now) × (k < length upper.now) × IsRow upper.now total (k + 1) from }
    ensures { IsRow upper.now total k result }
{
    let left = from.left - usize::from(upper[k]);
    let low = total.saturating_sub(from.all - left);
    let high = total.min(left);
    Row {
        start: from.start - (high + 1 - low),
        left,
        all: from.all,
        low,
        high,
    }
}

// The value of part `k` at which `rank` falls. (No `for`: the last value's block is never passed, so nothing could stand behind the loop.)
fn pick_value(
    upper: &[u8],
    k: usize,
    row: Row,
    cells: &[u64],
    rem: usize,
    t: usize,
    rank: u64,
) -> Pick
    requires { Here upper.now k rem t row cells.now × (rank < count upper.now (suc k) rem) }
    ensures { Picked upper.now k rem t rank result.value result.rank }
{
    let w = run_of(upper, k, row.left, rem, t);
    let mut i = 0;
    let mut s = rank;
    let mut size = block(cells, row, rem, w, i);
    while size <= s {
        s -= size;
        i += 1;
        size = block(cells, row, rem, w, i);
    }
    Pick {
        value: value(w, i),
        rank: s,
    }
}

// Writes the composition that has the rank `rank` into `out`, a byte for each part. (A call of its own: inlined, its counter was kept in memory, and
// the way from a serial to 8 parts or more took 3 to 5 % longer.)
#[inline(never)]
pub(crate) fn write(table: Table, rank: u64, out: &mut [u8])
    requires { (length out.old ≡ length table.upper.now) × (rank < count table.upper.now (length table.upper.now) table.total) }
    ensures { out.new ≡ slice_index_or (order table.entry.upper.now table.entry.total) rank [] }
{
    let upper = table.upper;
    let total = table.total;
    let cells = table.cells;
    let mut row = table.last;
    let mut rem = total;
    let mut t = 0;
    let mut s = rank;
    for k in (0..out.len()).rev() {
        row = down(upper, total, k, row);
        let p = pick_value(upper, k, row, cells, rem, t, s);
        let v = p.value;
        out[k] = v as u8;
        rem -= v;
        t += v;
        s = p.rank;
    }
}

// How many compositions have an earlier value of part `k` than `v`.
fn earlier(upper: &[u8], k: usize, row: Row, cells: &[u64], rem: usize, t: usize, v: usize) -> u64
    requires { Here upper.now k rem t row cells.now × (least upper.now k rem ≤ v) × (v ≤ most upper.now k rem) }
    ensures { result ≡ sum (block_size upper.now k rem t) (part_index upper.now k rem t v) }
{
    let w = run_of(upper, k, row.left, rem, t);
    let steps = index(w, v);
    let mut s: u64 = 0;
    for i in 0..steps {
        s += block(cells, row, rem, w, i);
    }
    s
}

// The rank of a composition.
pub(crate) fn place(table: Table, g: &[u8]) -> u64
    requires { (length g.now ≡ length table.upper.now) × CompositionTo table.upper.now (length table.upper.now) table.total g.now }
    ensures { result ≡ rank_of table.entry.upper.now (length table.entry.upper.now) table.entry.total 0 g.now }
{
    let upper = table.upper;
    let total = table.total;
    let cells = table.cells;
    let mut row = table.last;
    let mut rem = total;
    let mut t = 0;
    let mut s: u64 = 0;
    for k in (0..g.len()).rev() {
        row = down(upper, total, k, row);
        let v = usize::from(g[k]);
        s += earlier(upper, k, row, cells, rem, t, v);
        rem -= v;
        t += v;
    }
    s
}
