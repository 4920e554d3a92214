// The band: a table of the numbers of compositions of the first k parts, for the sums from which the total can still be reached, so every count in
// it is at most N (document 01: N, and everything that counts). Here are the places of its rows; `window` fills a row from the row before,
// `window::table` the whole; `walk` goes from a serial to its composition and back over a filled band, and `find` gives both directions the band
// they need.
// Document 02, request (iv): a conversion adds the bounds up once, in `bounds::shape`. `size` and the walks begin with that sum and take one bound
// off at each part; only the filling, which goes up the rows, adds them to a sum of its own.
#![tactic(auto)]

ghost use Rattle.std.specs.Prelude.{◌≡◌, ◌+◌, ◌-◌, ◌<◌, ◌≤◌, min, length};
ghost use Rattle.walsh.specs.Order.{count};
ghost use Rattle.bounds.specs.Edition.{whole};
ghost use Rattle.band.specs.Band.{InBand, band_size, cap, RowHolds, IsRow};

pub mod find;
mod walk;
pub mod window;

// One more than the largest N that is accepted: from here on a count is none (specs/Band `cap`).
pub const CAP: u64 = 9_223_372_036_854_775_808;

// Row k: the cells before it, the sum of the first k bounds, which are those to the left of part k, and of all, and the lowest and the highest sum in
// the band. A walk keeps `left`: it begins as `all`, and `walk::down` takes one bound off.
#[derive(Clone, Copy)]
struct Row {
    start: usize,
    left: usize,
    all: usize,
    low: usize,
    high: usize,
}

fn row_of(total: usize, start: usize, left: usize, all: usize) -> Row
    requires { left ≤ all }
    ensures { (result.start ≡ start) × (result.left ≡ left) × (result.all ≡ all) × (result.low ≡ total - (all - left)) × (result.high ≡ min total left) }
{
    Row {
        start,
        left,
        all,
        low: total.saturating_sub(all - left),
        high: total.min(left),
    }
}

// The row after. (It and `size`, as `down`, ask for what they need of bounds and total in a line: `Shape` and `Table`, which say it, are made of what they
// answer.)
fn up(upper: &[u8], total: usize, k: usize, from: Row) -> Row
    requires { (length upper.now ≤ 24) × (total ≤ 255) × (total ≤ whole upper.now) × (k < length upper.now)
        × IsRow upper.now total k from }
    ensures { IsRow upper.now total (k + 1) result }
{
    let m = usize::from(upper[k]);
    row_of(
        total,
        from.start + (from.high + 1 - from.low),
        from.left + m,
        from.all,
    )
}

// How many cells the band has, counted from the last part down: the sum of the bounds to the left begins as that of all, and at each part its bound
// comes off.
fn size(upper: &[u8], total: usize, all: usize) -> usize
    requires { (length upper.now ≤ 24) × (total ≤ 255) × (total ≤ whole upper.now) × (all ≡ whole upper.now) }
    ensures { result ≡ band_size upper.now total }
{
    let mut cells = 1;
    let mut left = all;
    for k in (0..upper.len()).rev() {
        left -= usize::from(upper[k]);
        let low = total.saturating_sub(all - left);
        cells += total.min(left) + 1 - low;
    }
    cells
}

// The number of compositions of the sum `t` of the band into the first `k` parts. (Bounds and total apart, as in `up`.)
fn cell(upper: &[u8], total: usize, k: usize, row: Row, cells: &[u64], t: usize) -> u64
    requires { (k ≤ length upper.now) × (k ≤ 24) × (total ≤ 255) × IsRow upper.now total k row × InBand upper.now total k t
        × (band_size upper.now total ≤ length cells.now) × RowHolds upper.now total cells.now k 256 }
    ensures { (result ≡ count upper.now k t) × (result < cap) }
{
    cells[row.start + (t - row.low)]
}
