// The copies of a batch, block by block.
ghost use Rattle.std.specs.Prelude.{◌≡◌, true, false, ◌++◌, ℕ, ◌+◌, ◌-◌, ◌*◌, ◌≤◌, ◌<◌, length, get_or, take, drop};
ghost use Rattle.walsh.specs.Order.{Composition, is_odd, count_of};
ghost use Rattle.blocks.specs.Lists.{joined};
ghost use Rattle.blocks.specs.Blocks.{Enters, listed_at, number_of, IsBlock, Readable, laid, shown, copy_of, WentOn, Begun};

use crate::lists::{Fronts, sum_of};
use bounds::copy;
use walsh::is_odd;

// A copy is written by more bytes than its own, up to 40, which the next copies overwrite. So the last 40 copies are not written here.
const MARGIN: usize = 40;

// The entries of a block from a place on: how many there are, the number of the first in the lists, and whether they are read backwards.
#[derive(Clone, Copy)]
struct Block {
    count: usize,
    from: usize,
    falling: bool,
}

// The number among `count` entries of a list that is number `i` in the block, or the other way round.
fn listed_at(falling: bool, count: usize, i: usize) -> usize
    requires { i < count }
    ensures { result ≡ listed_at falling count i }
{
    if falling { count - 1 - i } else { i }
}

impl Block {
    // The number in the lists of entry `j` of a block.
    fn number_of(self, j: usize) -> usize
        requires { (self.falling ≡ true → j ≤ self.from) × (self.falling ≡ false → self.from + j ≤ 12288) }
        ensures { result ≡ number_of self j }
    {
        if self.falling {
            self.from - j
        } else {
            self.from + j
        }
    }
}

impl Fronts<'_> {
    // The number in its block of the entry that is number `x` in the list of the sum `s`.
    pub(crate) fn entered_at(&self, s: usize, x: usize) -> usize
        requires { (s ≤ self.now.job.total) × (get_or self.now.starts s 0 + x < get_or self.now.starts (s + 1) 0) }
        ensures { result ≡ listed_at (is_odd (self.now.job.total - s)) (get_or self.now.starts (s + 1) 0 - get_or self.now.starts s 0) x }
    {
        let low = self.starts[s];
        let high = self.starts[s + 1];
        listed_at(is_odd(self.job.total as usize - s), high - low, x)
    }

    // The block whose first parts sum to `s`, from its entry number `i` on.
    fn block_of(&self, s: usize, i: usize) -> Block
        requires { (s ≤ self.now.job.total) × (get_or self.now.starts s 0 + i < get_or self.now.starts (s + 1) 0) }
        ensures { IsBlock self.now.job.total s (get_or self.now.starts s 0) (get_or self.now.starts (s + 1) 0) i result }
    {
        let low = self.starts[s];
        let high = self.starts[s + 1];
        let falling = is_odd(self.job.total as usize - s);
        let from = low + listed_at(falling, high - low, i);
        Block {
            count: high - low - i,
            from,
            falling,
        }
    }
}

// Writes the first N bytes of `from` over those of `out`. (Speed: `copy_from_slice` asks each time whether the two overlap, and a batch takes 3 to 38 %
// longer.)
fn store<const N: usize>(from: &[u8], out: &mut [u8])
    requires { (N ≤ length from.now) × (N ≤ length out.old) }
    ensures { out.new ≡ take N from.now ++ drop N out.old }
{
    for i in 0..N {
        out[i] = from[i];
    }
}

// Writes an entry and the ending behind its `width` bytes over the beginning of `out`, by moves of 16 and of 24 bytes: some bytes too many.
fn lay(entry: &[u8], width: usize, ending: &[u8], out: &mut [u8])
    requires { (length entry.now ≡ 16) × (length ending.now ≡ 24) × (width ≤ 16) × (40 ≤ length out.old) }
    ensures { (d : ℕ) → d ≤ 24 → take (width + d) out.new ≡ take width entry.now ++ take d ending.now }
{
    store::<16>(entry, out);
    store::<24>(ending, &mut out[width..width + 24]);
}

// Writes `k` copies of a block, with the ending of `cells` behind each entry. (`at` is where the next copy starts.)
fn write_block(fronts: &Fronts, block: Block, cells: &[u8; 40], k: usize, out: &mut [u8])
    requires { Readable fronts.now.width block k 12288 × (k * length fronts.now.job.upper.now + 40 ≤ length out.old) }
    ensures { take (k * length fronts.now.job.upper.now) out.new
        ≡ joined (laid fronts.now block cells.now) k }
{
    let n = fronts.job.upper.len();
    let width = fronts.width;
    let ending = bounds::pack(&cells[width..width + 24]);
    let mut at = 0;
    for j in 0..k {
        let from = block.number_of(j) * width;
        lay(
            &fronts.entries[from..from + 16],
            width,
            &ending,
            &mut out[at..],
        );
        at += n;
    }
}

// From entry `j` of a block, with the ending of `cells`, to the composition after it.
fn go_on(fronts: &Fronts, block: Block, j: usize, cells: &mut [u8; 40])
    requires { Readable fronts.now.width block (j + 1) 12288 }
    ensures { (p : ℕ) → 0 < p → p < count_of fronts.now.job.upper.now fronts.now.job.total
        → laid fronts.now block cells.old j ≡ copy_of fronts.now.job p → shown fronts.now.job cells.new ≡ copy_of fronts.now.job (p + 1) }
{
    let upper = fronts.job.upper;
    let width = fronts.width;
    let from = block.number_of(j) * width;
    cells[..width].copy_from_slice(&fronts.entries[from..from + width]);
    step::advance(upper, fronts.job.total, &mut cells[..upper.len()]);
}

// Writes the copies of a block from the composition in `cells` on, its entry number `i`, but `most` at most, and answers how many. The cells then have
// the composition after them.
fn next_block(fronts: &Fronts, i: usize, most: usize, cells: &mut [u8; 40], out: &mut [u8]) -> usize
    requires { Composition fronts.now.job.upper.now fronts.now.job.total (shown fronts.now.job cells.old) × Enters fronts.now cells.old i
        × (0 < most) × (most * length fronts.now.job.upper.now + 40 ≤ length out.old) }
    ensures { (0 < result) × (result ≤ most)
        × ((p : ℕ) → 0 < p → p + most ≤ count_of fronts.now.job.upper.now fronts.now.job.total
        → shown fronts.now.job cells.old ≡ copy_of fronts.now.job p → WentOn fronts.now p most result cells.new out.new) }
{
    let s = sum_of(&cells[..fronts.width]);
    let block = fronts.block_of(s, i);
    let k = block.count.min(most);
    write_block(fronts, block, cells, k, out);
    go_on(fronts, block, k - 1, cells);
    k
}

// Writes the copies of a job from the first on, entry number `index` of its block, but for the last 40, and answers how many. (A `while`, since each
// block has a number of copies of its own.)
pub(crate) fn write(fronts: &Fronts, index: usize, out: &mut [u8]) -> usize
    requires { (length out.old ≡ fronts.now.job.copies * length fronts.now.job.upper.now)
        × Enters fronts.now fronts.now.job.first index }
    ensures { Begun fronts.now.job result out.new }
{
    let n = fronts.job.upper.len();
    let end = fronts.job.copies - MARGIN;
    let mut cells = [0u8; 40];
    copy(&fronts.job.first, &mut cells);
    let mut i = index;
    let mut j = 0;
    while j < end {
        let k = next_block(fronts, i, end - j, &mut cells, &mut out[j * n..]);
        i = 0;
        j += k;
    }
    j
}
