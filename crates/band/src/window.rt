// A row of the band, filled from the row before by a sliding window. It stops at the first number over 2^63 - 1, which shows that N is over it too:
// `None` says so.
ghost use Rattle.std.specs.Prelude.{◌≡◌, ◌+◌, ◌-◌, ◌%◌, ◌<◌, ◌≤◌, length, MatchOption};
ghost use Rattle.walsh.specs.Order.{count};
ghost use Rattle.band.specs.Band.{InBand, band_size, cap, RowHolds, RowsHold};
ghost use Rattle.band.specs.Window.{Filling, Slid, FilledTo, Moves, Stretch, IsStretches};

use crate::{Row, cell};
use bounds::LIMIT;

pub mod table;

// Part `k`, whose bound is `m`: the row before it, and the row after, which is filled.
#[derive(Clone, Copy)]
struct Part<'a> {
    upper: &'a [u8],
    total: usize,
    k: usize,
    m: usize,
    row: Row,
    next: Row,
    ghost filling: { Filling upper.now total k m row next },
}

// A number of the band that is within the limit.
fn within(n: u64) -> Option<u64>
    ensures { MatchOption result (cap ≤ n) (λ w. (w ≡ n) × (w < cap)) }
{
    if LIMIT < n {
        return None;
    }
    Some(n)
}

// The cell of the row before for the sum `t`. (What is asked for, here, in `head` and in `step`, is said of the cells that the loop writes and of a sum in
// it, not of the part.)
fn cell_at(part: Part, cells: &[u64], t: usize) -> u64
    requires { (band_size part.upper.now part.total ≤ length cells.now) × RowHolds part.upper.now part.total cells.now part.k 256
        × InBand part.upper.now part.total part.k t }
    ensures { (result ≡ count part.entry.upper.now part.entry.k t) × (result < cap) }
{
    cell(part.upper, part.total, part.k, part.row, cells, t)
}

// The window before the first sum of the row after.
fn head(part: Part, cells: &[u64]) -> Option<u64>
    requires { (band_size part.upper.now part.total ≤ length cells.now) × RowHolds part.upper.now part.total cells.now part.k 256 }
    ensures { MatchOption result (cap ≤ count part.entry.upper.now (length part.entry.upper.now) part.entry.total)
        (λ w. (w < cap) × Slid part.entry.upper.now part.entry.total part.entry.k part.entry.next.low w) }
{
    let end = part.next.low.min(part.row.high + 1);
    let mut w: u64 = 0;
    for t in part.row.low..end {
        w = within(w + cell_at(part, cells, t))?;
    }
    Some(w)
}

// w - x + y modulo 2^64, which is w - x + y itself where the numbers are within the limit and x is at most w.
pub fn moved(w: u64, x: u64, y: u64) -> u64
    ensures { (result + x) % 18446744073709551616 ≡ (w + y) % 18446744073709551616 }
{
    std::num::wrapping_add_u64(w, std::num::wrapping_sub_u64(y, x))
}

// The window over the row before moved from the sum `t` to `t + 1`, where it is known whether a cell enters it and whether one leaves it.
fn step(part: Part, cells: &[u64], t: usize, w: u64, enters: bool, leaves: bool) -> u64
    requires { (band_size part.upper.now part.total ≤ length cells.now) × (part.next.low ≤ t) × (t ≤ part.next.high)
        × FilledTo part.upper.now part.total part.k t w cells.now × Moves part.row part.m t enters leaves }
    ensures { Slid part.entry.upper.now part.entry.total part.entry.k (t + 1) result }
{
    if enters {
        if leaves {
            // the cell that enters is read first, which makes the faster loop
            let y = cell_at(part, cells, t);
            let x = cell_at(part, cells, t - (part.m + 1));
            return moved(w, x, y);
        }
        return w + cell_at(part, cells, t);
    }
    if leaves {
        return w - cell_at(part, cells, t - (part.m + 1));
    }
    w
}

// The sums from `from` up to `end` of a row, at which a cell enters the window or none does, and one leaves it or none does. (Flags and no closures: of the
// middle stretch only the row's numbers say which.)
#[derive(Clone, Copy)]
struct Span {
    from: usize,
    end: usize,
    enters: bool,
    leaves: bool,
}

// Fills these sums of the row after and answers the window.
fn fill_span(part: Part, cells: &mut [u64], span: Span, w0: u64) -> Option<u64>
    requires { (band_size part.upper.now part.total ≤ length cells.old) × Stretch part.row part.next part.m span
        × FilledTo part.upper.now part.total part.k span.from w0 cells.old }
    ensures { MatchOption result (cap ≤ count part.entry.upper.now (length part.entry.upper.now) part.entry.total)
        (λ w. FilledTo part.entry.upper.now part.entry.total part.entry.k span.end w cells.new) }
{
    let next = part.next;
    let mut w = w0;
    for t in span.from..span.end {
        w = within(step(part, cells, t, w, span.enters, span.leaves))?;
        cells[next.start + (t - next.low)] = w;
    }
    Some(w)
}

// The first sum past `x`, but at least `low` and at most `high`.
fn between(low: usize, x: usize, high: usize) -> usize
    requires { low ≤ high }
    ensures { (low ≤ result) × (result ≤ high) × (low < result → result ≤ x + 1) × (result < high → x < result) }
{
    if high <= x {
        return high;
    }
    if x < low {
        return low;
    }
    x + 1
}

// The row after in three: cells only enter the window, then they enter and leave it or neither, then they only leave it.
#[derive(Clone, Copy)]
struct Stretches {
    grows: Span,
    slides: Span,
    shrinks: Span,
}

fn stretches_of(part: Part) -> Stretches
    ensures { IsStretches part.entry.row part.entry.next part.entry.m result }
{
    let row = part.row;
    let next = part.next;
    let full = row.low + part.m;
    let end = next.high + 1;
    let least = row.high.min(full);
    let first = between(next.low, least, end);
    let second = between(first, row.high + full - least, end);
    let both = full < row.high;
    Stretches {
        grows: Span {
            from: next.low,
            end: first,
            enters: true,
            leaves: false,
        },
        slides: Span {
            from: first,
            end: second,
            enters: both,
            leaves: both,
        },
        shrinks: Span {
            from: second,
            end,
            enters: false,
            leaves: true,
        },
    }
}

// Fills the row after.
fn fill_row(part: Part, cells: &mut [u64]) -> Option<()>
    requires { (band_size part.upper.now part.total ≤ length cells.old) × RowsHold part.upper.now part.total cells.old part.k }
    ensures { MatchOption result (cap ≤ count part.entry.upper.now (length part.entry.upper.now) part.entry.total)
        (λ _. RowsHold part.entry.upper.now part.entry.total cells.new (part.entry.k + 1)) }
{
    let w0 = head(part, cells)?;
    let s = stretches_of(part);
    let w1 = fill_span(part, cells, s.grows, w0)?;
    let w2 = fill_span(part, cells, s.slides, w1)?;
    fill_span(part, cells, s.shrinks, w2)?;
    Some(())
}
