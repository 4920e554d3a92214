// The band filled row by row, and N.
ghost use Rattle.std.specs.Prelude.{◌≡◌, ◌<◌, ◌≤◌, IfOk, length, MatchOption};
ghost use Rattle.walsh.specs.Order.{count, count_of};
ghost use Rattle.bounds.specs.Edition.{whole, shape_checks, edition_checks};
ghost use Rattle.bounds.specs.Reason.{told};
ghost use Rattle.bounds.specs.Refusal.{first_refusal};
ghost use Rattle.band.specs.Band.{band_size, cap, Band};

use super::Part;
use bounds::Reason;

// Fills the band and answers the number of compositions, or stops where that is over 2^63 - 1. (Bounds and total apart, here and in `fill`, as in `up`.)
fn fill_rows(upper: &[u8], total: usize, all: usize, cells: &mut [u64]) -> Option<u64>
    requires { (length upper.now ≤ 24) × (total ≤ 255) × (total ≤ whole upper.now) × (all ≡ whole upper.now)
        × (band_size upper.now total ≤ length cells.old) }
    ensures { MatchOption result (cap ≤ count upper.now (length upper.now) total)
        (λ n. (n ≡ count upper.now (length upper.now) total) × (n < cap) × Band upper.now total cells.new) }
{
    let mut row = crate::row_of(total, 0, 0, all);
    cells[0] = 1;
    for k in 0..upper.len() {
        let m = usize::from(upper[k]);
        let next = crate::up(upper, total, k, row);
        let part = Part {
            upper,
            total,
            k,
            m,
            row,
            next,
        };
        super::fill_row(part, cells)?;
        row = next;
    }
    Some(crate::cell(upper, total, upper.len(), row, cells, total))
}

// Fills the band of a shape that is accepted and answers N, or 5.
pub(crate) fn fill(upper: &[u8], total: u32, all: usize, cells: &mut [u64]) -> Result<u64, Reason>
    requires { ((first_refusal (shape_checks upper.now total)).number ≡ 0) × (all ≡ whole upper.now)
        × (band_size upper.now total ≤ length cells.old) }
    ensures refusal { told result ≡ first_refusal (edition_checks upper.now total) }
    ensures filled { IfOk result (λ n. (n ≡ count_of upper.now total) × Band upper.now total cells.new) }
{
    fill_rows(upper, total as usize, all, cells).ok_or(Reason::Limit)
}
