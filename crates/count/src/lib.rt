// An edition with its number N (document 01, "Editions and their number"): the checks 1 to 5, of lent bounds and of a record that nobody has checked.
#![tactic(auto)]

ghost use Rattle.std.specs.Prelude.{◌≡◌, List, ℕ, ◌*◌, ◌≤◌, ◌<◌, IfSome, IfOk, length};
ghost use Rattle.bounds.specs.Refusal.{first_refusal};
ghost use Rattle.bounds.specs.Reason.{told};
ghost use Rattle.bounds.specs.Edition.{shape_checks, edition_checks};
ghost use Rattle.count.specs.Checked.{checked_of, check_of, record_of};
ghost use Rattle.count.specs.Row.{Shaped, UpTo, Within};

use bounds::{Bounds, LIMIT, Reason};

pub mod row;

// An accepted edition and N.
#[derive(Clone, Copy)]
pub struct Accepted {
    pub bounds: Bounds,
    pub count: u64,
}

// The same; or the refusal, with all else 0. (A number and no `Result`: the C interface.)
#[repr(C)]
#[derive(Clone, Copy)]
pub struct Checked {
    pub number: u32,
    pub detail: u64,
    pub bounds: Bounds,
    pub count: u64,
}

impl From<Result<Accepted, Reason>> for Checked {
    ghost from_gives = { λ answer checked. checked ≡ checked_of answer };

    fn from(answer: Result<Accepted, Reason>) -> Checked {
        match answer {
            Ok(edition) => Checked {
                number: 0,
                detail: 0,
                bounds: edition.bounds,
                count: edition.count,
            },
            Err(reason) => Checked {
                number: reason.number(),
                detail: reason.detail(),
                bounds: bounds::blank(),
                count: 0,
            },
        }
    }
}

// A shape that is accepted, and the sum of its bounds.
#[derive(Clone, Copy)]
struct Shape<'a> {
    upper: &'a [u8],
    total: u32,
    all: usize,
    ghost shaped: { Shaped upper.now total all },
}

// The checks 1 to 4.
fn survey(upper: &[u8], total: u32) -> Result<Shape<'_>, Reason>
    ensures refusal { told result ≡ first_refusal (shape_checks upper.now total) }
    ensures shape { IfOk result (λ s. (s.upper.now ≡ upper.now) × (s.total ≡ total)) }
{
    let all = bounds::shape(upper, total)?;
    Ok(Shape { upper, total, all })
}

// The edition's record and N, or the first of the refusals 1 to 5 that holds.
pub fn check(upper: &[u8], total: u32) -> Result<Accepted, Reason>
    ensures { checked_of result ≡ check_of upper.now total }
{
    let count = row::number(upper, total)?;
    Ok(Accepted {
        bounds: bounds::record(upper, total),
        count,
    })
}

// The same of a record that nobody has checked. Where it is accepted, the cells past n are 0 in the answer.
pub fn check_record(bounds: Bounds) -> Result<Accepted, Reason>
    ensures { checked_of result ≡ record_of bounds }
{
    let n = bounds.parts;
    if 24 < n {
        return Err(Reason::Parts);
    }
    let upper = bounds.upper;
    check(&upper[..n], bounds.total)
}

// 2^55: a smaller number times 256 is within the limit.
const SMALL: u64 = 36_028_797_018_963_968;

// A product, if it is within the limit. (Speed: most need no test, and with one at each factor the check of 24 parts took a third longer.)
fn limited_product(a: u64, b: u64) -> Option<u64>
    requires { b ≤ 256 }
    ensures { IfSome result (λ p. (p ≡ a * b) × (p ≤ 9223372036854775807)) }
{
    if a < SMALL {
        return Some(a * b);
    }
    a.checked_mul(b).filter(|p| *p <= LIMIT)
}

// Of how many first parts the product of the numbers of values of all but the widest is within the limit, where no value is over `most`: then every
// number of compositions of a sum up to `most` into them is.
fn few_values(upper: &[u8], most: usize) -> usize
    ensures { (result ≤ length upper.now) × ((k : ℕ) → k ≤ result → UpTo upper.now most k) }
{
    let mut product: u64 = 1;
    let mut widest: usize = 1;
    for (k, bound) in upper.iter().enumerate() {
        let values = usize::from(*bound).min(most) + 1;
        let factor = values.min(widest);
        widest = values + widest - factor;
        match limited_product(product, factor as u64) {
            Some(more) => product = more,
            None => return k,
        }
    }
    upper.len()
}

// A sum whose compositions into up to n parts are within the limit whatever the bounds, as those of smaller sums are: 51 for 24 parts, and 3, 4, 5, ..
// more for each part fewer. From 18 parts on it is the largest.
fn free_sum(n: usize) -> usize
    requires { n ≤ 24 }
    ensures { (ms : List ℕ) → (k : ℕ) → k ≤ n → UpTo ms result k }
{
    399 - n * (53 - n) / 2
}

// Of how many first parts a bound that costs nothing says that every number of the band is within the limit. There are as many compositions of the
// total as of what it leaves of the bounds' sum (each part taken from its bound), so the smaller of the two counts.
#[tactic(auto, using(crate::proofs::Answers::shape_facts))]
fn few_parts(shape: Shape) -> usize
    ensures { (result ≤ length shape.entry.upper.now)
        × ((k : ℕ) → k ≤ result → Within shape.entry.upper.now shape.entry.total k) }
{
    let n = shape.upper.len();
    let total = shape.total as usize;
    let smaller = total.min(shape.all - total);
    if smaller <= free_sum(n) {
        return n;
    }
    few_values(shape.upper, smaller)
}

// The first of the refusals 1 to 5 that holds, for calls that need no N: where a bound on N that costs nothing is within the limit, nothing is
// counted.
pub fn check_bounds(upper: &[u8], total: u32) -> Result<(), Reason>
    ensures { told result ≡ first_refusal (edition_checks upper.now total) }
{
    let shape = survey(upper, total)?;
    let few = few_parts(shape);
    if few < shape.upper.len() {
        row::count_row(shape, few)?;
    }
    Ok(())
}
