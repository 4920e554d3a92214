// The two conversions, each with a band of as many cells as it needs: from a composition to its serial, and from a serial to its composition. Both
// fill the band by `find`, and each hands over the walk that is then made on it.
ghost use Rattle.std.specs.Prelude.{◌≡◌, ◌≤◌, IfOk, length};
ghost use Rattle.walsh.specs.Order.{Composition, count_of};
ghost use Rattle.bounds.specs.Edition.{edition_checks, shape_checks};
ghost use Rattle.bounds.specs.Reason.{told};
ghost use Rattle.bounds.specs.Refusal.{first_refusal};
ghost use Rattle.band.specs.Find.{clamp, early_checks, ranked, unranked, Sized, MayWalk, Walked};

use crate::Row;
use crate::walk::{self, Table};
use crate::window::table;
use bounds::Reason;

// A shape that is accepted: the sum of its bounds, and how many cells its band has.
#[derive(Clone, Copy)]
struct Shape<'a> {
    upper: &'a [u8],
    total: u32,
    all: usize,
    size: usize,
    ghost sized: { Sized upper.now total all size },
}

// N, the entry's serial, and its cells where they were asked for.
#[derive(Clone, Copy, Debug, PartialEq, Eq)]
pub struct Converted {
    pub count: u64,
    pub serial: u64,
    pub composition: [u8; 24],
}

// The checks 1 to 4.
fn survey(upper: &[u8], total: u32) -> Result<Shape<'_>, Reason>
    ensures refusal { told result ≡ first_refusal (shape_checks upper.now total) }
    ensures shape { IfOk result (λ s. (s.upper.now ≡ upper.now) × (s.total ≡ total)) }
{
    let all = bounds::shape(upper, total)?;
    let size = crate::size(upper, total as usize, all);
    Ok(Shape {
        upper,
        total,
        all,
        size,
    })
}

// The serial of 1..n that is nearest to s. (The library's `min` and `max`, under the name that the clauses have.)
fn clamp(n: u64, s: u64) -> u64
    ensures { result ≡ clamp n s }
{
    s.min(n).max(1)
}

// The serial of `given`, where N is `count`.
fn rank_in(table: Table, count: u64, given: &[u8]) -> Converted
    requires { (count ≡ count_of table.upper.now table.total) × Composition table.upper.now table.total given.now }
    ensures { result ≡ ranked table.entry.upper.now table.entry.total given.now }
{
    let before = walk::place(table, given);
    Converted {
        count,
        serial: before + 1,
        composition: [0; 24],
    }
}

// The composition of the serial nearest to `serial`, where N is `count`.
fn unrank_in(table: Table, count: u64, serial: u64) -> Converted
    requires { count ≡ count_of table.upper.now table.total }
    ensures { result ≡ unranked table.entry.upper.now table.entry.total serial }
{
    let s = clamp(count, serial);
    let n = table.upper.len();
    let mut composition = [0u8; 24];
    walk::write(table, s - 1, &mut composition[..n]);
    Converted {
        count,
        serial: s,
        composition,
    }
}

// The band is filled, in the cells that are handed over, and the walk made. (What the walk may be given is asked for by each of these: no field can say it
// of a closure.)
fn find_in<F: FnOnce(Table, u64) -> Converted>(
    shape: Shape,
    cells: &mut [u64],
    walk: F,
) -> Result<Converted, Reason>
    requires { (length cells.old ≡ shape.size) × MayWalk (F.pre walk) shape.upper.now shape.total }
    ensures refusal { told result ≡ first_refusal (edition_checks shape.entry.upper.now shape.entry.total) }
    ensures found { IfOk result (Walked (F.post walk) shape.entry.upper.now shape.entry.total) }
{
    let count = table::fill(shape.upper, shape.total, shape.all, cells)?;
    let total = shape.total as usize;
    let last = Row {
        start: cells.len() - 1,
        left: shape.all,
        all: shape.all,
        low: total,
        high: total,
    };
    let table = Table {
        upper: shape.upper,
        total,
        last,
        cells,
    };
    Ok(walk(table, count))
}

// `find_in` of a band of at most `N` cells, which are the first of an array of `N`: all of it is cleared, so it should not be much longer.
fn find_with<const N: usize, F: FnOnce(Table, u64) -> Converted>(
    shape: Shape,
    walk: F,
) -> Result<Converted, Reason>
    requires { (shape.size ≤ N) × (N ≤ 6145) × MayWalk (F.pre walk) shape.upper.now shape.total }
    ensures refusal { told result ≡ first_refusal (edition_checks shape.entry.upper.now shape.entry.total) }
    ensures found { IfOk result (Walked (F.post walk) shape.entry.upper.now shape.entry.total) }
{
    let mut cells = [0u64; N];
    find_in(shape, &mut cells[..shape.size], walk)
}

// The same of any band, in one of the largest arrays: a call of its own, so that smaller bands have small frames.
#[inline(never)]
fn in_largest<F: FnOnce(Table, u64) -> Converted>(
    shape: Shape,
    walk: F,
) -> Result<Converted, Reason>
    requires { MayWalk (F.pre walk) shape.upper.now shape.total }
    ensures refusal { told result ≡ first_refusal (edition_checks shape.entry.upper.now shape.entry.total) }
    ensures found { IfOk result (Walked (F.post walk) shape.entry.upper.now shape.entry.total) }
{
    match shape.size {
        ..=3072 => find_with::<3072, F>(shape, walk),
        ..=3584 => find_with::<3584, F>(shape, walk),
        ..=4096 => find_with::<4096, F>(shape, walk),
        ..=5120 => find_with::<5120, F>(shape, walk),
        _ => find_with::<6145, F>(shape, walk),
    }
}

// The same of any band, in a large array, and so a call of its own too.
#[inline(never)]
fn in_large<F: FnOnce(Table, u64) -> Converted>(shape: Shape, walk: F) -> Result<Converted, Reason>
    requires { MayWalk (F.pre walk) shape.upper.now shape.total }
    ensures refusal { told result ≡ first_refusal (edition_checks shape.entry.upper.now shape.entry.total) }
    ensures found { IfOk result (Walked (F.post walk) shape.entry.upper.now shape.entry.total) }
{
    match shape.size {
        ..=1152 => find_with::<1152, F>(shape, walk),
        ..=1280 => find_with::<1280, F>(shape, walk),
        ..=1536 => find_with::<1536, F>(shape, walk),
        ..=1792 => find_with::<1792, F>(shape, walk),
        ..=2048 => find_with::<2048, F>(shape, walk),
        ..=2560 => find_with::<2560, F>(shape, walk),
        _ => in_largest(shape, walk),
    }
}

// The same of any band, in the smallest of these arrays that has its cells. (Three lists of sizes: a const parameter wants a constant, and small bands want
// small frames.)
fn find<F: FnOnce(Table, u64) -> Converted>(shape: Shape, walk: F) -> Result<Converted, Reason>
    requires { MayWalk (F.pre walk) shape.upper.now shape.total }
    ensures refusal { told result ≡ first_refusal (edition_checks shape.entry.upper.now shape.entry.total) }
    ensures found { IfOk result (Walked (F.post walk) shape.entry.upper.now shape.entry.total) }
{
    match shape.size {
        ..=64 => find_with::<64, F>(shape, walk),
        ..=128 => find_with::<128, F>(shape, walk),
        ..=192 => find_with::<192, F>(shape, walk),
        ..=288 => find_with::<288, F>(shape, walk),
        ..=384 => find_with::<384, F>(shape, walk),
        ..=544 => find_with::<544, F>(shape, walk),
        ..=704 => find_with::<704, F>(shape, walk),
        ..=896 => find_with::<896, F>(shape, walk),
        ..=1024 => find_with::<1024, F>(shape, walk),
        _ => in_large(shape, walk),
    }
}

// The serial of a composition, or the refusal. What is no composition is refused before the table is filled, and so before 5 is known.
pub fn serial_of(upper: &[u8], total: u32, composition: &[u8]) -> Result<Converted, Reason>
    ensures refusal { told result ≡ first_refusal (early_checks upper.now total composition.now) }
    ensures found { IfOk result (λ c. c ≡ ranked upper.now total composition.now) }
{
    let shape = survey(upper, total)?;
    places::check_composition(upper, total, composition)?;
    find(shape, |table, count| rank_in(table, count, composition))
}

// N and the composition of the serial nearest to `serial`, or the refusal.
pub fn composition_of(upper: &[u8], total: u32, serial: u64) -> Result<Converted, Reason>
    ensures refusal { told result ≡ first_refusal (edition_checks upper.now total) }
    ensures found { IfOk result (λ c. c ≡ unranked upper.now total serial) }
{
    let shape = survey(upper, total)?;
    find(shape, |table, count| unrank_in(table, count, serial))
}
