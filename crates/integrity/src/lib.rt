// Number 16 (document 01, "Refusals", place 'register calls'; document 02, (vi)): whether a record and the two columns belong together, by one pass over
// the lines written, which finds the lowest place of an order too where one is looked for, or the first of several that stands in an earlier line.
#![tactic(auto)]

mod lines;
mod meet;
mod pass;
mod sound;

ghost use Rattle.std.specs.Prelude.{◌≡◌, ◌-◌, ◌≤◌, eqb};
ghost use Rattle.walsh.specs.Serial.{same};
ghost use Rattle.walsh.specs.Tests.{both};
ghost use Rattle.bounds.specs.Edition.{cells_of};
ghost use Rattle.model.specs.Entry.{entry, columns};
ghost use Rattle.model.specs.Record.{upper_of, consistent};
ghost use Rattle.integrity.specs.Examine.{framed, seen_by, found_by, met_by};

use bounds::Bounds;
use lines::Lines;
use model::Ledger;

// The highest item line (document 02, (vi)).
pub const MOST_ITEM: u8 = 99;

// N, and the lowest place, from 0, of the order that is looked for, where it stands among the lines written.
#[derive(Clone, Copy, Debug, PartialEq)]
pub struct Found {
    pub count: u64,
    pub place: Option<usize>,
}

// N, and the first order of a bundle that stands in an earlier line, by its place in the bundle, with the lowest such line, by its place: the
// number of orders and of all lines where none does. The earlier lines are those written and the orders before it. (No `Option` inside: specs/Again
// `first_again` and `place_again` answer these numbers.)
#[derive(Clone, Copy, Debug, PartialEq)]
pub struct Met {
    pub count: u64,
    pub first: usize,
    pub place: usize,
}

// Whether the cells past n are 0.
fn packed(bounds: Bounds) -> bool
    requires { bounds.parts ≤ 24 }
    ensures { result ≡ same bounds.upper (cells_of (upper_of bounds)) }
{
    let upper = bounds.upper;
    upper[bounds.parts..].iter().all(|cell| *cell == 0)
}

// N where the tests of number 16 that look at no line hold, of columns with room for so many lines. More than MOST_ENTRIES entries never belong to a
// column, so the next serial fits 64 bits.
fn frame(ledger: Ledger, room: usize) -> Option<u64>
    ensures { result ≡ seen_by (framed ledger room) ledger }
{
    let entries = ledger.entries;
    if bounds::MOST_ENTRIES < entries {
        return None;
    }
    let Ok(at) = rank::locate_record(ledger.bounds, entries + 1) else {
        return None;
    };
    let count = at.count;
    if bounds::MOST_ENTRIES < count || room < count as usize || count < entries {
        return None;
    }
    if ledger.next != at.composition || !packed(ledger.bounds) {
        return None;
    }
    Some(count)
}

// Whether so many of the lines written are spoilt as the record says, and the others sold.
fn counted(ledger: Ledger, zeros: usize) -> bool
    requires { zeros ≤ ledger.entries }
    ensures { result ≡ both (eqb ledger.voided zeros) (eqb ledger.sold (ledger.entries - zeros)) }
{
    let voided = zeros as u64;
    ledger.voided == voided && ledger.sold == ledger.entries - voided
}

// N of a record and columns that nobody has checked, where they belong together. (Record and columns come apart, as the C interface lends them; inside they
// are `Lines`.)
pub fn examine(ledger: Ledger, orders: &[u32], items: &[u8]) -> Option<u64>
    ensures { result ≡ seen_by (consistent ledger (columns orders.now items.now)) ledger }
{
    let lent = Lines::of(orders, items);
    let count = frame(ledger, lent.len())?;
    let n = ledger.entries as usize;
    let zeros = pass::scan(lent.part(0, n))?;
    counted(ledger, zeros).then_some(count)
}

// The same, and where an order stands.
pub fn examine_for(
    ledger: Ledger,
    orders: &[u32],
    items: &[u8],
    order: u32,
    item: u8,
) -> Option<Found>
    ensures { result ≡ found_by (consistent ledger (columns orders.now items.now)) ledger
        (columns orders.now items.now) (entry order item) }
{
    let lent = Lines::of(orders, items);
    let count = frame(ledger, lent.len())?;
    let written = lent.part(0, ledger.entries as usize);
    let passed = pass::seek(written, order, item)?;
    counted(ledger, passed.zeros).then_some(Found {
        count,
        place: passed.place,
    })
}

// The same, and the first order of a bundle that stands in an earlier line; of a bundle with another number of item lines those orders that have one.
pub fn examine_all(
    ledger: Ledger,
    orders: &[u32],
    items: &[u8],
    bundle: &[u32],
    itemlines: &[u8],
) -> Option<Met>
    ensures { result ≡ met_by (consistent ledger (columns orders.now items.now)) ledger
        (columns orders.now items.now) (columns bundle.now itemlines.now) }
{
    let lent = Lines::of(orders, items);
    let count = frame(ledger, lent.len())?;
    let lines = lent.part(0, ledger.entries as usize);
    let swept = meet::meet(lines, Lines::of(bundle, itemlines))?;
    counted(ledger, swept.zeros).then_some(Met {
        count,
        first: swept.first,
        place: swept.place,
    })
}
