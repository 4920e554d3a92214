// What a peek, a claim, a void and a bundle answer (document 01, "Refusals", places 'register calls' to 'look'; document 02, (v) to (vii)). Nothing is
// written here: crate `ledger` has the calls.
#![tactic(auto)]

ghost use Rattle.std.specs.Prelude.{◌≡◌, true, false, cond, Some, ◌+◌, ◌<◌};
ghost use Rattle.bounds.specs.Places.{most_entries};
ghost use Rattle.bounds.specs.Reason.{coded, told};
ghost use Rattle.bounds.specs.Refusal.{refused, first_refusal};
ghost use Rattle.model.specs.Printing.{size};
ghost use Rattle.model.specs.Entry.{entry, columns};
ghost use Rattle.model.specs.Model.{Call, bad_bundle, order_checks, answer};
ghost use Rattle.model.specs.Record.{printing_of, written, consistent, answered, peeking};
ghost use Rattle.model.specs.Results.{answer_of, peeked_of};
ghost use Rattle.integrity.specs.Examine.{met_by};

use bounds::Reason;
use integrity::Met;
use model::{Ledger, Line, Peek};

// The next serial with its composition, which the record holds.
fn next_line(ledger: Ledger) -> Line
    requires { ledger.entries < most_entries }
    ensures { result ≡ record { serial = ledger.entries + 1; composition = ledger.next } }
{
    let composition = ledger.next;
    Line {
        serial: ledger.entries + 1,
        composition,
    }
}

// (Record and columns come apart in each, as the C interface lends them.)
//
// document 01: look. The next serial with its composition; nothing is reserved. Document 02, (i): and the pair of that serial, by one step back from
// the record's composition.
pub fn peek(ledger: Ledger, orders: &[u32], items: &[u8]) -> Result<Peek, Reason>
    ensures { peeked_of result ≡ peeking ledger (columns orders.now items.now) }
{
    let count = integrity::examine(ledger, orders, items).ok_or(Reason::Ledger)?;
    if count <= ledger.entries {
        return Err(Reason::Full);
    }
    let line = next_line(ledger);
    let n = ledger.bounds.parts;
    let upper = ledger.bounds.upper;
    let mut before = ledger.next;
    let pair = step::retreat(&upper[..n], ledger.bounds.total, &mut before[..n]);
    Ok(Peek { line, pair })
}

// The checks of an order by itself: 17, 26 and 25.
fn check_order(order: u32, item: u8) -> Result<(), Reason>
    ensures { told result ≡ first_refusal (order_checks (entry order item)) }
{
    if order == 0 {
        return Err(Reason::Order);
    }
    if !digits::passes(order) {
        return Err(Reason::CheckDigit);
    }
    if item == 0 || integrity::MOST_ITEM < item {
        return Err(Reason::Item);
    }
    Ok(())
}

// The checks of a serial, 6, 18 and 19, which are those of a void.
fn place(
    ledger: Ledger,
    orders: &[u32],
    items: &[u8],
    count: u64,
    serial: u64,
) -> Result<Line, Reason>
    requires { (consistent ledger (columns orders.now items.now) ≡ true) × (count ≡ size (printing_of ledger)) }
    ensures { answer_of result ≡ answer (printing_of ledger) (written ledger (columns orders.now items.now)) (Call.void serial) }
{
    if serial == 0 || count < serial {
        return Err(Reason::Serial);
    }
    let next = ledger.entries + 1;
    if serial < next {
        let at = (serial - 1) as usize;
        return Err(Reason::Written(u64::from(orders[at])));
    }
    if next < serial {
        return Err(Reason::Ahead(next));
    }
    Ok(next_line(ledger))
}

// document 01: take. The places in their order: 16, those of the order, those of the serial, 20.
pub fn claim(
    ledger: Ledger,
    orders: &[u32],
    items: &[u8],
    serial: u64,
    order: u32,
    item: u8,
) -> Result<Line, Reason>
    ensures { answer_of result ≡ answered ledger (columns orders.now items.now) (Call.claim serial (entry order item)) }
{
    let found = integrity::examine_for(ledger, orders, items, order, item).ok_or(Reason::Ledger)?;
    check_order(order, item)?;
    let line = place(ledger, orders, items, found.count, serial)?;
    match found.place {
        Some(earlier) => Err(Reason::Repeated(earlier as u64 + 1)),
        None => Ok(line),
    }
}

// document 01: spoil. 16, and those of the serial.
pub fn void(ledger: Ledger, orders: &[u32], items: &[u8], serial: u64) -> Result<Line, Reason>
    ensures { answer_of result ≡ answered ledger (columns orders.now items.now) (Call.void serial) }
{
    let count = integrity::examine(ledger, orders, items).ok_or(Reason::Ledger)?;
    place(ledger, orders, items, count, serial)
}

// ---- document 02, (v): a bundle

// The most orders of a bundle.
const MOST_ORDERS: usize = 40;

// Why a bundle of no orders or of too many is refused, or one with another number of item lines: 24, but 16 stands before it.
fn missized(ledger: Ledger, orders: &[u32], items: &[u8]) -> Reason
    ensures { coded result ≡ cond (consistent ledger (columns orders.now items.now)) (refused 24 0) (refused 16 0) }
{
    match integrity::examine(ledger, orders, items) {
        Some(_) => Reason::Bundle,
        None => Reason::Ledger,
    }
}

// The takes one after another: of the first its order and its serial; then of each its order, whether a serial is left for it, and whether the order
// stands in an earlier line, those of the takes before it included. Where no take is refused, the answer is that of the first. (A range, since two lists are
// read at a place that the serial needs too.)
fn takes(
    ledger: Ledger,
    orders: &[u32],
    items: &[u8],
    serial: u64,
    bundle: &[u32],
    itemlines: &[u8],
    met: Met,
) -> Result<Line, Reason>
    requires { (consistent ledger (columns orders.now items.now) ≡ true) × ((bad_bundle (columns bundle.now itemlines.now)).holds ≡ false)
        × (Some met ≡ met_by true ledger (columns orders.now items.now) (columns bundle.now itemlines.now)) }
    ensures { answer_of result ≡ answer (printing_of ledger) (written ledger (columns orders.now items.now))
        (Call.claim_all serial (columns bundle.now itemlines.now)) }
{
    check_order(bundle[0], itemlines[0])?;
    let first = place(ledger, orders, items, met.count, serial)?;
    for k in 0..bundle.len() {
        check_order(bundle[k], itemlines[k])?;
        if met.count < serial + k as u64 {
            return Err(Reason::Serial);
        }
        if k == met.first {
            return Err(Reason::Repeated(met.place as u64 + 1));
        }
    }
    Ok(first)
}

// 16, 24, and the takes.
pub fn claim_all(
    ledger: Ledger,
    orders: &[u32],
    items: &[u8],
    serial: u64,
    bundle: &[u32],
    itemlines: &[u8],
) -> Result<Line, Reason>
    ensures { answer_of result ≡ answered ledger (columns orders.now items.now)
        (Call.claim_all serial (columns bundle.now itemlines.now)) }
{
    if itemlines.len() != bundle.len() || bundle.is_empty() || MOST_ORDERS < bundle.len() {
        return Err(missized(ledger, orders, items));
    }
    let met = integrity::examine_all(ledger, orders, items, bundle, itemlines).ok_or(
        Reason::Ledger,
    )?;
    takes(ledger, orders, items, serial, bundle, itemlines, met)
}
