// The ledger (document 01, "The register"): open, peek, claim, void, and the claim of several (document 02, (v)), on a record by value and two columns
// that the caller lends, the order numbers and, beside them, the item lines (document 02, (vi)). What a list of such calls guarantees is `from_opening` in
// crate `model`, proofs/Whole.antt; crate `replay` runs a whole list under it.
#![tactic(auto)]

ghost use Rattle.std.specs.Prelude.{◌≡◌, ◌+◌, ◌≤◌, ◌<◌, length};
ghost use Rattle.bounds.specs.Places.{most_entries};
ghost use Rattle.model.specs.Printing.{size, next_composition};
ghost use Rattle.model.specs.Entry.{entry, columns, orders_of, items_of};
ghost use Rattle.model.specs.Model.{Call};
ghost use Rattle.model.specs.Record.{printing_of, opening, peeking, calling, entries_of};
ghost use Rattle.model.specs.Results.{answer_of, peeked_of, opened_of};
ghost use Rattle.ledger.specs.Counting.{counting};

use bounds::Reason;
use model::{Answer, Claimed, Ledger, Line, Peek};
use step::batch::stride;

// ---- opening

// A ledger without entries. No entry of the columns is written.
pub fn open(upper: &[u8], total: u32, orders: &[u32], items: &[u8]) -> Result<Ledger, Reason>
    ensures { opened_of result ≡ opening (record { bounds = upper.now; total = total }) (columns orders.now items.now) }
{
    let first = rank::locate(upper, total, 1)?;
    if bounds::MOST_ENTRIES < first.count {
        return Err(Reason::Entries);
    }
    if orders.len().min(items.len()) < first.count as usize {
        return Err(Reason::Columns);
    }
    let next = first.composition;
    Ok(Ledger {
        bounds: bounds::record(upper, total),
        entries: 0,
        sold: 0,
        voided: 0,
        next,
    })
}

// ---- what an accepted call writes

// The composition so many steps after the record's; the last stays.
fn following(ledger: Ledger, lines: usize) -> [u8; 24]
    requires { (ledger.bounds.parts ≤ 24)
        × (ledger.next ≡ next_composition (printing_of ledger) ledger.entries)
        × (0 < size (printing_of ledger)) }
    ensures { result ≡ next_composition (printing_of ledger) (ledger.entries + lines) }
{
    let bounds = ledger.bounds;
    let n = bounds.parts;
    let upper = bounds.upper;
    let mut cells = ledger.next;
    if lines == 1 {
        step::advance(&upper[..n], bounds.total, &mut cells[..n]);
        return cells;
    }
    stride(&upper[..n], bounds.total, &mut cells[..n], lines);
    cells
}

// What an accepted call answers, and the record with so many lines more and these counts. What it calls is small, so that the record is built where the
// caller hands it back, and not copied.
fn counted(
    ledger: Ledger,
    line: Line,
    next: [u8; 24],
    lines: u64,
    sold: u64,
    voided: u64,
) -> Claimed
    requires { (ledger.entries + lines ≤ most_entries) × (next ≡ next_composition (printing_of ledger) (ledger.entries + lines)) }
    ensures { result ≡ record { answer = answer_of (Ok line); ledger = counting ledger lines sold voided } }
{
    let bounds = ledger.bounds;
    let after = Ledger {
        bounds,
        entries: ledger.entries + lines,
        sold,
        voided,
        next,
    };
    Claimed {
        answer: Answer::from(Ok(line)),
        ledger: after,
    }
}

// What a refused call answers, and the record as it was.
fn turned_away(ledger: Ledger, reason: Reason) -> Claimed
    ensures { result ≡ record { answer = answer_of (Err reason); ledger = ledger } }
{
    Claimed {
        answer: Answer::from(Err(reason)),
        ledger,
    }
}

// Copies the orders and the item lines of a bundle into entries of the columns, as many. (By hand: the library's method asks C for memmove, which nothing else
// in the archive does.)
fn lay(bundle: &[u32], itemlines: &[u8], orders: &mut [u32], items: &mut [u8])
    requires even { length itemlines.now ≡ length bundle.now }
    requires room { (length orders.old ≡ length bundle.now) × (length items.old ≡ length bundle.now) }
    ensures { (orders.new ≡ bundle.now) × (items.new ≡ itemlines.now) }
{
    for k in 0..bundle.len() {
        orders[k] = bundle[k];
        items[k] = itemlines[k];
    }
}

// ---- the calls
// Record and columns come apart, as the C interface lends them: a record by value, which the answer holds anew, and columns that are written in place.

// document 01: look. The next serial with its composition and its pair; nothing is reserved.
pub fn peek(ledger: Ledger, orders: &[u32], items: &[u8]) -> Result<Peek, Reason>
    ensures { peeked_of result ≡ peeking ledger (columns orders.now items.now) }
{
    reply::peek(ledger, orders, items)
}

// document 01: take. The serial for an order and its item line; a refused one changes neither the record nor the columns.
pub fn claim(
    ledger: Ledger,
    orders: &mut [u32],
    items: &mut [u8],
    serial: u64,
    order: u32,
    item: u8,
) -> Claimed
    ensures { (result, columns orders.new items.new)
        ≡ calling ledger (columns orders.old items.old) (Call.claim serial (entry order item)) }
{
    let line = match reply::claim(ledger, orders, items, serial, order, item) {
        Ok(line) => line,
        Err(reason) => return turned_away(ledger, reason),
    };
    let next = following(ledger, 1);
    let at = ledger.entries as usize;
    orders[at] = order;
    items[at] = item;
    counted(ledger, line, next, 1, ledger.sold + 1, ledger.voided)
}

// document 01: spoil. The serial for no order. (It shares `following` and `counted` with `claim`; one function for both would take the reply, what is
// written and both counts.)
pub fn void(ledger: Ledger, orders: &mut [u32], items: &mut [u8], serial: u64) -> Claimed
    ensures { (result, columns orders.new items.new)
        ≡ calling ledger (columns orders.old items.old) (Call.void serial) }
{
    let line = match reply::void(ledger, orders, items, serial) {
        Ok(line) => line,
        Err(refused) => return turned_away(ledger, refused),
    };
    let after = following(ledger, 1);
    let entry = ledger.entries as usize;
    orders[entry] = 0;
    items[entry] = 0;
    counted(ledger, line, after, 1, ledger.sold, ledger.voided + 1)
}

// document 02, (v): a bundle. Consecutive serials from the one named on, for as many orders, each with its item line; refused, it changes neither the
// record nor the columns.
#[tactic(auto, using(model::proofs::Records::calling_refused, reply::proofs::Exits::some_number))]
pub fn claim_all(
    ledger: Ledger,
    orders: &mut [u32],
    items: &mut [u8],
    serial: u64,
    bundle: &[u32],
    itemlines: &[u8],
) -> Claimed
    ensures { (result, columns orders.new items.new)
        ≡ calling ledger (columns orders.old items.old)
        (Call.claim_all serial (columns bundle.now itemlines.now)) }
{
    let taken = match reply::claim_all(ledger, orders, items, serial, bundle, itemlines) {
        Ok(first) => first,
        Err(failed) => return turned_away(ledger, failed),
    };
    let lines = bundle.len();
    let next = following(ledger, lines);
    let at = ledger.entries as usize;
    let end = at + lines;
    lay(bundle, itemlines, &mut orders[at..end], &mut items[at..end]);
    let more = lines as u64;
    counted(ledger, taken, next, more, ledger.sold + more, ledger.voided)
}

// ---- the lines so far

// How many lines there are; none where number 16 holds.
fn written(ledger: Ledger, orders: &[u32], items: &[u8]) -> usize
    ensures { result ≡ length (entries_of ledger (columns orders.now items.now)) }
{
    match integrity::examine(ledger, orders, items) {
        Some(_) => ledger.entries as usize,
        None => 0,
    }
}

// Their order numbers, as the beginning of the lent column itself.
pub fn entries<'a>(ledger: Ledger, orders: &'a [u32], items: &[u8]) -> &'a [u32]
    ensures { (result.now ≡ orders_of (entries_of ledger (columns orders.now items.now))) × (result.ref_ptr ≡ orders.entry.ref_ptr) }
{
    let n = written(ledger, orders, items);
    &orders[..n]
}

// Their item lines, as the beginning of the lent column itself. (Two functions, as the columns are of two types; what both ask is `written`.)
pub fn entry_items<'a>(ledger: Ledger, orders: &[u32], items: &'a [u8]) -> &'a [u8]
    ensures { (result.now ≡ items_of (entries_of ledger (columns orders.now items.now))) × (result.ref_ptr ≡ items.entry.ref_ptr) }
{
    let n = written(ledger, orders, items);
    &items[..n]
}
