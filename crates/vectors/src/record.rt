// Openings, and calls on a record that nobody has checked.
ghost use Rattle.vectors.specs.Commands.{IsOnward};

use crate::read::Commands;
use crate::room;
use crate::room::ENTRIES;
use crate::show::Answers;
use model::Ledger;

// The next record: number of parts, 24 cells, total, entries, sold, voided, 24 cells.
fn record(from: &mut Commands) -> Ledger
    ensures { IsOnward from.old from.new }
{
    let mut upper = [0u8; 24];
    let mut next = [0u8; 24];
    let parts = from.number() as usize;
    from.list(&mut upper);
    let total = from.total();
    let entries = from.number();
    let sold = from.number();
    let voided = from.number();
    from.list(&mut next);
    Ledger {
        bounds: bounds::Bounds {
            parts,
            upper,
            total,
        },
        entries,
        sold,
        voided,
        next,
    }
}

// opening: n, upper, total, entries of the order column, entries of the item column: number, detail; the record
pub(crate) fn opening(to: &mut Answers, from: &mut Commands)
    ensures { IsOnward from.old from.new }
{
    let mut upper = [0u8; 64];
    let column: [u32; ENTRIES] = room::filled();
    let items: [u8; ENTRIES] = room::filled();
    let upper = from.list(&mut upper);
    let total = from.total();
    let orders = from.number();
    let itemlines = from.number();
    to.opened(ledger::open(
        upper,
        total,
        room::part(&column, orders),
        room::part(&items, itemlines),
    ));
}

// What a call answers, and the record after it: 0 peek, 1 claim for the first order and the first item line, 3 bundle of all of them, any other void. (By the
// number that the command has; `replay` has a type for it, of its own.)
fn called(
    to: &mut Answers,
    ledger: Ledger,
    column: &mut [u32],
    items: &mut [u8],
    which: u64,
    serial: u64,
    orders: &[u32],
    itemlines: &[u8],
) {
    match which {
        0 => to.peeked(ledger::peek(ledger, column, items), ledger),
        1 => {
            let order = orders.first().copied().unwrap_or(0);
            let item = itemlines.first().copied().unwrap_or(0);
            to.claimed(ledger::claim(ledger, column, items, serial, order, item));
        }
        3 => to.claimed(ledger::claim_all(ledger, column, items, serial, orders, itemlines)),
        _ => to.claimed(ledger::void(ledger, column, items, serial)),
    }
}

// The next call, of a record and two columns.
fn called_with(
    to: &mut Answers,
    from: &mut Commands,
    ledger: Ledger,
    column: &mut [u32],
    items: &mut [u8],
)
    ensures { IsOnward from.old from.new }
{
    let mut orders: [u32; ENTRIES] = room::filled();
    let mut itemlines: [u8; ENTRIES] = room::filled();
    let which = from.number();
    let serial = from.number();
    let orders = from.list(&mut orders);
    let itemlines = from.list(&mut itemlines);
    called(to, ledger, column, items, which, serial, orders, itemlines);
}

// call: k, record, order column, item column, which call, serial, orders, item lines: the order numbers before, the item lines before; number, detail,
// serial, 24 cells, of a peek gain and loss too; the record; the order column; the item column
pub(crate) fn call(to: &mut Answers, from: &mut Commands)
    ensures { IsOnward from.old from.new }
{
    let mut column: [u32; ENTRIES] = room::filled();
    let mut items: [u8; ENTRIES] = room::filled();
    let ledger = record(from);
    let column = from.list(&mut column);
    let items = from.list(&mut items);
    to.list(ledger::entries(ledger, column, items));
    to.list(ledger::entry_items(ledger, column, items));
    called_with(to, from, ledger, column, items);
    to.list(column);
    to.list(items);
}
