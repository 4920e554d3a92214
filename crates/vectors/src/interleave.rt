// A list of calls on a newly opened ledger, as several workers make them in turn. The command has the bounds and the total, the order column and the
// item column as they are before, the script with four numbers a call, the pools of the orders that the calls name and of their item lines, and the
// length of the buffer for the answers. It is answered by number and detail, a line for the record after the last call, a line for each column and a
// line for the rows.
ghost use Rattle.vectors.specs.Commands.{IsOnward};

use crate::read::Commands;
use crate::room;
use crate::room::{ENTRIES, NUMBERS};
use crate::show::Answers;

// What the next script answers and leaves.
fn scripted(
    to: &mut Answers,
    from: &mut Commands,
    upper: &[u8],
    total: u32,
    column: &mut [u32],
    items: &mut [u8],
)
    ensures { IsOnward from.old from.new }
{
    let mut script: [u64; NUMBERS] = room::filled();
    let mut orders: [u32; ENTRIES] = room::filled();
    let mut itemlines: [u8; ENTRIES] = room::filled();
    let mut answers: [u64; NUMBERS] = room::filled();
    let script = from.list(&mut script);
    let orders = from.list(&mut orders);
    let itemlines = from.list(&mut itemlines);
    let rows = room::lent(&mut answers, from.number());
    to.opened(replay::replay(upper, total, script, orders, itemlines, column, items, rows));
    to.list(column);
    to.list(items);
    to.list(rows);
}

pub(crate) fn list(to: &mut Answers, from: &mut Commands)
    ensures { IsOnward from.old from.new }
{
    let mut upper = [0u8; 64];
    let mut column: [u32; ENTRIES] = room::filled();
    let mut items: [u8; ENTRIES] = room::filled();
    let upper = from.list(&mut upper);
    let total = from.total();
    let column = from.list(&mut column);
    let items = from.list(&mut items);
    scripted(to, from, upper, total, column, items);
}
