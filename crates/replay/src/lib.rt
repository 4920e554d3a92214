// A whole list of calls on a newly opened ledger. The promise of `replay` is the statement about the list as a whole (document 01, "The
// register"), so a program that breaks it cannot be built.
#![tactic(auto)]

ghost use Rattle.std.specs.Prelude.{◌≡◌, true, ◌/◌, ◌<◌, eqb, length};
ghost use Rattle.bounds.specs.Places.{copied};
ghost use Rattle.model.specs.Basics.{all};
ghost use Rattle.model.specs.Entry.{columns};
ghost use Rattle.walsh.specs.Transition.{none};
ghost use Rattle.model.specs.Model.{Call, told};
ghost use Rattle.model.specs.Record.{printing_of, answered, calling};
ghost use Rattle.model.specs.Results.{opened_of};
ghost use Rattle.replay.specs.Rows.{call_width, opcode_of, call_by, uses_by, named_in, row_width, row_of};
ghost use Rattle.replay.specs.Replay.{scripted, buffers, calls_of, sizes_of, sizes, Ran, Replays};

use bounds::Reason;
use model::{Answer, Claimed, Ledger};
use walsh::Transition;

// The columns of a call in the script: which call, serial, how many orders it names, how many item lines.
const CALL: usize = 4;

const ORDERS: usize = 2;

const ITEMS: usize = 3;

// The columns of an answer: number, detail, serial, the 24 cells of the composition, gain and loss.
const ROW: usize = 29;

// Which call a row of the script is.
#[derive(Clone, Copy, Debug, PartialEq, Eq)]
enum Opcode {
    Peek,
    Claim,
    Bundle,
    Void,
}

impl From<u64> for Opcode {
    ghost from_gives = { λ which opcode. opcode ≡ opcode_of which };

    fn from(which: u64) -> Opcode {
        match which {
            0 => Opcode::Peek,
            1 => Opcode::Claim,
            3 => Opcode::Bundle,
            _ => Opcode::Void,
        }
    }
}

impl Opcode {
    // How many orders of the pool such a call uses up, or item lines, with the number in its row.
    fn uses(self, n: u64) -> usize
        ensures { result ≡ uses_by self n }
    {
        match self {
            Opcode::Peek | Opcode::Void => 0,
            Opcode::Claim => 1,
            Opcode::Bundle => n as usize,
        }
    }
}

// What a call answers, the record after it, and the pair.
#[derive(Clone, Copy)]
struct Called {
    claimed: Claimed,
    pair: Transition,
}

// What answers no pair: a claim, a bundle, a void, and a peek that is refused.
fn unpaired(claimed: Claimed) -> Called
    ensures { (result.claimed ≡ claimed) × (result.pair ≡ none) }
{
    let pair = Transition { gain: 0, loss: 0 };
    Called { claimed, pair }
}

// A peek's answer and its pair, with the record as it is.
fn look(ledger: Ledger, column: &[u32], items: &[u8]) -> Called
    ensures { (result.claimed ≡ record { answer = answered ledger (columns column.now items.now) Call.peek; ledger = ledger })
        × (result.pair ≡ told (printing_of ledger) Call.peek result.claimed.answer) }
{
    match ledger::peek(ledger, column, items) {
        Ok(seen) => {
            let answer = Answer::from(Ok(seen.line));
            Called {
                claimed: Claimed { answer, ledger },
                pair: seen.pair,
            }
        }
        Err(reason) => {
            let answer = Answer::from(Err(reason));
            unpaired(Claimed { answer, ledger })
        }
    }
}

// One call with the orders and the item lines that it names; a claim is for the first of each.
fn call(
    ledger: Ledger,
    column: &mut [u32],
    items: &mut [u8],
    opcode: Opcode,
    serial: u64,
    orders: &[u32],
    itemlines: &[u8],
) -> Called
    ensures { ((result.claimed, columns column.new items.new)
        ≡ calling ledger (columns column.old items.old) (call_by opcode serial (columns orders.now itemlines.now)))
        × (result.pair
        ≡ told (printing_of ledger) (call_by opcode serial (columns orders.now itemlines.now)) result.claimed.answer) }
{
    match opcode {
        Opcode::Peek => look(ledger, column, items),
        Opcode::Claim => {
            let order = orders.first().copied().unwrap_or(0);
            let item = itemlines.first().copied().unwrap_or(0);
            unpaired(ledger::claim(ledger, column, items, serial, order, item))
        }
        Opcode::Bundle => unpaired(ledger::claim_all(
            ledger, column, items, serial, orders, itemlines,
        )),
        Opcode::Void => unpaired(ledger::void(ledger, column, items, serial)),
    }
}

// Copies the beginning of `cells` over the beginning of `out`, as many numbers as both have. (A range: of a list
// that is written through an adapter such as `zip` nothing is known afterwards.)
fn widen(cells: &[u8], out: &mut [u64])
    ensures { out.new ≡ copied cells.now out.old }
{
    for i in 0..cells.len().min(out.len()) {
        out[i] = u64::from(cells[i]);
    }
}

// The row of an answer and the pair.
fn put(answer: Answer, pair: Transition, row: &mut [u64])
    requires { length row.old ≡ row_width }
    ensures { row.new ≡ row_of answer pair }
{
    row[0] = u64::from(answer.number);
    row[1] = answer.detail;
    row[2] = answer.serial;
    row[27] = u64::from(pair.gain);
    row[28] = u64::from(pair.loss);
    let cells = answer.composition;
    widen(&cells, &mut row[3..27]);
}

// The calls in turn, each on the record and the columns as the one before it left them.
fn run(
    ledger: Ledger,
    script: &[u64],
    orders: &[u32],
    itemlines: &[u8],
    column: &mut [u32],
    items: &mut [u8],
    answers: &mut [u64],
) -> Ledger
    requires { all
        (sizes (scripted script.now (columns orders.now itemlines.now)) (buffers (columns column.old items.old) answers.old))
        ≡ true }
    ensures { Ran ledger (calls_of (scripted script.now (columns orders.now itemlines.now)))
        (buffers (columns column.old items.old) answers.old)
        (buffers (columns column.new items.new) answers.new) result }
{
    let mut l = ledger;
    let mut next = 0;
    let mut next_item = 0;
    for i in 0..script.len() / CALL {
        let from = i * CALL;
        let opcode = Opcode::from(script[from]);
        let end = next + opcode.uses(script[from + ORDERS]);
        let end_item = next_item + opcode.uses(script[from + ITEMS]);
        let done = call(
            l,
            column,
            items,
            opcode,
            script[from + 1],
            &orders[next..end],
            &itemlines[next_item..end_item],
        );
        let claimed = done.claimed;
        let at = i * ROW;
        let row = at + ROW;
        put(claimed.answer, done.pair, &mut answers[at..row]);
        l = claimed.ledger;
        next = end;
        next_item = end_item;
    }
    l
}

// Whether a pool of so many entries has just those that the calls name, by the numbers in that column of their rows.
fn pool_fits(rows: &[u64], counts: usize, pool: usize) -> bool
    requires { counts < call_width }
    ensures { result ≡ eqb pool (named_in counts rows.now) }
{
    let mut left = pool;
    for k in 0..rows.len() / CALL {
        let start = k * CALL;
        let used = Opcode::from(rows[start]).uses(rows[start + counts]);
        if left < used {
            return false;
        }
        left -= used;
    }
    left == 0
}

// Whether a script has whole rows, a buffer of so many numbers a row for each call, and pools of so many orders and item lines those that the calls
// name.
fn fits(script: &[u64], answers: usize, orders: usize, itemlines: usize) -> bool
    ensures { result ≡ all (sizes_of script.now (length script.now / call_width) answers orders itemlines) }
{
    script.len() % CALL == 0
        && answers % ROW == 0
        && answers / ROW == script.len() / CALL
        && pool_fits(script, ORDERS, orders)
        && pool_fits(script, ITEMS, itemlines)
}

// A list of calls on a newly opened ledger over `column` and, beside it, `items`. The script has a row of four numbers for each call, and the pools
// `orders` and `itemlines` just the orders and the item lines that the calls name, in turn: a claim one of each, a bundle as many of either as its
// row says. The answers go into the lent buffer, a row of 29 numbers each. A refusal writes nothing.
pub fn replay(
    upper: &[u8],
    total: u32,
    script: &[u64],
    orders: &[u32],
    itemlines: &[u8],
    column: &mut [u32],
    items: &mut [u8],
    answers: &mut [u64],
) -> Result<Ledger, Reason>
    ensures { Replays (record { bounds = upper.now; total = total })
        (scripted script.now (columns orders.now itemlines.now))
        (buffers (columns column.old items.old) answers.old)
        (buffers (columns column.new items.new) answers.new) (opened_of result) }
{
    let opened = ledger::open(upper, total, column, items)?;
    if !fits(script, answers.len(), orders.len(), itemlines.len()) {
        return Err(Reason::Room);
    }
    Ok(run(opened, script, orders, itemlines, column, items, answers))
}
