// The passes over the lines written, block by block: how many are spoilt, and where an order stands; nothing where a line is unsound. Comparisons are
// added up without a branch, in 32 bits as the orders have, so that the compiler takes several at a time.
ghost use Rattle.std.specs.Prelude.{◌≡◌, ◌++◌, ◌≤◌, length};
ghost use Rattle.bounds.specs.Places.{most_entries};
ghost use Rattle.walsh.specs.Tests.{times};
ghost use Rattle.model.specs.Entry.{entry, voided_in};
ghost use Rattle.integrity.specs.Lines.{lines_in, if_sound, stands_at};

use crate::lines::{BLOCK, Lines};
use crate::sound;

// How many lines are spoilt, and the lowest place of the order, where it stands among them.
#[derive(Clone, Copy)]
pub(crate) struct Passed {
    pub(crate) zeros: usize,
    pub(crate) place: Option<usize>,
}

// How many orders of a block are 0, and how many have the number that is looked for.
#[derive(Clone, Copy)]
struct Counts {
    zeros: u32,
    hits: u32,
}

// How many orders have this number. (A sum of its own: `filter` and `count` add in 64 bits and took five times as long.)
fn count(orders: &[u32], order: u32) -> u32
    requires { length orders.now ≤ most_entries }
    ensures { result ≡ times order orders.now }
{
    let mut hits = 0;
    for x in orders {
        hits += u32::from(*x == order);
    }
    hits
}

// The same of 0 too, in one pass.
fn count_both(orders: &[u32], order: u32) -> Counts
    requires { length orders.now ≤ most_entries }
    ensures { (result.zeros ≡ times 0 orders.now) × (result.hits ≡ times order orders.now) }
{
    let mut zeros = 0;
    let mut hits = 0;
    for x in orders {
        zeros += u32::from(*x == 0);
        hits += u32::from(*x == order);
    }
    Counts { zeros, hits }
}

// The lowest place of an order. (A range, since both columns are read at the place that is the answer.)
pub(crate) fn search(lines: Lines, order: u32, item: u8) -> Option<usize>
    ensures { result ≡ stands_at (entry order item) (lines_in lines.entry) }
{
    for k in 0..lines.orders.len() {
        if lines.orders[k] == order && lines.items[k] == item {
            return Some(k);
        }
    }
    None
}

// The same of lines that mostly do not have the number: it is searched for where it stands among them, or they are more than a block.
pub(crate) fn find(lines: Lines, order: u32, item: u8) -> Option<usize>
    ensures { result ≡ stands_at (entry order item) (lines_in lines.entry) }
{
    if lines.len() <= BLOCK && count(lines.orders, order) == 0 {
        return None;
    }
    search(lines, order, item)
}

// How many lines of a block are spoilt.
pub(crate) fn voids(block: Lines) -> Option<usize>
    requires { length block.orders.now ≤ most_entries }
    ensures { result ≡ if_sound (lines_in block.entry) (voided_in (lines_in block.entry)) }
{
    let zeros = count(block.orders, 0) as usize;
    sound::sound(block, zeros).then_some(zeros)
}

// How many orders of a block are 0, and of another as long: two at a time, so that the speed of so short a loop does not hang on where the linker puts it.
fn twin_zeros(low: &[u32], high: &[u32]) -> (u32, u32)
    requires even { length high.now ≡ length low.now }
    requires few { length low.now ≤ most_entries }
    ensures { (result.0 ≡ times 0 low.now) × (result.1 ≡ times 0 high.now) }
{
    let mut first = 0;
    let mut second = 0;
    for i in 0..low.len() {
        first += u32::from(low[i] == 0);
        second += u32::from(high[i] == 0);
    }
    (first, second)
}

// How many lines of two blocks as long as each other are spoilt.
fn twins(low: Lines, high: Lines) -> Option<usize>
    requires even { length high.orders.now ≡ length low.orders.now }
    requires few { length low.orders.now ≤ most_entries }
    ensures { result ≡ if_sound (lines_in low.entry ++ lines_in high.entry) (voided_in (lines_in low.entry ++ lines_in high.entry)) }
{
    let (first, second) = twin_zeros(low.orders, high.orders);
    let sound = sound::sound(low, first as usize);
    let zeros = first as usize + second as usize;
    (sound && sound::sound(high, second as usize)).then_some(zeros)
}

// The same of two parts as long as each other, a block of each at a time.
fn halves(low: Lines, high: Lines) -> Option<usize>
    requires even { length high.orders.now ≡ length low.orders.now }
    requires few { length low.orders.now ≤ most_entries }
    ensures { result ≡ if_sound (lines_in low.entry ++ lines_in high.entry) (voided_in (lines_in low.entry ++ lines_in high.entry)) }
{
    let mut zeros = 0;
    for k in 0..low.blocks() {
        let from = k * BLOCK;
        let to = low.len().min(from + BLOCK);
        let first = low.part(from, to);
        let second = high.part(from, to);
        zeros += twins(first, second)?;
    }
    Some(zeros)
}

// How many lines are spoilt: those of both halves, and the last line where there is one more. (How many lines there may be is asked for, here and where a
// bundle is met: `Lines` are of columns of any length.)
pub(crate) fn scan(lines: Lines) -> Option<usize>
    requires { length lines.orders.now ≤ most_entries }
    ensures { result ≡ if_sound (lines_in lines.entry) (voided_in (lines_in lines.entry)) }
{
    let half = lines.len() / 2;
    let even = half + half;
    let low = lines.part(0, half);
    let high = lines.part(half, even);
    let most = halves(low, high)?;
    let rest = lines.part(even, lines.len());
    let last = voids(rest)?;
    Some(most + last)
}

// The same of one block, and how many of its lines have a number.
fn block_counts(block: Lines, order: u32) -> Option<Counts>
    requires { length block.orders.now ≤ most_entries }
    ensures { result ≡ if_sound (lines_in block.entry)
        (record { zeros = voided_in (lines_in block.entry); hits = times order block.entry.orders.now }) }
{
    let counts = count_both(block.orders, order);
    sound::sound(block, counts.zeros as usize).then_some(counts)
}

// The spoilt lines, and where an order stands: it is searched for in the blocks that have its number, until one has it. (One `if` in another, as in
// `meet::mark`.)
pub(crate) fn seek(lines: Lines, order: u32, item: u8) -> Option<Passed>
    requires { length lines.orders.now ≤ most_entries }
    ensures { result ≡ if_sound (lines_in lines.entry)
        (record { zeros = voided_in (lines_in lines.entry); place = stands_at (entry order item) (lines_in lines.entry) }) }
{
    let mut zeros = 0;
    let mut place = None;
    for k in 0..lines.blocks() {
        let from = k * BLOCK;
        let block = lines.part(from, lines.len().min(from + BLOCK));
        let counts = block_counts(block, order)?;
        zeros += counts.zeros as usize;
        if place.is_none() && counts.hits != 0 {
            if let Some(at) = search(block, order, item) {
                place = Some(from + at);
            }
        }
    }
    Some(Passed { zeros, place })
}
