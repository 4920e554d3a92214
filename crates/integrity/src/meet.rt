// The pass over the lines written that looks for all orders of a bundle at once. A table of marks by the remainder of an order's number tells of most
// lines that they are none of the orders; only a marked line is compared with them, number and item line.
ghost use Rattle.std.specs.Prelude.{◌≡◌, false, List, ◌+◌, ◌%◌, ◌≤◌, ◌<◌, length};
ghost use Rattle.bounds.specs.Places.{most_entries};
ghost use Rattle.model.specs.Entry.{Entry, voided_in};
ghost use Rattle.integrity.specs.Lines.{lines_in, if_sound};
ghost use Rattle.integrity.specs.Again.{first_again, place_again};
ghost use Rattle.integrity.specs.Sift.{Sifted, slots, Marked, Unmarked};

use crate::lines::{BLOCK, Lines};
use crate::pass;

const SLOTS: usize = 8192;

// The first order known to stand in an earlier line, by its place in the bundle, and the lowest such line; the number of orders and of all lines where
// none is, as specs/Sift `Sifted` says it, so that a lower order wins by one comparison.
#[derive(Clone, Copy)]
struct Hit {
    first: usize,
    place: usize,
}

// How many lines are spoilt, and the first order that stands in an earlier line, with the lowest such line.
#[derive(Clone, Copy)]
pub(crate) struct Swept {
    pub(crate) zeros: usize,
    pub(crate) first: usize,
    pub(crate) place: usize,
}

fn slot(order: u32) -> usize
    ensures { (result ≡ order % slots) × (result < slots) }
{
    order as usize % SLOTS
}

// The first order that stands earlier in the bundle; the orders before it are marked. Two orders may share a slot, so one whose slot is marked
// already is searched for. (One `if` in another: a chain of conditions gives the case of none no name that a proof could cite.)
fn mark(bundle: Lines, marks: &mut [u8]) -> Hit
    requires { length marks.old ≡ slots }
    ensures sifted { (l : List Entry) → Sifted l (lines_in bundle.entry) 0 result.first (length l + result.place) }
    ensures marked { Marked marks.new bundle.entry.orders.now result.first }
    ensures within { result.place ≤ length bundle.entry.orders.now }
{
    for (i, order) in bundle.orders.iter().enumerate() {
        let s = slot(*order);
        if marks[s] != 0 {
            if let Some(place) = pass::search(bundle.part(0, i), *order, bundle.items[i]) {
                return Hit { first: i, place };
            }
        }
        marks[s] = 1;
    }
    let n = bundle.len();
    Hit { first: n, place: n }
}

// The lines from place `from` up to `to`, one by one. An order that is found once more keeps its lower line, and a lower order of the bundle wins. (The marks
// come apart from the hit: they stay as they are while it changes. One `if` in another, as in `mark`.)
fn look(lines: Lines, from: usize, to: usize, bundle: Lines, marks: &[u8], start: Hit) -> Hit
    requires range { (from ≤ to) × (to ≤ length lines.orders.now) }
    requires marked { Marked marks.now bundle.orders.now start.first }
    requires sifted { Sifted (lines_in lines) (lines_in bundle) from start.first start.place }
    ensures sifted { Sifted (lines_in lines.entry) (lines_in bundle.entry) to result.first result.place }
    ensures fewer { result.first ≤ start.first }
{
    let mut hit = start;
    for i in from..to {
        let order = lines.orders[i];
        if marks[slot(order)] != 0 {
            if let Some(k) = pass::find(bundle, order, lines.items[i]) {
                if k < hit.first {
                    hit = Hit { first: k, place: i };
                }
            }
        }
    }
    hit
}

// Whether one of eight lines is marked: their marks are added up, without a branch.
fn marked(orders: &[u32], marks: &[u8]) -> bool
    requires { (length orders.now ≤ 8) × (length marks.now ≡ slots) }
    ensures { result ≡ false → Unmarked marks.now orders.now 0 (length orders.now) }
{
    let mut sum = 0;
    for order in orders {
        sum += usize::from(marks[slot(*order)]);
    }
    sum != 0
}

// The lines from place `from` up to `to`, eight at a time: where none of them is marked they are passed over.
fn sift(lines: Lines, from: usize, to: usize, bundle: Lines, marks: &[u8], start: Hit) -> Hit
    requires range { (from ≤ to) × (to ≤ length lines.orders.now) }
    requires marked { Marked marks.now bundle.orders.now start.first }
    requires sifted { Sifted (lines_in lines) (lines_in bundle) from start.first start.place }
    ensures sifted { Sifted (lines_in lines.entry) (lines_in bundle.entry) to result.first result.place }
    ensures fewer { result.first ≤ start.first }
{
    let mut hit = start;
    let eights = (to - from) / 8;
    for j in 0..eights {
        let at = from + 8 * j;
        if marked(&lines.orders[at..at + 8], marks) {
            hit = look(lines, at, at + 8, bundle, marks, hit);
        }
    }
    look(lines, from + 8 * eights, to, bundle, marks, hit)
}

// Block by block, so that the lines whose zeros are counted are still at hand.
fn sweep(lines: Lines, bundle: Lines, marks: &[u8], start: Hit) -> Option<Swept>
    requires few { length lines.orders.now ≤ most_entries }
    requires marked { Marked marks.now bundle.orders.now start.first }
    requires sifted { Sifted (lines_in lines) (lines_in bundle) 0 start.first start.place }
    ensures { result ≡ if_sound (lines_in lines.entry) (record {
      zeros = voided_in (lines_in lines.entry);
      first = first_again (lines_in lines.entry) (lines_in bundle.entry);
      place = place_again (lines_in lines.entry) (lines_in bundle.entry);
    }) }
{
    let mut zeros = 0;
    let mut hit = start;
    for k in 0..lines.blocks() {
        let from = k * BLOCK;
        let to = lines.len().min(from + BLOCK);
        zeros += pass::voids(lines.part(from, to))?;
        hit = sift(lines, from, to, bundle, marks, hit);
    }
    Some(Swept {
        zeros,
        first: hit.first,
        place: hit.place,
    })
}

// The spoilt lines, and the first order of the bundle that stands in an earlier line.
pub(crate) fn meet(lines: Lines, bundle: Lines) -> Option<Swept>
    requires { length lines.orders.now ≤ most_entries }
    ensures { result ≡ if_sound (lines_in lines.entry) (record {
      zeros = voided_in (lines_in lines.entry);
      first = first_again (lines_in lines.entry) (lines_in bundle.entry);
      place = place_again (lines_in lines.entry) (lines_in bundle.entry);
    }) }
{
    let mut marks = [0u8; SLOTS];
    let hit = mark(bundle, &mut marks);
    let start = Hit {
        first: hit.first,
        place: lines.len() + hit.place,
    };
    sweep(lines, bundle, &marks, start)
}
