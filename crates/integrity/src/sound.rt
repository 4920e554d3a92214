// Whether the lines of a block are sound (document 02, (vi)): none has an item line over 99, or 0 beside a nonzero order, or one beside a spoilt order. Each
// column is looked at by itself, and both side by side only where a 0 stands in one of them: 8 and 32 bits in one loop take twice the time.
ghost use Rattle.std.specs.Prelude.{◌≡◌, ◌≤◌, eqb, length};
ghost use Rattle.bounds.specs.Places.{most_entries};
ghost use Rattle.walsh.specs.Tests.{times};
ghost use Rattle.model.specs.Basics.{how_many};
ghost use Rattle.model.specs.Entry.{is_unmatched, unsound_in};
ghost use Rattle.integrity.specs.Lines.{lines_in};
ghost use Rattle.integrity.specs.Range.{least_in, most_in};

use crate::lines::Lines;

// The least and the highest of some item lines.
#[derive(Clone, Copy)]
struct Range {
    least: u8,
    most: u8,
}

fn range_of(items: &[u8]) -> Range
    ensures { (result.least ≡ least_in items.now) × (result.most ≡ most_in items.now) }
{
    let mut least = u8::MAX;
    let mut most = 0u8;
    for x in items {
        least = least.min(*x);
        most = most.max(*x);
    }
    Range { least, most }
}

// Whether a 0 stands beside each 0. (All lines are looked at: a loop that ends at the first that does not match took seven times as long.)
fn matched(lines: Lines) -> bool
    requires { length lines.orders.now ≤ most_entries }
    ensures { result ≡ eqb (how_many is_unmatched (lines_in lines.entry)) 0 }
{
    let mut others = 0u32;
    for k in 0..lines.orders.len() {
        others += u32::from((lines.orders[k] == 0) != (lines.items[k] == 0));
    }
    others == 0
}

// Whether no line of a block is unsound, where so many of its orders are 0. Where no order and no item line is, they need not be read side by side.
pub(crate) fn sound(lines: Lines, zeros: usize) -> bool
    requires few { length lines.orders.now ≤ most_entries }
    requires zeros { zeros ≡ times 0 lines.orders.now }
    ensures { result ≡ eqb (unsound_in (lines_in lines.entry)) 0 }
{
    let range = range_of(lines.items);
    if crate::MOST_ITEM < range.most {
        return false;
    }
    if zeros == 0 && 0 < range.least {
        return true;
    }
    matched(lines)
}
