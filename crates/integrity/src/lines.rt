// Lines, as they stand in two columns: the order numbers and, beside them, as many item lines.
ghost use Rattle.std.specs.Prelude.{◌≡◌, length};

// A pass looks at so many lines at a time, so that what it reads twice is still at hand.
pub(crate) const BLOCK: usize = 1024;

#[derive(Clone, Copy)]
pub(crate) struct Lines<'a> {
    pub(crate) orders: &'a [u32],
    pub(crate) items: &'a [u8],
    ghost paired: { length items.now ≡ length orders.now },
}

impl<'a> Lines<'a> {
    ghost use Rattle.std.specs.Prelude.{◌-◌, ◌*◌, ◌≤◌, ◌<◌, ℕ, take, drop};
    ghost use Rattle.model.specs.Entry.{pairs};
    ghost use Rattle.integrity.specs.Lines.{lines_in};

    // As many lines as both columns have.
    pub(crate) fn of(orders: &'a [u32], items: &'a [u8]) -> Lines<'a>
        ensures { lines_in result ≡ pairs orders.now items.now }
    {
        let n = orders.len().min(items.len());
        Lines {
            orders: &orders[..n],
            items: &items[..n],
        }
    }

    pub(crate) fn len(self) -> usize
        ensures { result ≡ length self.entry.orders.now }
    {
        self.orders.len()
    }

    // The lines from place `from` up to `to`.
    pub(crate) fn part(self, from: usize, to: usize) -> Lines<'a>
        requires { (from ≤ to) × (to ≤ length self.orders.now) }
        ensures lines { lines_in result ≡ take (to - from) (drop from (lines_in self.entry)) }
        ensures orders { result.orders.now ≡ take (to - from) (drop from self.entry.orders.now) }
    {
        Lines {
            orders: &self.orders[from..to],
            items: &self.items[from..to],
        }
    }

    // How many blocks there are; the last may be shorter.
    pub(crate) fn blocks(self) -> usize
        ensures some { (k : ℕ) → k < result → k * 1024 < length self.entry.orders.now }
        ensures all { length self.entry.orders.now ≤ result * 1024 }
    {
        self.orders.len().div_ceil(BLOCK)
    }
}
