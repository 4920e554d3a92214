// The sheets that are left, in rising order, in two words: without the sheet at a place, those behind it move up by one place in a few operations.
ghost use Rattle.std.specs.Prelude.{◌≡◌, List, ℕ, suc, ◌≤◌, ◌<◌, length, get_or};
ghost use Rattle.permutation.specs.Permutation.{tabulate};
ghost use Rattle.major.specs.Circle.{erase};
ghost use Rattle.major.specs.Left.{Holds};

use crate::bits;

// 2^55: place 11 begins at this bit of `low`.
const PLACE_11: u64 = 36_028_797_018_963_968;

// The first 12 sheets have 5 bits each of `low`. The others are 13 at least: they have 4 bits each of `high`, less 13. Behind the last sheet anything
// may stand.
#[derive(Clone, Copy)]
pub(crate) struct Left {
    low: u64,
    high: u64,
}

impl Left {
    // 1..25, and so 1..k for every smaller k.
    pub(crate) fn all() -> Left
        ensures { (k : ℕ) → k ≤ 25 → Holds result (tabulate suc k) }
    {
        Left {
            low: 445_092_485_129_178_177,
            high: 3_582_863_703_552_528,
        }
    }

    // The sheet at a place.
    pub(crate) fn at(self, place: usize) -> u8
        requires { place < 25 }
        ensures { (l : List ℕ) → Holds self l → place < length l → result ≡ get_or l place 0 }
    {
        if place < 12 {
            bits::read(self.low, 5 * place, 5) as u8
        } else {
            bits::read(self.high, 4 * (place - 12), 4) as u8 + 13
        }
    }

    // Without the sheet at a place. If it is one of the first 12, the sheet at place 12 moves from `high` to `low`.
    pub(crate) fn without(self, place: usize) -> Left
        requires { place < 25 }
        ensures { (l : List ℕ) → Holds self l → place < length l → Holds result (erase place l) }
    {
        if place < 12 {
            Left {
                low: (self.high % 16 + 13) * PLACE_11 + bits::cut(self.low, 5 * place, 5),
                high: self.high / 16,
            }
        } else {
            Left {
                low: self.low,
                high: bits::cut(self.high, 4 * (place - 12), 4),
            }
        }
    }
}
