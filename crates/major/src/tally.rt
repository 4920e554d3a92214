// How many of the sheets that are left are at most v, for each v up to 25, in two words: one sheet fewer is a subtraction, and counting is reading.
ghost use Rattle.std.specs.Prelude.{◌≡◌, ℕ, ◌<◌};
ghost use Rattle.major.specs.Tally.{Tallies, Among, fewer};

use crate::bits;

// The v below 16 have 4 bits each of `low`, the others 5 bits each of `high`.
#[derive(Clone, Copy)]
pub(crate) struct Tally {
    low: u64,
    high: u64,
}

// A 1 for each v of `low`, and of `high`.
const EACH_LOW: u64 = 0x1111_1111_1111_1111;

const EACH_HIGH: u64 = 0x2108_4210_8421;

impl Tally {
    // Of 1..25, v are at most v; and so it is of 1..k for every smaller k, as far as v is one of them.
    pub(crate) fn all() -> Tally
        ensures { Tallies result (λ v. v) }
    {
        Tally {
            low: 0xfedc_ba98_7654_3210,
            high: 0x3_38bd_ab49_ca30,
        }
    }

    // How many are at most v. (Read as `Left` reads a sheet, but at other places and widths: one function for both would take six numbers.)
    pub(crate) fn up_to(self, v: usize) -> usize
        requires { v < 26 }
        ensures { (f : ℕ → ℕ) → Tallies self f → result ≡ f v }
    {
        if v < 16 {
            bits::read(self.low, 4 * v, 4) as usize
        } else {
            bits::read(self.high, 5 * (v - 16), 5) as usize
        }
    }

    // Without the sheet x.
    pub(crate) fn without(self, x: usize) -> Tally
        requires { (x < 26) × ((f : ℕ → ℕ) × Among self x f) }
        ensures { (f : ℕ → ℕ) → Among self x f → Tallies result (fewer x f) }
    {
        if x < 16 {
            Tally {
                low: self.low - bits::upward(EACH_LOW, 4 * x),
                high: self.high - EACH_HIGH,
            }
        } else {
            Tally {
                low: self.low,
                high: self.high - bits::upward(EACH_HIGH, 5 * (x - 16)),
            }
        }
    }
}
