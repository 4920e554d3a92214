// Permutations of 1..k by major index (document 02, (iii)): the second reading of compositions of staircase bounds. Nothing is turned: turns keep the
// circle of the first i sheets, so these are always the sheets that are left, in rising order, turned, and each row draws one of them.
#![tactic(auto)]

mod bits;
mod left;
mod tally;

ghost use Rattle.std.specs.Prelude.{◌≡◌, List, ℕ, ◌≤◌, ◌<◌, refl};
ghost use Rattle.bounds.specs.Reason.{told};
ghost use Rattle.bounds.specs.declared.Refusal.{Refusal};
ghost use Rattle.bounds.specs.declared.Reason.TheVariants.{MajorIndex};
ghost use Rattle.permutation.specs.Conversions.{to_permutation, to_composition};
ghost use Rattle.major.specs.Reading.{by_major};
ghost use Rattle.major.specs.Circle.{steps_down};

use crate::left::Left;
use crate::tally::Tally;
use bounds::Reason;
use permutation::{Reads, to_composition, to_permutation};

// By major index: a composition is a McMahon code without row 1.
pub struct MajorCode;

impl Reads for MajorCode {
    ghost reading = { by_major };

    ghost OTHER = { MajorIndex };

    const OTHER: Reason = Reason::MajorIndex;

    // From row k down: the sheet that stays behind is drawn from those that are left.
    fn fill(g: &[u8], out: &mut [u8]) {
        let mut left = Left::all();
        let mut place = 0;
        for i in (1..out.len()).rev() {
            place = steps_down(i + 1, place, usize::from(g[g.len() - i]));
            out[i] = left.at(place);
            left = left.without(place);
        }
        out[0] = left.at(0);
    }

    // From row k down. A sheet's place is how many of those in front of it are smaller: without the sheet itself, as many as are at most it.
    fn find(p: &[u8], cells: &mut [u8]) -> u32 {
        let mut sum = 0u32;
        let mut front = Tally::all();
        let mut next = 0;
        for i in (1..p.len()).rev() {
            let x = usize::from(p[i]);
            front = front.without(x);
            let place = front.up_to(x);
            let t = steps_down(i + 1, next, place);
            cells[p.len() - 1 - i] = t as u8;
            sum += t as u32;
            next = place;
        }
        sum
    }

    ghost other_is = { refl };
}

// From place s, t + 1 steps down the circle of the i sheets that are left. (As many steps lead back, so that both ways are one.)
fn steps_down(i: usize, s: usize, t: usize) -> usize
    requires { (i ≤ 25) × (s ≤ i) × (t < i) }
    ensures { result ≡ steps_down i s t }
{
    if t < s { s - 1 - t } else { s + i - 1 - t }
}

// document 02, (iii): mix to order. Fills the lent part with the permutation whose code is the composition.
pub fn permutation(
    upper: &[u8],
    total: u32,
    composition: &[u8],
    out: &mut [u8],
) -> Result<(), Reason>
    ensures { ◌≡◌ {A = Refusal × List ℕ} (told result, out.new)
        (to_permutation by_major upper.now total composition.now out.old) }
{
    to_permutation::<MajorCode>(upper, total, composition, out)
}

// document 02, (iii): order to mix. Fills the lent part with the code of the permutation.
pub fn code(upper: &[u8], total: u32, permutation: &[u8], out: &mut [u8]) -> Result<(), Reason>
    ensures { ◌≡◌ {A = Refusal × List ℕ} (told result, out.new)
        (to_composition by_major upper.now total permutation.now out.old) }
{
    to_composition::<MajorCode>(upper, total, permutation, out)
}
