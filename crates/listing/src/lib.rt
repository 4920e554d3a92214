// A whole edition by two walks (document 02, (viii)), in which Walsh's order can be read: no serial is computed here. docs/ORDER.md shows the two
// functions beside document 01's paragraph.
//
// A composition g is set from its last part down. A walk has the first `parts` parts before it, whose bounds sum to `room`; the parts to their right
// are set and sum to t, and `rest` is what they leave of the total, r − t. It gives the last part before it, the document's kind i = `parts`, each of
// its values in turn, and for each hands the shorter edition, a part fewer, to the rising walk if the sum to the right is then even and to the falling
// walk if it is odd. A single part takes the rest: the composition is whole, and is written. A walk answers how many bytes were written, from the
// beginning of `out` on. (One function with a direction would do for both; that two walks call each other is binding: document 02, (viii).)
#![tactic(auto)]

ghost use Rattle.std.specs.Prelude.{◌≡◌, true, false, List, ℕ};
ghost use Rattle.walsh.specs.Order.{is_odd};
ghost use Rattle.bounds.specs.Reason.{told};
ghost use Rattle.bounds.specs.declared.Refusal.{Refusal};
ghost use Rattle.listing.specs.Listing.{listing_of};
ghost use Rattle.listing.specs.Walks.{Walk, Walked};

use bounds::Reason;
use walsh::is_odd;

mod put;

// The rising walk, for an even sum to the right: by ones from the least value, what the parts to the left cannot hold, to the most.
#[cycle(falling_rising)]
fn rising(
    upper: &[u8],
    g: &mut [u8],
    out: &mut [u8],
    parts: usize,
    room: usize,
    rest: usize,
    t: usize,
) -> usize
    requires { (is_odd t ≡ false) × Walk upper.now parts room rest t g.old out.old }
    ensures { Walked upper.now parts rest t g.old out.old result g.new out.new }
{
    if parts == 1 {
        g[0] = rest as u8;
        put::put(g, out);
        return g.len();
    }
    let k = parts - 1;
    let bound = usize::from(upper[k]);
    let left = room - bound; // m1 + .. + m(i−1)
    let least = rest.saturating_sub(left); // max(0, r − t − (m1 + .. + m(i−1)))
    let most = bound.min(rest); // min(mi, r − t)
    let mut at = 0;
    for j in 0..most - least + 1 {
        let v = least + j;
        g[k] = v as u8;
        if is_odd(t + v) {
            at += falling(upper, g, &mut out[at..], k, left, rest - v, t + v);
        } else {
            at += rising(upper, g, &mut out[at..], k, left, rest - v, t + v);
        }
    }
    at
}

// The falling walk, for an odd sum to the right: the same values, by ones from the most to the least.
#[cycle(falling_rising)]
fn falling(
    upper: &[u8],
    g: &mut [u8],
    out: &mut [u8],
    parts: usize,
    room: usize,
    rest: usize,
    t: usize,
) -> usize
    requires { (is_odd t ≡ true) × Walk upper.now parts room rest t g.old out.old }
    ensures { Walked upper.now parts rest t g.old out.old result g.new out.new }
{
    if parts == 1 {
        g[0] = rest as u8;
        put::put(g, out);
        return g.len();
    }
    let k = parts - 1;
    let bound = usize::from(upper[k]);
    let left = room - bound;
    let least = rest.saturating_sub(left);
    let most = bound.min(rest);
    let mut at = 0;
    for j in 0..most - least + 1 {
        let w = most - j;
        g[k] = w as u8;
        if is_odd(t + w) {
            at += falling(upper, g, &mut out[at..], k, left, rest - w, t + w);
        } else {
            at += rising(upper, g, &mut out[at..], k, left, rest - w, t + w);
        }
    }
    at
}

// Fills `out` with every composition of an edition, one behind the other in Walsh's order, or answers the refusal and writes nothing. Nothing is to
// the right of the last part, so the first walk rises. N is counted for the length of `out` alone.
pub fn list(upper: &[u8], total: u32, out: &mut [u8]) -> Result<(), Reason>
    ensures { ◌≡◌ {A = Refusal × List ℕ} (told result, out.new) (listing_of upper.now total out.old) }
{
    let n = upper.len();
    let room = bounds::shape(upper, total)?;
    let count = count::row::number(upper, total)?;
    places::check_copies(n, count, out.len())?;
    let mut g = [0u8; 24];
    rising(upper, &mut g[..n], out, n, room, total as usize, 0);
    Ok(())
}
