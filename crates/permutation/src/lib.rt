// Permutations of 1..k and the compositions of staircase bounds (document 01, "Sheet orders"): the two calls of any reading, and the reading by
// inversions.
#![tactic(auto)]

ghost use Rattle.std.specs.Prelude.{◌≡◌, List, ◌++◌, ℕ, ◌+◌, ◌-◌, ◌≤◌, ◌<◌, length, get_or, take, MatchOption, IfOk, refl};
ghost use Rattle.bounds.specs.Refusal.{refused, first_refusal};
ghost use Rattle.bounds.specs.Reason.{coded, told};
ghost use Rattle.bounds.specs.Edition.{edition_checks};
ghost use Rattle.bounds.specs.declared.Refusal.{Refusal};
ghost use Rattle.bounds.specs.declared.Reason.{Reason};
ghost use Rattle.bounds.specs.declared.Reason.TheVariants.{Inversions};
ghost use Rattle.permutation.specs.Reading.{Reading, by_inversions};
ghost use Rattle.permutation.specs.Conversions.{staircase_checks, permutation_checks, to_permutation_checks, to_composition_checks};
ghost use Rattle.permutation.specs.Conversions.{to_permutation, to_composition};
ghost use Rattle.permutation.specs.Permutation.{IsPermutation, is_permutation, inversions, inversion_vector, lift, permutation_of};
ghost use Rattle.permutation.specs.Values.{Small, HasValues};
ghost use Rattle.permutation.specs.Entries.{lifts};

use bounds::Reason;
use mahonian::is_staircase;
use places::{check_composition, check_lent};

// A way to read the compositions of staircase bounds as permutations. The calls look at what is given before they ask it. (That both readings are
// faithful is proved in proofs/, which a law here may not name: `by_inversions_lem` and, in crate `major`, `by_major_lem`.)
pub trait Reads {
    ghost reading: { Reading };

    // The refusal where what the total counts isn't the total.
    ghost OTHER: { Reason };

    const OTHER: Reason;

    // Fills out with the permutation of the composition g.
    fn fill(g: &[u8], out: &mut [u8])
        requires few { length g.now ≤ 24 }
        requires room { length out.old ≡ length g.now + 1 }
        requires parts { (i : ℕ) → i < length g.now → get_or g.now i 0 ≤ length g.now - i }
        ensures { out.new ≡ reading.permutation g.now };

    // Writes the composition of the permutation p to the beginning of 32 cells, and gives what the total counts.
    fn find(p: &[u8], cells: &mut [u8]) -> u32
        requires some { 1 ≤ length p.now }
        requires few { length p.now ≤ 25 }
        requires sheets { IsPermutation (length p.now) p.now }
        requires room { length cells.old ≡ 32 }
        ensures parts { take (length p.now - 1) cells.new ≡ reading.composition p.now }
        ensures total { result ≡ reading.statistic p.now };

    ghost other_is: { coded OTHER ≡ refused reading.number 0 };
}

// By inversions: a composition is an inversion vector.
pub struct InversionVector;

impl Reads for InversionVector {
    ghost reading = { by_inversions };

    ghost OTHER = { Inversions };

    const OTHER: Reason = Reason::Inversions;

    // Two places at a time from the last to the first; place 0 may be left over. (Speed: with a `for` over the pairs a call takes up to 5 % longer.)
    fn fill(g: &[u8], out: &mut [u8]) {
        out[0] = own(g, 0);
        let mut i = out.len();
        while 1 < i {
            i -= 2;
            let c = g[i];
            let next = lifted(c, own(g, i + 1));
            let (first, second) = lift_both(g, i, c + 1, next);
            out[i] = first;
            out[i + 1] = second;
        }
    }

    // From the last place to the first: the values below the entry are counted in the set of those behind it.
    fn find(p: &[u8], cells: &mut [u8]) -> u32 {
        let mut sum = 0u32;
        let mut behind = 0u32;
        for i in (0..p.len()).rev() {
            let here = 1u32 << p[i];
            let smaller = (behind % here).count_ones();
            cells[i] = smaller as u8;
            sum += smaller;
            behind = behind | here;
        }
        sum
    }

    ghost other_is = { refl };
}

// The set of the entries of p, bit v for the entry v, if none is over 31. (A test in each turn would cost more; and were `over` a byte, the loop would be
// compiled for eight entries at a time, which a dozen do not pay.)
fn value_set(p: &[u8]) -> Option<u32>
    ensures { MatchOption result (¬ Small p.now) (λ set. HasValues set p.now) }
{
    let mut set = 0u32;
    let mut over = 0;
    for entry in p {
        let v = usize::from(*entry);
        set |= 1u32 << (v % 32);
        over |= v;
    }
    if over < 32 { Some(set) } else { None }
}

// p is a permutation of 1..k: it has k entries, none over 31, and all of the values 1..k are among them.
fn is_permutation(p: &[u8], k: usize) -> bool
    requires { k ≤ 25 }
    ensures { result ≡ is_permutation k p.now }
{
    if p.len() != k {
        return false;
    }
    match value_set(p) {
        Some(set) => {
            let all = 1u32 << k;
            set / 2 % all == all - 1
        }
        None => false,
    }
}

fn lifted(c: u8, x: u8) -> u8
    requires { x < 255 }
    ensures { result ≡ lift c x }
{
    if c < x { x + 1 } else { x }
}

// Both values with the room that the first i parts of g ask for, the last of them first. (Two at once: neither waits for the other.)
fn lift_both(g: &[u8], i: usize, x: u8, y: u8) -> (u8, u8)
    requires { (i ≤ length g.now) × (x + i ≤ 255) × (y + i ≤ 255) }
    ensures { (result.0 ≡ lifts g.now i x) × (result.1 ≡ lifts g.now i y) }
{
    let mut first = x;
    let mut second = y;
    for j in (0..i).rev() {
        let c = g[j];
        first = lifted(c, first);
        second = lifted(c, second);
    }
    (first, second)
}

// The value at place i before the parts in front of it ask for room; behind the last part it is 1.
fn own(g: &[u8], i: usize) -> u8
    requires { get_or g.now i 0 < 255 }
    ensures { result ≡ get_or g.now i 0 + 1 }
{
    if i < g.len() { g[i] + 1 } else { 1 }
}

// The places 'edition' and 'sheet orders' as far as 10.
fn check_staircase(upper: &[u8], total: u32) -> Result<(), Reason>
    ensures { told result ≡ first_refusal (edition_checks upper.now total ++ staircase_checks upper.now) }
{
    count::check_bounds(upper, total)?;
    if is_staircase(upper) {
        return Ok(());
    }
    Err(Reason::Staircase)
}

// The places 'edition' and 'sheet orders' as far as 11.
pub fn check_permutation(upper: &[u8], total: u32, p: &[u8]) -> Result<(), Reason>
    ensures { told result ≡ first_refusal
        (edition_checks upper.now total ++ staircase_checks upper.now ++ permutation_checks upper.now p.now) }
{
    check_staircase(upper, total)?;
    if is_permutation(p, upper.len() + 1) {
        return Ok(());
    }
    Err(Reason::Permutation)
}

// All that can refuse a composition and a lent part of `room` bytes.
pub fn check_to_permutation(upper: &[u8], total: u32, g: &[u8], room: usize) -> Result<(), Reason>
    ensures { told result ≡ first_refusal (to_permutation_checks upper.now total g.now room) }
{
    check_staircase(upper, total)?;
    check_composition(upper, total, g)?;
    check_lent(upper.len() + 1, room)
}

// All that can refuse a permutation and a lent part of `room` bytes; where nothing does, the composition stands at the beginning of 32 cells.
fn find_composition<R: Reads>(
    upper: &[u8],
    total: u32,
    p: &[u8],
    room: usize,
    cells: &mut [u8],
) -> Result<(), Reason>
    requires { length cells.old ≡ 32 }
    ensures refusal { told result ≡ first_refusal (to_composition_checks R.reading upper.now total p.now room) }
    ensures found { IfOk result (λ _. take room cells.new ≡ R.reading.composition p.now) }
{
    check_permutation(upper, total, p)?;
    if R::find(p, cells) != total {
        return Err(R::OTHER);
    }
    check_lent(upper.len(), room)
}

// document 01: mix to order. Fills the lent part with the permutation that the composition reads as.
pub fn to_permutation<R: Reads>(
    upper: &[u8],
    total: u32,
    composition: &[u8],
    out: &mut [u8],
) -> Result<(), Reason>
    ensures { ◌≡◌ {A = Refusal × List ℕ} (told result, out.new)
        (to_permutation R.reading upper.now total composition.now out.old) }
{
    check_to_permutation(upper, total, composition, out.len())?;
    R::fill(composition, out);
    Ok(())
}

// document 01: order to mix. Fills the lent part with the composition that reads as the permutation.
pub fn to_composition<R: Reads>(
    upper: &[u8],
    total: u32,
    permutation: &[u8],
    out: &mut [u8],
) -> Result<(), Reason>
    ensures { ◌≡◌ {A = Refusal × List ℕ} (told result, out.new)
        (to_composition R.reading upper.now total permutation.now out.old) }
{
    let mut cells = [0u8; 32];
    find_composition::<R>(upper, total, permutation, out.len(), &mut cells)?;
    bounds::copy(&cells, out);
    Ok(())
}

// document 01: mix to order, by inversions.
pub fn permutation(
    upper: &[u8],
    total: u32,
    composition: &[u8],
    out: &mut [u8],
) -> Result<(), Reason>
    ensures { ◌≡◌ {A = Refusal × List ℕ} (told result, out.new)
        (to_permutation by_inversions upper.now total composition.now out.old) }
{
    to_permutation::<InversionVector>(upper, total, composition, out)
}

// document 01: order to mix, by inversions.
pub fn inversions(
    upper: &[u8],
    total: u32,
    permutation: &[u8],
    out: &mut [u8],
) -> Result<(), Reason>
    ensures { ◌≡◌ {A = Refusal × List ℕ} (told result, out.new)
        (to_composition by_inversions upper.now total permutation.now out.old) }
{
    to_composition::<InversionVector>(upper, total, permutation, out)
}
