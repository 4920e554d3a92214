// The checks of the places 'mix given', 'serial given' and 'lent part' (document 01, "Refusals by place of checking"), which several calls have.
#![tactic(auto, using(std::proofs::lemmas::Bool::Decides::nat_tests), unfolding(bounds::specs::Refusal::first_refusal))]

ghost use Rattle.std.specs.Prelude.{◌≡◌, [], ◌∷◌, ◌*◌, eqb, length};
ghost use Rattle.bounds.specs.Refusal.{first_refusal};
ghost use Rattle.bounds.specs.Reason.{told};
ghost use Rattle.bounds.specs.Places.{is_other, composition_checks, no_serial, lent_checks};

use bounds::Reason;

// A part of g is over its bound, or the sum of the parts isn't the total. What is left of the total never falls below 0, so no sum is too large.
fn is_other(upper: &[u8], total: u32, g: &[u8]) -> bool
    requires { length g.now ≡ length upper.now }
    ensures { result ≡ is_other upper.now total g.now }
{
    let mut left = total as usize;
    for (i, part) in g.iter().enumerate() {
        let v = usize::from(*part);
        if upper[i] < *part || left < v {
            return true;
        }
        left -= v;
    }
    left != 0
}

// The place 'mix given'.
pub fn check_composition(upper: &[u8], total: u32, g: &[u8]) -> Result<(), Reason>
    ensures { told result ≡ first_refusal (composition_checks upper.now total g.now) }
{
    if g.len() != upper.len() {
        return Err(Reason::Length);
    }
    if is_other(upper, total, g) {
        return Err(Reason::Composition);
    }
    Ok(())
}

// The place 'serial given', where N is `count`.
pub fn check_serial(count: u64, serial: u64) -> Result<(), Reason>
    ensures { told result ≡ first_refusal (no_serial count serial ∷ []) }
{
    if serial == 0 || count < serial {
        return Err(Reason::Serial);
    }
    Ok(())
}

// The place 'lent part': `want` bytes are to be written, and the part has `have`.
pub fn check_lent(want: usize, have: usize) -> Result<(), Reason>
    ensures { told result ≡ first_refusal (lent_checks want have) }
{
    if have == want {
        return Ok(());
    }
    Err(Reason::Room)
}

// `have` bytes are as many as the copies have, n bytes each. By division: the product may not fit.
fn is_room(n: usize, copies: u64, have: usize) -> bool
    ensures { result ≡ eqb have (copies * n) }
{
    if n == 0 {
        return have == 0;
    }
    if have % n != 0 {
        return false;
    }
    (have / n) as u64 == copies
}

// The place 'lent part' of a tray: `copies` of n bytes are to be written, and the part has `have`.
pub fn check_copies(n: usize, copies: u64, have: usize) -> Result<(), Reason>
    ensures { told result ≡ first_refusal (lent_checks (copies * n) have) }
{
    if !is_room(n, copies, have) {
        return Err(Reason::Room);
    }
    Ok(())
}
