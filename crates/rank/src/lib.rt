// Composition to serial and back (document 01, "Serial and mix").
#![tactic(auto)]

ghost use Rattle.std.specs.Prelude.{◌≡◌, IfOk, length, take};
ghost use Rattle.bounds.specs.Reason.{told};
ghost use Rattle.bounds.specs.Refusal.{first_refusal};
ghost use Rattle.bounds.specs.Edition.{edition_checks, record_checks};
ghost use Rattle.rank.specs.Rank.{answer_of, rank_answer};
ghost use Rattle.rank.specs.Unrank.{unrank_checks, unrank_call};
ghost use Rattle.rank.specs.Locate.{Locates};

use band::find;
use band::find::Converted;
use bounds::{Bounds, Reason};

// N and a composition, in 24 cells.
#[derive(Clone, Copy, Debug, PartialEq, Eq)]
pub struct Located {
    pub count: u64,
    pub composition: [u8; 24],
}

// The serial of a composition. 7 and 8 are known before the table is filled, and given where 5 is not.
pub fn rank(upper: &[u8], total: u32, composition: &[u8]) -> Result<u64, Reason>
    ensures { answer_of result ≡ rank_answer upper.now total composition.now }
{
    match find::serial_of(upper, total, composition) {
        Ok(found) => Ok(found.serial),
        Err(reason) => {
            if 6 < reason.number() {
                count::check_bounds(upper, total)?;
            }
            Err(reason)
        }
    }
}

// The checks of `unrank` for a lent part of `have` bytes, without a table.
fn check_unrank(upper: &[u8], total: u32, serial: u64, have: usize) -> Result<(), Reason>
    ensures { told result ≡ first_refusal (unrank_checks upper.now total serial have) }
{
    let n = count::row::number(upper, total)?;
    places::check_serial(n, serial)?;
    places::check_lent(upper.len(), have)
}

// Writes the composition of a serial into `out`, which has a byte for each part.
pub fn unrank(upper: &[u8], total: u32, serial: u64, out: &mut [u8]) -> Result<(), Reason>
    ensures { (told result, out.new) ≡ unrank_call upper.now total serial out.old }
{
    if out.len() != upper.len() {
        return check_unrank(upper, total, serial, out.len());
    }
    let Located { count, composition } = locate(upper, total, serial)?;
    places::check_serial(count, serial)?;
    bounds::copy(&composition, out);
    Ok(())
}

// N and the composition of a serial; 0 counts as 1, and a serial over N as N.
pub fn locate(upper: &[u8], total: u32, serial: u64) -> Result<Located, Reason>
    ensures refusal { told result ≡ first_refusal (edition_checks upper.now total) }
    ensures located { IfOk result (Locates upper.now total serial) }
{
    let Converted {
        count,
        composition,
        ..
    } = find::composition_of(upper, total, serial)?;
    Ok(Located { count, composition })
}

// The same of a record that nobody has checked.
pub fn locate_record(bounds: Bounds, serial: u64) -> Result<Located, Reason>
    ensures refusal { told result ≡ first_refusal (record_checks bounds) }
    ensures located { IfOk result (Locates (take bounds.parts bounds.upper) bounds.total serial) }
{
    let n = bounds.parts;
    if 24 < n {
        return Err(Reason::Parts);
    }
    let upper = bounds.upper;
    locate(&upper[..n], bounds.total, serial)
}
