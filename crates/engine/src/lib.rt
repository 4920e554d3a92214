// The C interface (include/huztiral.h): the library's functions under names for C, each with its own contract.
#![tactic(auto)]

ghost use Rattle.std.specs.Prelude.{◌≡◌, List, ℕ, length};
ghost use Rattle.digits.specs.Digits.{passes};
ghost use Rattle.count.specs.Checked.{check_of};
ghost use Rattle.bounds.specs.declared.Refusal.{Refusal};
ghost use Rattle.rank.specs.Rank.{rank_answer};
ghost use Rattle.rank.specs.Unrank.{unrank_call};
ghost use Rattle.step.specs.Steps.{successor_of, predecessor_of};
ghost use Rattle.step.specs.Batch.{batch_of};
ghost use Rattle.listing.specs.Listing.{listing_of};
ghost use Rattle.permutation.specs.Reading.{by_inversions};
ghost use Rattle.permutation.specs.Conversions.{to_permutation, to_composition};
ghost use Rattle.major.specs.Reading.{by_major};
ghost use Rattle.model.specs.Entry.{entry, columns};
ghost use Rattle.model.specs.Model.{Call};
ghost use Rattle.model.specs.Record.{opening, peeking, calling, entries_of};
ghost use Rattle.engine.specs.Ranks.{ranked_of};
ghost use Rattle.engine.specs.Version.{version};

use bounds::Refusal;
use count::Checked;
use model::{Answer, Claimed, Ledger, Opened, Peeked};
use step::Stepped;

const VERSION: u32 = 1500;

// A serial, or a refusal's number and detail with serial 0. (A number and no `Result`: the C interface.)
#[repr(C)]
#[derive(Clone, Copy)]
pub struct Ranked {
    pub number: u32,
    pub detail: u64,
    pub serial: u64,
}

// Which version of the interface this library has, for a caller that was built with another header.
#[unsafe(no_mangle)]
pub extern "C" fn huz_version() -> u32
    ensures { result ≡ version }
{
    VERSION
}

#[unsafe(no_mangle)]
pub extern "C" fn huz_check(upper: &[u8], total: u32) -> Checked
    ensures { result ≡ check_of upper.now total }
{
    count::check(upper, total).into()
}

// (Taken apart by a `match` and no `From`: so document 01 wants it of callers of mix to serial.)
#[unsafe(no_mangle)]
pub extern "C" fn huz_rank(upper: &[u8], total: u32, composition: &[u8]) -> Ranked
    ensures { result ≡ ranked_of (rank_answer upper.now total composition.now) }
{
    match rank::rank(upper, total, composition) {
        Ok(serial) => Ranked {
            number: 0,
            detail: 0,
            serial,
        },
        Err(reason) => Ranked {
            number: reason.number(),
            detail: reason.detail(),
            serial: 0,
        },
    }
}

#[unsafe(no_mangle)]
pub extern "C" fn huz_unrank(upper: &[u8], total: u32, serial: u64, out: &mut [u8]) -> Refusal
    ensures { ◌≡◌ {A = Refusal × List ℕ} (result, out.new) (unrank_call upper.now total serial out.old) }
{
    rank::unrank(upper, total, serial, out).into()
}

#[unsafe(no_mangle)]
pub extern "C" fn huz_successor(upper: &[u8], total: u32, composition: &[u8]) -> Stepped
    ensures { result ≡ successor_of upper.now total composition.now }
{
    step::successor(upper, total, composition).into()
}

#[unsafe(no_mangle)]
pub extern "C" fn huz_predecessor(upper: &[u8], total: u32, composition: &[u8]) -> Stepped
    ensures { result ≡ predecessor_of upper.now total composition.now }
{
    step::predecessor(upper, total, composition).into()
}

#[unsafe(no_mangle)]
pub extern "C" fn huz_batch(
    upper: &[u8],
    total: u32,
    serial: u64,
    copies: u64,
    out: &mut [u8],
) -> Refusal
    ensures { ◌≡◌ {A = Refusal × List ℕ} (result, out.new)
        (batch_of upper.now total serial copies out.old) }
{
    blocks::batch(upper, total, serial, copies, out).into()
}

#[unsafe(no_mangle)]
pub extern "C" fn huz_listing(upper: &[u8], total: u32, out: &mut [u8]) -> Refusal
    ensures { ◌≡◌ {A = Refusal × List ℕ} (result, out.new) (listing_of upper.now total out.old) }
{
    listing::list(upper, total, out).into()
}

#[unsafe(no_mangle)]
pub extern "C" fn huz_permutation(
    upper: &[u8],
    total: u32,
    composition: &[u8],
    out: &mut [u8],
) -> Refusal
    ensures { ◌≡◌ {A = Refusal × List ℕ} (result, out.new)
        (to_permutation by_inversions upper.now total composition.now out.old) }
{
    permutation::permutation(upper, total, composition, out).into()
}

#[unsafe(no_mangle)]
pub extern "C" fn huz_inversions(
    upper: &[u8],
    total: u32,
    permutation: &[u8],
    out: &mut [u8],
) -> Refusal
    ensures { ◌≡◌ {A = Refusal × List ℕ} (result, out.new)
        (to_composition by_inversions upper.now total permutation.now out.old) }
{
    permutation::inversions(upper, total, permutation, out).into()
}

#[unsafe(no_mangle)]
pub extern "C" fn huz_major_permutation(
    upper: &[u8],
    total: u32,
    composition: &[u8],
    out: &mut [u8],
) -> Refusal
    ensures { ◌≡◌ {A = Refusal × List ℕ} (result, out.new)
        (to_permutation by_major upper.now total composition.now out.old) }
{
    major::permutation(upper, total, composition, out).into()
}

#[unsafe(no_mangle)]
pub extern "C" fn huz_major_code(
    upper: &[u8],
    total: u32,
    permutation: &[u8],
    out: &mut [u8],
) -> Refusal
    ensures { ◌≡◌ {A = Refusal × List ℕ} (result, out.new)
        (to_composition by_major upper.now total permutation.now out.old) }
{
    major::code(upper, total, permutation, out).into()
}

// Whether the check digit of an order number is right, for forms that ask before a claim does.
#[unsafe(no_mangle)]
pub extern "C" fn huz_order_passes(order: u32) -> bool
    ensures { result ≡ passes order }
{
    digits::passes(order)
}

#[unsafe(no_mangle)]
pub extern "C" fn huz_open(upper: &[u8], total: u32, orders: &[u32], items: &[u8]) -> Opened
    ensures { result ≡ opening (record { bounds = upper.now; total = total }) (columns orders.now items.now) }
{
    ledger::open(upper, total, orders, items).into()
}

#[unsafe(no_mangle)]
pub extern "C" fn huz_peek(ledger: Ledger, orders: &[u32], items: &[u8]) -> Peeked
    ensures { result ≡ peeking ledger (columns orders.now items.now) }
{
    ledger::peek(ledger, orders, items).into()
}

#[unsafe(no_mangle)]
pub extern "C" fn huz_claim(
    ledger: Ledger,
    orders: &mut [u32],
    items: &mut [u8],
    serial: u64,
    order: u32,
    item: u8,
) -> Claimed
    ensures { (result, columns orders.new items.new)
        ≡ calling ledger (columns orders.old items.old) (Call.claim serial (entry order item)) }
{
    ledger::claim(ledger, orders, items, serial, order, item)
}

#[unsafe(no_mangle)]
pub extern "C" fn huz_void(
    ledger: Ledger,
    orders: &mut [u32],
    items: &mut [u8],
    serial: u64,
) -> Claimed
    ensures { (result, columns orders.new items.new)
        ≡ calling ledger (columns orders.old items.old) (Call.void serial) }
{
    ledger::void(ledger, orders, items, serial)
}

#[unsafe(no_mangle)]
pub extern "C" fn huz_claim_all(
    ledger: Ledger,
    orders: &mut [u32],
    items: &mut [u8],
    serial: u64,
    bundle: &[u32],
    itemlines: &[u8],
) -> Claimed
    ensures { (result, columns orders.new items.new)
        ≡ calling ledger (columns orders.old items.old)
        (Call.claim_all serial (columns bundle.now itemlines.now)) }
{
    ledger::claim_all(ledger, orders, items, serial, bundle, itemlines)
}

// ---- on a record that is lent
// Document 01, "The register": "the record is also lent to take and spoil, which update it there with the same answers". Each copies the record,
// calls the by-value core, and writes back the record that it answers, on acceptance alone: a refusal writes nothing at all, no padding between
// the fields either, which no contract speaks of. They look at the number that C gets, and are two since C has both.

#[unsafe(no_mangle)]
pub extern "C" fn huz_claim_in(
    ledger: &mut Ledger,
    orders: &mut [u32],
    items: &mut [u8],
    serial: u64,
    order: u32,
    item: u8,
) -> Answer
    ensures { (record { answer = result; ledger = ledger.new }, columns orders.new items.new)
        ≡ calling ledger.old (columns orders.old items.old) (Call.claim serial (entry order item)) }
{
    let claimed = ledger::claim(*ledger, orders, items, serial, order, item);
    if claimed.answer.number == 0 {
        *ledger = claimed.ledger;
    }
    claimed.answer
}

#[unsafe(no_mangle)]
pub extern "C" fn huz_void_in(
    ledger: &mut Ledger,
    orders: &mut [u32],
    items: &mut [u8],
    serial: u64,
) -> Answer
    ensures { (record { answer = result; ledger = ledger.new }, columns orders.new items.new)
        ≡ calling ledger.old (columns orders.old items.old) (Call.void serial) }
{
    let voided = ledger::void(*ledger, orders, items, serial);
    if voided.answer.number == 0 {
        *ledger = voided.ledger;
    }
    voided.answer
}

// How many entries `ledger::entries` hands back, and `ledger::entry_items` too: C has both columns already.
#[unsafe(no_mangle)]
pub extern "C" fn huz_entries(ledger: Ledger, orders: &[u32], items: &[u8]) -> u64
    ensures { result ≡ length (entries_of ledger (columns orders.now items.now)) }
{
    ledger::entries(ledger, orders, items).len() as u64
}
