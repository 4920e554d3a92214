// Editions (document 01, "Editions and their number"): the record, refusals as tables, and the checks 1 to 4. Check 5 asks for N: crate `count`.
#![tactic(auto)]

ghost use Rattle.std.specs.Prelude.{◌≡◌, ◌≤◌, [], ◌∷◌, IfOk, length, take};
ghost use Rattle.bounds.specs.Refusal.{first_refusal};
ghost use Rattle.bounds.specs.Reason.{coded, told};
ghost use Rattle.bounds.specs.Edition.{whole, bound_check, shape_checks, cells_of, blank_bounds};
ghost use Rattle.bounds.specs.Places.{copied};

// The largest N that is accepted (document 01: number 5).
pub const LIMIT: u64 = 9_223_372_036_854_775_807;

// The largest N of a ledger or a listing (document 01: number 14).
pub const MOST_ENTRIES: u64 = 1_000_000;

// The largest bound (document 01: number 2).
const MOST_BOUND: u8 = 60;

// A refusal's number and detail; 0 and 0 where nothing is refused. (Numbers and no `Result`: the C interface.)
#[repr(C)]
#[derive(Clone, Copy)]
pub struct Refusal {
    pub number: u32,
    pub detail: u64,
}

// document 01: an edition, as the record keeps it: n, 24 cells, r. Cells past n are 0. (A number of cells beside them, and no `Vec`: the C interface.)
#[repr(C)]
#[derive(Clone, Copy)]
pub struct Bounds {
    pub parts: usize,
    pub upper: [u8; 24],
    pub total: u32,
}

// Why a call is refused, in the order of document 01's fixed numbers; a reason with a detail holds it.
#[derive(Clone, Copy, Debug, PartialEq, Eq)]
pub enum Reason {
    // no parts, or more than 24
    Parts,
    // a bound over 60: the first such part, from 1
    Bound(u64),
    // a total over 255
    Total,
    // a total over the sum of the bounds
    Sum,
    // N over the limit
    Limit,
    // no serial of 1..N
    Serial,
    // a composition with another number of parts
    Length,
    // a part over its bound, or another sum
    Composition,
    // no composition on that side
    NoStep,
    // bounds that are no staircase
    Staircase,
    // no permutation
    Permutation,
    // a permutation with another number of inversions
    Inversions,
    // a lent part of another length than what is to be written
    Room,
    // N over `MOST_ENTRIES`
    Entries,
    // columns shorter than N
    Columns,
    // a record and columns that do not belong together
    Ledger,
    // order number 0
    Order,
    // a serial that is written already: the order that stands there
    Written(u64),
    // a serial after the next one, which is the detail
    Ahead(u64),
    // an order that stands in an earlier line: its serial
    Repeated(u64),
    // no serial left
    Full,
    // a text that asks for no listing
    Request,
    // a permutation with another major index
    MajorIndex,
    // a bundle of no orders or of too many, or with another number of item lines
    Bundle,
    // an item line outside 1..99
    Item,
    // an order number whose check digit is wrong
    CheckDigit,
}

impl Reason {
    pub fn number(self) -> u32
        ensures { result ≡ (coded self).number }
    {
        match self {
            Reason::Parts => 1,
            Reason::Bound(_) => 2,
            Reason::Total => 3,
            Reason::Sum => 4,
            Reason::Limit => 5,
            Reason::Serial => 6,
            Reason::Length => 7,
            Reason::Composition => 8,
            Reason::NoStep => 9,
            Reason::Staircase => 10,
            Reason::Permutation => 11,
            Reason::Inversions => 12,
            Reason::Room => 13,
            Reason::Entries => 14,
            Reason::Columns => 15,
            Reason::Ledger => 16,
            Reason::Order => 17,
            Reason::Written(_) => 18,
            Reason::Ahead(_) => 19,
            Reason::Repeated(_) => 20,
            Reason::Full => 21,
            Reason::Request => 22,
            Reason::MajorIndex => 23,
            Reason::Bundle => 24,
            Reason::Item => 25,
            Reason::CheckDigit => 26,
        }
    }

    pub fn detail(self) -> u64
        ensures { result ≡ (coded self).detail }
    {
        match self {
            Reason::Bound(x) | Reason::Written(x) | Reason::Ahead(x) | Reason::Repeated(x) => x,
            _ => 0,
        }
    }
}

impl From<Reason> for Refusal {
    ghost from_gives = { λ reason refusal. refusal ≡ coded reason };

    fn from(reason: Reason) -> Refusal {
        Refusal {
            number: reason.number(),
            detail: reason.detail(),
        }
    }
}

impl From<Result<(), Reason>> for Refusal {
    ghost from_gives = { λ answer refusal. refusal ≡ told answer };

    fn from(answer: Result<(), Reason>) -> Refusal {
        match answer {
            Ok(()) => Refusal {
                number: 0,
                detail: 0,
            },
            Err(reason) => reason.into(),
        }
    }
}

// The sum of up to 24 bounds, none of which is over 60.
fn scan(upper: &[u8]) -> Result<usize, Reason>
    requires { length upper.now ≤ 24 }
    ensures refusal { told result ≡ first_refusal (bound_check upper.now ∷ []) }
    ensures sum { IfOk result (λ all. all ≡ whole upper.now) }
{
    let mut all = 0;
    for (i, bound) in upper.iter().enumerate() {
        if MOST_BOUND < *bound {
            return Err(Reason::Bound(i as u64 + 1));
        }
        let m = usize::from(*bound);
        all += m;
    }
    Ok(all)
}

// The checks 1 to 4, in one pass over the bounds: their sum where nothing is refused. (Bounds and total come apart, here and in the crates above: so the C
// interface lends them, and so every clause speaks of them.)
pub fn shape(upper: &[u8], total: u32) -> Result<usize, Reason>
    ensures refusal { told result ≡ first_refusal (shape_checks upper.now total) }
    ensures sum { IfOk result (λ all. all ≡ whole upper.now) }
{
    if upper.is_empty() || 24 < upper.len() {
        return Err(Reason::Parts);
    }
    let all = scan(upper)?;
    if 255 < total {
        return Err(Reason::Total);
    }
    if all < total as usize {
        return Err(Reason::Sum);
    }
    Ok(all)
}

// Copies the beginning of `from` over the beginning of `out`, as many bytes as both have. (The library's method asks for equal lengths.)
#[tactic(auto, unfolding(crate::specs::Places::copied))]
pub fn copy(from: &[u8], out: &mut [u8])
    ensures { out.new ≡ copied from.now out.old }
{
    let n = from.len().min(out.len());
    out[..n].copy_from_slice(&from[..n]);
}

// A list in 24 cells, with zeros behind it; of a longer one, the first 24.
pub fn pack(upper: &[u8]) -> [u8; 24]
    ensures { result ≡ cells_of (take 24 upper.now) }
{
    let mut cells = [0u8; 24];
    copy(upper, &mut cells);
    cells
}

// The record of bounds and a total; of more than 24 bounds, with the first 24.
pub fn record(upper: &[u8], total: u32) -> Bounds
    ensures { result ≡ record { parts = length upper.now; upper = cells_of (take 24 upper.now); total = total } }
{
    Bounds {
        parts: upper.len(),
        upper: pack(upper),
        total,
    }
}

// A record of zeros.
pub fn blank() -> Bounds
    ensures { result ≡ blank_bounds }
{
    Bounds {
        parts: 0,
        upper: [0; 24],
        total: 0,
    }
}
