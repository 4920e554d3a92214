// The lists: for each sum all that the first parts can be, in the order, one list behind the other.
ghost use Rattle.std.specs.Prelude.{◌≡◌, true, ◌+◌, ◌≤◌, ◌<◌, IfSome, length};
ghost use Rattle.walsh.specs.Sums.{sum_to};
ghost use Rattle.walsh.specs.Serial.{serial_of};
ghost use Rattle.blocks.specs.Lists.{Lists, ListsAll, Known};

use crate::job::Job;

// The bytes that the lists may take. There are 16 more, since an entry is read by 16 bytes.
const ROOM: usize = 12_272;

// The lists for a job: those of its first `width` parts, by their sum. Before that of the sum s stand `starts[s]` entries. (Arrays and no `Vec`: the
// project has no heap.)
#[derive(Drop)]
pub(crate) struct Fronts<'a> {
    pub(crate) job: Job<'a>,
    pub(crate) width: usize,
    pub(crate) entries: [u8; 12288],
    pub(crate) starts: [usize; 257],
    ghost known: { Known job.upper.now job.total width entries starts },
}

// Three parts or more are left (have a bound that is not 0) and they have 16 entries or more for each of their sums on the average. A list of two
// parts is a run, and short blocks do not pay.
fn pays(number: usize, sums: usize, left: usize) -> bool
    ensures { result ≡ true → 3 ≤ left }
{
    3 <= left && sums <= number / 16
}

// How many of the first parts are listed: as many as have room, but 16 at most; none where it does not pay.
fn width_of(upper: &[u8]) -> Option<usize>
    ensures { IfSome result (λ w. (0 < w) × (w ≤ 16) × (w ≤ length upper.now)) }
{
    let most = upper.len().min(16);
    let mut number = 1;
    let mut sums = 1;
    let mut left = 0;
    for w in 0..most {
        let m = usize::from(upper[w]);
        let more = number * (m + 1);
        if ROOM < more * (w + 1) {
            return pays(number, sums, left).then_some(w);
        }
        number = more;
        sums += m;
        left += m.min(1);
    }
    pays(number, sums, left).then_some(most)
}

// The sum of up to 24 parts or bounds.
pub(crate) fn sum_of(parts: &[u8]) -> usize
    requires { length parts.now ≤ 24 }
    ensures { result ≡ sum_to parts.now (length parts.now) }
{
    let mut sum = 0;
    for x in parts {
        sum += usize::from(*x);
    }
    sum
}

// Writes all compositions of an edition over the beginning of `out` and answers how many there are; none where it is refused or there is no room.
fn list_all(upper: &[u8], total: u32, out: &mut [u8]) -> Option<usize>
    ensures { IfSome result (λ number. ListsAll upper.now total number out.new) }
{
    let n = count::row::number(upper, total).ok()?;
    let parts = upper.len();
    if ((out.len() / parts) as u64) < n {
        return None;
    }
    let number = n as usize;
    step::batch::batch(upper, total, 1, n, &mut out[..number * parts]).ok()?;
    Some(number)
}

// Fills the lists of the sums 0 to `most`, or answers none where they have no room.
fn fill(upper: &[u8], most: usize, entries: &mut [u8], starts: &mut [usize]) -> Option<()>
    requires { (most ≤ 255) × (16 ≤ length entries.old) × (length starts.old ≡ 257) }
    ensures { IfSome result (λ _. Lists upper.now most entries.new starts.new) }
{
    let parts = upper.len();
    let end = entries.len() - 16;
    let mut number = 0;
    starts[0] = 0;
    for s in 0..most + 1 {
        number += list_all(upper, s as u32, &mut entries[number * parts..end])?;
        starts[s + 1] = number;
    }
    Some(())
}

impl<'a> Fronts<'a> {
    // The lists of the first parts, for each sum that they have in a composition; none where they have no room or do not pay.
    pub(crate) fn new(job: Job<'a>) -> Option<Fronts<'a>>
        ensures { IfSome result (λ fronts. fronts.job ≡ job.entry) }
    {
        let width = width_of(job.upper)?;
        let front = &job.upper[..width];
        let most = (job.total as usize).min(sum_of(front));
        let mut entries = [0u8; 12288];
        let mut starts = [0usize; 257];
        fill(front, most, &mut entries, &mut starts)?;
        Some(Fronts {
            job,
            width,
            entries,
            starts,
        })
    }
}

// The number from 0 of `parts` in the list of their sum; none where they do not stand there.
pub(crate) fn place_of(upper: &[u8], sum: usize, parts: &[u8]) -> Option<usize>
    requires { sum ≤ 255 }
    ensures { IfSome result (λ x. x + 1 ≡ serial_of upper.now sum parts.now) }
{
    let serial = rank::rank(upper, sum as u32, parts).ok()?;
    Some(serial as usize - 1)
}
