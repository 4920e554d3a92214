// Long batches (document 01, "Trays"). "Mixes with the same ending stand together": while the parts behind the first few stay as they are, those
// few run through all that they can be with their sum, forwards or backwards. What they can be is listed once for each sum (`lists`), and a
// block of the batch is such a list with the ending behind each entry (`copies`); between two blocks stands one step.
#![tactic(auto)]

ghost use Rattle.std.specs.Prelude.{◌≡◌, List, ℕ, ◌*◌, IfSome, length, take};
ghost use Rattle.walsh.specs.Serial.{serial_of};
ghost use Rattle.bounds.specs.Refusal.{refused, first_refusal};
ghost use Rattle.bounds.specs.Edition.{edition_checks};
ghost use Rattle.bounds.specs.Reason.{told};
ghost use Rattle.bounds.specs.declared.Refusal.{Refusal};
ghost use Rattle.step.specs.Batch.{copies_of, batch_of};
ghost use Rattle.blocks.specs.Blocks.{Begun};

use bounds::Reason;
use rank::{Located, locate};
use step::batch::check_room;

mod copies;
mod job;
mod lists;

use crate::job::Job;
use crate::lists::Fronts;

// From so many copies on a batch is written by blocks. The lists take as long as some 5,000 copies.
const LONG: u64 = 20_000;

// Writes the first copies by blocks and answers how many; none where the first of them does not stand in the lists.
fn by_lists(fronts: &Fronts, out: &mut [u8]) -> Option<usize>
    requires { length out.old ≡ fronts.now.job.copies * length fronts.now.job.upper.now }
    ensures { IfSome result (λ done. Begun fronts.now.job done out.new) }
{
    let job = fronts.job;
    let front = &job.first[..fronts.width];
    let s = lists::sum_of(front);
    let x = lists::place_of(&job.upper[..fronts.width], s, front)?;
    let index = fronts.entered_at(s, x);
    Some(copies::write(fronts, index, out))
}

// The same; none where the lists have no room or do not pay, too.
fn by_blocks(job: Job, out: &mut [u8]) -> Option<usize>
    requires { length out.old ≡ job.copies * length job.upper.now }
    ensures { IfSome result (λ done. Begun job.entry done out.new) }
{
    let fronts = Fronts::new(job)?;
    by_lists(&fronts, out)
}

// Writes the copies: by blocks, and those that are left by runs.
fn write(job: Job, serial: u64, out: &mut [u8]) -> Result<(), Reason>
    requires { ((first_refusal (edition_checks job.upper.now job.total)).number ≡ 0)
        × (length out.old ≡ job.copies * length job.upper.now)
        × (serial ≡ serial_of job.upper.now job.total (take (length job.upper.now) job.first)) }
    ensures accepted { told result ≡ refused 0 0 }
    ensures written { out.new ≡ copies_of job.entry.upper.now job.entry.total serial job.entry.copies }
{
    let done = by_blocks(job, out).unwrap_or(0);
    let at = done * job.upper.len();
    let left = job.copies - done;
    step::batch::batch(
        job.upper,
        job.total,
        serial + done as u64,
        left as u64,
        &mut out[at..],
    )
}

// Writes `copies` compositions from that of `serial` on into `out`, or answers the refusal and writes nothing.
pub fn batch(
    upper: &[u8],
    total: u32,
    serial: u64,
    copies: u64,
    out: &mut [u8],
) -> Result<(), Reason>
    ensures { ◌≡◌ {A = Refusal × List ℕ} (told result, out.new)
        (batch_of upper.now total serial copies out.old) }
{
    if copies < LONG {
        return step::batch::batch(upper, total, serial, copies, out);
    }
    let Located { count, composition } = locate(upper, total, serial)?;
    check_room(count, upper.len(), serial, copies, out.len())?;
    let job = Job {
        upper,
        total,
        first: composition,
        copies: copies as usize,
    };
    write(job, serial, out)
}
