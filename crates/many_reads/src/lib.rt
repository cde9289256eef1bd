// Many reads in one call (document 02, Paper 1), on number slices that the caller lends. The six slices are parameters, as C lends them: by `&` or `&mut` each shows what
// the call may change.
#![tactic(auto)]

ghost use Rattle.std.specs.Prelude.{◌≡◌, length, eqb};
ghost use Rattle.model.specs.Slices.{as_lent};
ghost use Rattle.records.specs.Records.{refusal_number, refusal_of};
ghost use Rattle.cell_reads.specs.Cells.{number_of};
ghost use Rattle.many_reads.specs.Lent.{ReadsMany};
ghost use Rattle.many_reads.specs.Tests.{first_refusal};

use locks::Locks;
use records::{ReadManyReply, Refusal, Session};
use refusals::Lengths;

// ---- before the first read

// 15 and 13, of the list and its target; then 7, 1, 9 and 2, which each of the single reads would test. They are tested once: they pass again after every read
// answered 101.
#[tactic(auto, unfolding(crate::specs::Tests::first_refusal), using(records::proofs::Refusals::nonzero))]
fn tests(
    x: Session,
    lengths: Lengths,
    logs: &[u32],
    session: u8,
    cells: usize,
    target: usize,
) -> Result<(), Refusal>
    requires { lengths.logs ≡ length logs.now }
    ensures { refusal_of result ≡ first_refusal x lengths logs.now session cells target }
{
    cell_reads::list_refusal(cells, target)?;
    lengths.admit(session)?;
    refusals::runs(session_log::of_session(logs, session), lengths.values, x)
}

// Nothing is obtained, and the record comes back as it came.
fn refused(refusal: Refusal, session: Session) -> ReadManyReply
    ensures { result ≡ record { number = refusal_number refusal; count = 0; session = session } }
{
    ReadManyReply {
        number: u32::from(refusal.number()),
        count: 0,
        session,
    }
}

// ---- after the last

// 101 where each cell was read, else the number of the refusal. (No `From`: `u32` and `Result` are of other crates.)
fn number(ended: Result<(), Refusal>) -> u32
    ensures { result ≡ number_of ended }
{
    match ended {
        Ok(()) => 101,
        Err(refusal) => u32::from(refusal.number()),
    }
}

// Whether the reads ended at a claim.
fn met_claim(ended: Result<(), Refusal>) -> bool
    ensures { result ≡ eqb (number_of ended) 6 }
{
    matches!(ended, Err(Refusal::Conflict))
}

// ---- the call

// Many reads: 101 where every cell was read, else the number of the first refusal, with how many were read before it. 15 and 13 come before all else.
pub fn read_many(
    x: Session,
    values: &[u32],
    classes: &[u8],
    readers: &mut [u16],
    claimants: &mut [u8],
    exclusives: &mut [u8],
    logs: &mut [u32],
    session: u8,
    cells: &[u32],
    target: &mut [u32],
) -> ReadManyReply
    ensures { ReadsMany session cells values classes (as_lent readers) (as_lent claimants) (as_lent exclusives) (as_lent logs) (as_lent target) x result }
{
    let lengths = Lengths::of(values, classes, readers, claimants, exclusives, logs);
    if let Err(refusal) = tests(x, lengths, logs, session, cells.len(), target.len()) {
        return refused(refusal, x);
    }
    let count = x.count as usize;
    let a = 128 * (session as usize);
    let e = a + 128;
    let log = &mut logs[a..e];
    let reads = cell_reads::read_cells(
        values, readers, claimants, log, count, session, cells, target,
    );
    let number = number(reads.ended);
    let obtained = reads.count as u32;
    let entries = reads.entries;
    let claimed = met_claim(reads.ended);
    if !claimed {
        return ReadManyReply {
            number,
            count: obtained,
            session: x.with_entries(entries as u8),
        };
    }
    let mut locks = Locks {
        readers,
        claimants,
        exclusives,
    };
    sweeps::roll_back(&mut locks, log, entries, session);
    ReadManyReply {
        number,
        count: obtained,
        session: x.idled(),
    }
}
