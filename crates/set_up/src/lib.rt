// Set-up, on number slices that the caller lends (document 01, "What the caller lends"), by our caps and by a table. The six slices are parameters, as C
// lends them: by `&` or `&mut` each shows what the call may change.
#![tactic(auto)]

ghost use Rattle.std.specs.Prelude.{◌≡◌, length, replicate};
ghost use Rattle.model.specs.Slices.{as_lent};
ghost use Rattle.records.specs.Records.{answered};
ghost use Rattle.contracts.specs.Lent.{SetsUp, SetsUpBy};
ghost use Rattle.set_up.specs.Prepared.{Prepares, records_after};

use records::{Answer, Refusal, Reply, Sessions};
use refusals::Lengths;

// Every lock empty, every log word 0.
fn empty(readers: &mut [u16], claimants: &mut [u8], exclusives: &mut [u8], logs: &mut [u32])
    ensures { (readers.new ≡ replicate (length readers.old) 0) × (claimants.new ≡ replicate (length claimants.old) 16) × (exclusives.new ≡ replicate (length exclusives.old) 0) × (logs.new ≡ replicate (length logs.old) 0) }
{
    readers.fill(0);
    claimants.fill(16);
    exclusives.fill(0);
    logs.fill(0);
}

// Set-up by a table but for the records: all locks empty, all log words 0. It stands apart, and is handed no records: inlined, set-up takes 696 bytes of stack in the
// place of 472, and 632 where the records are handed on, which copies them twice.
#[inline(never)]
fn prepare(
    values: &[u32],
    classes: &[u8],
    readers: &mut [u16],
    claimants: &mut [u8],
    exclusives: &mut [u8],
    logs: &mut [u32],
    caps: &[u32],
) -> Result<(), Refusal>
    ensures { Prepares caps values classes (as_lent readers) (as_lent claimants) (as_lent exclusives) (as_lent logs) result }
{
    let lengths = Lengths::of(values, classes, readers, claimants, exclusives, logs);
    loads::judge_set_up(lengths, values, classes, caps)?;
    empty(readers, claimants, exclusives, logs);
    Ok(())
}

// The reply: all sessions idle; refused, as they came.
fn replied(prepared: Result<(), Refusal>, sessions: Sessions) -> Reply
    ensures { result ≡ record { answer = answered prepared; sessions = records_after prepared sessions } }
{
    match prepared {
        Ok(()) => Reply {
            answer: Answer::Done,
            sessions: records::all_idle(),
        },
        Err(refusal) => Reply {
            answer: Answer::from(refusal),
            sessions,
        },
    }
}

// Set-up by a table: all sessions idle, all locks empty, all log words 0. 100, 7, 16 or 8.
pub fn set_up_with_caps(
    sessions: Sessions,
    values: &[u32],
    classes: &[u8],
    readers: &mut [u16],
    claimants: &mut [u8],
    exclusives: &mut [u8],
    logs: &mut [u32],
    caps: &[u32],
) -> Reply
    ensures { SetsUpBy caps values classes (as_lent readers) (as_lent claimants) (as_lent exclusives) (as_lent logs) sessions result }
{
    let prepared = prepare(values, classes, readers, claimants, exclusives, logs, caps);
    replied(prepared, sessions)
}

// Set-up by our table, which passes: 100, 7 or 8.
pub fn set_up(
    sessions: Sessions,
    values: &[u32],
    classes: &[u8],
    readers: &mut [u16],
    claimants: &mut [u8],
    exclusives: &mut [u8],
    logs: &mut [u32],
) -> Reply
    ensures { SetsUp values classes (as_lent readers) (as_lent claimants) (as_lent exclusives) (as_lent logs) sessions result }
{
    set_up_with_caps(
        sessions,
        values,
        classes,
        readers,
        claimants,
        exclusives,
        logs,
        caps::ours(),
    )
}
