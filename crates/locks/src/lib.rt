// The locks of all cells on three lent slices (document 01, "What the caller lends", Locks): the lock that a call needs, and a change of the locks carried out.
#![tactic(auto)]

ghost use Rattle.std.specs.Prelude.{◌≡◌, ◌<◌, length};
ghost use Rattle.model.specs.Buffers.{lock_at};
ghost use Rattle.contracts.specs.Lent.{locks_before};
ghost use Rattle.lock.specs.Lent.{locks_in, SameSlices};
ghost use Rattle.model.specs.Turns.{changed};
ghost use Rattle.locks.specs.Changes.{LockFor, ChangeFits, in_parts, OwnParts, DropsIf};

pub use lock::Locks;
use records::{Change, Lock, Plan};

// ---- one lock

// The lock of a cell; an empty one past the last cell. (What is only read is lent as slices: `Locks` asks for slices that are lent to be changed.)
#[tactic(auto, unfolding(model::specs::Buffers::lock_at))]
pub fn at(readers: &[u16], claimants: &[u8], exclusives: &[u8], cell: u32) -> Lock
    ensures { result ≡ lock_at (locks_before readers claimants exclusives) cell }
{
    let c = cell as usize;
    Lock {
        readers: readers.get(c).copied().unwrap_or(0),
        claimant: claimants.get(c).copied().unwrap_or(16),
        exclusive: exclusives.get(c).copied().unwrap_or(0),
    }
}

// The lock of the cell that a plan enters; an empty one where it enters none.
pub fn lock_for(readers: &[u16], claimants: &[u8], exclusives: &[u8], p: Plan) -> Lock
    ensures { LockFor p (locks_before readers claimants exclusives) result }
{
    match p {
        Plan::Enter(cell) | Plan::EnterUpdate(cell, _) | Plan::EnterMark(cell) => {
            at(readers, claimants, exclusives, cell)
        }
        _ => lock::empty(),
    }
}

// ---- a change of the locks

// A change carried out, and so its three parts, one after the other, of which rolling back and sealing are each a part of one change alone.
#[tactic(auto, unfolding(crate::specs::Changes::ChangeFits, crate::specs::Changes::in_parts, crate::specs::Changes::one_of, crate::specs::Changes::withdraw_of, crate::specs::Changes::drop_of, model::specs::Turns::changed, model::specs::Effects::reads_dropped), using(crate::proofs::Changes::own_parts, crate::proofs::Changes::join_stored, crate::proofs::Changes::claim_stored, crate::proofs::Changes::acquire_stored, crate::proofs::Changes::vacate_stored))]
pub fn apply(locks: &mut Locks, change: Change, log: &[u32], count: usize, session: u8)
    requires { (session < 16) × ChangeFits change session log.now count (length locks.old.readers.now) }
    ensures lent { SameSlices locks.old locks.new }
    ensures carried { locks_in locks.new ≡ changed change log.now count session (locks_in locks.old) }
    ensures parts { (locks_in locks.new ≡ in_parts change log.now count session (locks_in locks.old)) × OwnParts change }
{
    match change {
        Change::Keep => {}
        Change::Join(cell) => {
            let c = cell as usize;
            locks.readers[c] = lock::with_reader(locks.readers[c], session);
        }
        Change::Claim(cell) => {
            locks.claimants[cell as usize] = session;
        }
        Change::Acquire(cell) => {
            let c = cell as usize;
            locks.claimants[c] = session;
            locks.exclusives[c] = 1;
        }
        Change::Vacate(cell) => {
            let c = cell as usize;
            locks.readers[c] = lock::without_reader(locks.readers[c], session);
            locks.claimants[c] = 16;
            locks.exclusives[c] = 0;
        }
        Change::Withdraw => {
            sweeps::roll_back(locks, log, count, session);
        }
        Change::DropReads => {
            sweeps::drop_reads(log, count, locks.readers, session);
        }
    }
}

// Sealing, where that is the change: it is of the reader sets alone.
#[tactic(auto, unfolding(crate::specs::Changes::ChangeFits, crate::specs::Changes::drop_of, model::specs::Turns::changed, model::specs::Effects::reads_dropped))]
pub fn change_drop(change: Change, log: &[u32], count: usize, readers: &mut [u16], session: u8)
    requires { ChangeFits change session log.now count (length readers.old) }
    ensures { DropsIf change log.now count session readers.old readers.new }
{
    if let Change::DropReads = change {
        sweeps::drop_reads(log, count, readers, session);
    }
}
