// The run of lock records that the caller lends (document 01, "What the caller lends", Locks): one lock read, one changed, and a change carried out.
#![tactic(auto)]

ghost use Rattle.std.specs.Prelude.{◌≡◌};
ghost use Rattle.run_changes.specs.Run.{lock_in, changed_at, swept_by, SessionFits, ChangeFits};

use records::Lock;
use run_changes::Change;

// The lock of a cell; past the last cell an empty one.
pub fn lock_at(locks: &[Lock], cell: usize) -> Lock
    ensures { result ≡ lock_in locks.now cell }
{
    locks.get(cell).copied().unwrap_or(lock::empty())
}

// One lock changed; past the last cell nothing is. (By index: over `get_mut` the proof does not close.)
fn change_at(locks: &mut [Lock], cell: usize, change: Change)
    requires { SessionFits change }
    ensures { locks.new ≡ changed_at change cell locks.old }
{
    if cell < locks.len() {
        locks[cell] = run_changes::changed(locks[cell], change);
    }
}

// The change carried out, lock by lock.
#[tactic(auto, unfolding(run_changes::specs::Run::swept), using(crate::proofs::Fits::session_fits))]
#[inline(always)]
pub fn sweep<'a>(locks: &'a mut [Lock], logs: &'a [u32], change: Change)
    requires { ChangeFits logs.now change }
    ensures { locks.new ≡ swept_by logs.now change locks.old }
{
    for i in 0..run_changes::count_of(change) {
        change_at(locks, run_changes::cell_of(logs, change, i), change);
    }
}
