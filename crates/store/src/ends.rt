// How a call that is admitted ends. It is no call: what it asks of what is lent, the calls have tested.
ghost use Rattle.std.specs.Prelude.{◌≡◌, ◌<◌, length};
ghost use Rattle.contracts.specs.Lent.{locks_of};
ghost use Rattle.model.specs.Turns.{changed};
ghost use Rattle.locks.specs.Changes.{ChangeFits};

use locks::Locks;
use records::{SessionReply, Turn};

// The end of read, hold, write, advance and abandon: the turn's change of the locks is carried out, its answer and record are handed back. (A seal is lent the readers
// alone to change.)
pub(crate) fn carry_out(
    t: Turn,
    readers: &mut [u16],
    claimants: &mut [u8],
    exclusives: &mut [u8],
    log: &[u32],
    count: usize,
    session: u8,
) -> SessionReply
    requires { ((length claimants.old ≡ length readers.old) × (length exclusives.old ≡ length readers.old)) × ((session < 16) × ChangeFits t.change session log.now count (length readers.old)) }
    ensures carried { locks_of readers.new claimants.new exclusives.new ≡ changed t.change log.now count session (locks_of readers.old claimants.old exclusives.old) }
    ensures reply { result ≡ record { answer = t.answer; session = t.session } }
{
    let mut locks = Locks {
        readers,
        claimants,
        exclusives,
    };
    locks::apply(&mut locks, t.change, log, count, session);
    SessionReply::from(t)
}
