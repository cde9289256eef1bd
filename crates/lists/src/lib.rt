// Any call of a list, on the records of all sixteen sessions and the locks as number slices: for the replay, and for code that has a `Call` in hand.
// It takes the turn of the call by its kind (crate any_call), and carries its change out as the calls on one record do (crate store).
#![tactic(auto)]

ghost use Rattle.model.specs.Slices.{as_lent};
ghost use Rattle.contracts.specs.Lent.{Takes};

use locks::Locks;
use records::{Answer, Call, Reply, Sessions};
use refusals::Lengths;

// One call of a list: the record of its session is taken out of the sixteen, and the one handed back put in its place.
pub fn step(
    call: Call,
    sessions: Sessions,
    values: &mut [u32],
    classes: &[u8],
    readers: &mut [u16],
    claimants: &mut [u8],
    exclusives: &mut [u8],
    logs: &mut [u32],
) -> Reply
    ensures { Takes call (as_lent values) classes (as_lent readers) (as_lent claimants) (as_lent exclusives) (as_lent logs) sessions result }
{
    let session = call.session();
    let lengths = Lengths::of(values, classes, readers, claimants, exclusives, logs);
    if let Err(refusal) = lengths.admit(session) {
        return Reply {
            answer: Answer::from(refusal),
            sessions,
        };
    }
    let x = turns::record_of(sessions, session);
    let cell = any_call::cell_for(
        call,
        session_log::of_session(logs, session),
        values.len(),
        x,
    );
    let l = locks::at(readers, claimants, exclusives, cell);
    let t = any_call::any(call, values, classes, logs, x, l, session);
    let log = session_log::of_session(logs, session);
    let count = x.count as usize;
    let mut locks = Locks {
        readers,
        claimants,
        exclusives,
    };
    locks::apply(&mut locks, t.change, log, count, session);
    turns::put_back(t, sessions, session)
}
