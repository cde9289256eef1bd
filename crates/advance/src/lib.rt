// Advance: the entry that is due, then the turn, with the lock of its cell by value. What becomes of the locks is handed back.
#![tactic(auto)]

ghost use Rattle.std.specs.Prelude.{◌≡◌, Ok, not, ◌&&◌, ◌<◌, ◌≤◌, eqb, length};
ghost use Rattle.model.specs.InTheWay.{TellsOthers};
ghost use Rattle.model.specs.Plans.{claimed};
ghost use Rattle.model.specs.Slices.{as_lent};
ghost use Rattle.model.specs.Turns.{TakesTurn};
ghost use Rattle.advance.specs.Pieces.{due_on, due_cell, DueFits, advance_on, due_plan, Promotes, handled_by};

use records::{Answer, Change, Lock, Refusal, Session, SessionReply, Turn};
use targets::Next;

// The first entry of the lowest cell that publishes, not below next, with whether a cell that publishes is left above its cell; or 9 or 2.
pub fn due_slot(log: &[u32], n: usize, x: Session) -> Result<Next, Refusal>
    requires { (length log.now ≡ 128) × (n ≤ 1024) }
    ensures { result ≡ due_on n log.now x }
{
    if !refusals::entries_fit(log, n, x) {
        return Err(Refusal::DamagedRecord);
    }
    if x.phase < 2 {
        return Err(Refusal::WrongPhase);
    }
    targets::next_two(log, x.count as usize, n as u32, x.next as u32).ok_or(Refusal::DamagedRecord)
}

// The cell of the entry that is due; 0 where the advance is refused, by whatever number, as in the definition: of that cell's lock the turn then reads nothing.
#[tactic(auto, unfolding(crate::specs::Pieces::due_cell, crate::specs::Pieces::DueFits))]
pub fn due_cell<R: Copy>(log: &[u32], due: Result<Next, R>) -> u32
    requires { (length log.now ≡ 128) × (DueFits due) }
    ensures { result ≡ due_cell log.now due }
{
    match due {
        Ok(next) => session_log::cell_at(log, next.slot),
        Err(_) => 0,
    }
}

// A claimant other than the session.
fn loses(l: Lock, session: u8) -> bool
    ensures { result ≡ (claimed l && not (eqb l.claimant session)) }
{
    lock::is_claimed(l) && l.claimant != session
}

// A handled cell's answer and record: next is one above the cell; where no cell that publishes is left there the phase rises and next is 0, and out of phase 4
// the session is idle.
fn handle(x: Session, cell: u32, more: bool) -> SessionReply
    requires { (x.phase ≤ 4) × (cell < 1024) }
    ensures { result ≡ handled_by more x cell }
{
    if more {
        let next = cell + 1;
        return SessionReply {
            answer: Answer::Moved,
            session: x.moved(next as u16),
        };
    }
    if x.phase == 4 {
        return SessionReply {
            answer: Answer::Committed,
            session: x.idled(),
        };
    }
    SessionReply {
        answer: Answer::Moved,
        session: x.raised(),
    }
}

// The promotion step, on the lock of a cell: a claimant other than the session rolls it back; with other readers it becomes claimant and waits, and tells how
// many they are; else it acquires the lock, and the cell is handled.
fn promote(x: Session, l: Lock, session: u8, cell: u32, more: bool) -> Turn
    requires { (x.phase ≤ 4) × (cell < 1024) × (session < 16) }
    ensures { (Promotes x l session cell more result) × (TellsOthers l session result.answer) }
{
    if loses(l, session) {
        return records::rolled_back(x);
    }
    let waits = !lock::alone(l.readers, session);
    if waits {
        return Turn {
            answer: Answer::Waiting(lock::others(l.readers, session)),
            session: x,
            change: Change::Claim(cell),
        };
    }
    Turn {
        answer: Answer::Moved,
        session: handle(x, cell, more).session,
        change: Change::Acquire(cell),
    }
}

// Advance at the entry that is due, with the lock of its cell. Phase 2: it is promoted; phase 3: the present value is published; phase 4: the cell is released.
fn take_entry(values: &mut [u32], log: &[u32], x: Session, l: Lock, session: u8, due: Next) -> Turn
    requires { (length log.now ≡ 128) × (length values.old ≤ 1024) × (session < 16) × (Ok due ≡ due_on (length values.old) log.now x) }
    ensures { TakesTurn (advance_on log.now x l session due.slot) (as_lent values) log x result }
{
    let Next { slot, more } = due;
    let cell = session_log::cell_at(log, slot);
    if x.phase == 2 {
        return promote(x, l, session, cell, more);
    }
    let handled = handle(x, cell, more);
    let publishing = x.phase == 3;
    if publishing {
        values[cell as usize] = session_log::current(log, slot);
        return records::keeps(Answer::Moved, handled.session);
    }
    Turn {
        answer: handled.answer,
        session: handled.session,
        change: Change::Vacate(cell),
    }
}

// Advance: phases 2 to 4. One cell that the session publishes is promoted, published or released. 103, 104 and how many others read, 105, or 6.
pub fn take_advance(
    values: &mut [u32],
    log: &[u32],
    x: Session,
    l: Lock,
    session: u8,
    due: Result<Next, Refusal>,
) -> Turn
    requires { (length log.now ≡ 128) × (length values.old ≤ 1024) × (session < 16) × (due ≡ due_on (length values.old) log.now x) }
    ensures { TakesTurn (due_plan session log.now x l due) (as_lent values) log x result }
{
    match due {
        Ok(next) => take_entry(values, log, x, l, session, next),
        Err(refusal) => records::keeps(Answer::from(refusal), x),
    }
}
