// The store: the calls but peek (crate peeks), and a load of caps, on number slices that the caller lends (document 01, "The steps").
// A call takes the record of its session and hands it back with its answer. It is admitted (7 and 1), looks up the lock that it needs, takes its turn
// (crates calls, advance and turns) and carries out what becomes of the locks. The six slices are parameters, as C lends them: by `&` or `&mut` each shows what the call
// may change.
#![tactic(auto)]

mod ends;

ghost use Rattle.std.specs.Prelude.{◌≡◌};
ghost use Rattle.records.specs.declared.Call.TheVariants.{Begin, Read, Write, Seal, Advance, Abandon, Hold};
ghost use Rattle.contracts.specs.Lent.{TakesOne, TakesOneBy, Loads};
ghost use Rattle.model.specs.Slices.{as_lent};

use ends::carry_out;
use records::{Answer, Refusal, Reply, Session, SessionReply, Sessions};
use refusals::Lengths;

// ---- a table of caps

// Load: while every session is idle the table is put in the place of the one in force. 100, 7, 2, 16, 8 or 17.
pub fn load_caps(
    sessions: Sessions,
    values: &[u32],
    classes: &[u8],
    readers: &[u16],
    claimants: &[u8],
    exclusives: &[u8],
    logs: &[u32],
    caps: &mut [u32],
    table: &[u32],
) -> Reply
    ensures { Loads (as_lent caps) table values classes readers claimants exclusives logs sessions result }
{
    let loaded = loads::load_caps(
        sessions,
        values,
        classes,
        readers.len(),
        claimants.len(),
        exclusives.len(),
        logs.len(),
        caps,
        table,
    );
    Reply {
        answer: Answer::from(loaded),
        sessions,
    }
}

// ---- the calls. Read and hold differ in what decides and in what takes the turn: one function over both would be handed two closures, and its contract would have to
// say of each what it answers; the contracts of read and hold say it by the model's call. What they share, their end, is in `ends`.

// Begin: idle only. The session runs with no entry. 100.
pub fn begin(
    x: Session,
    values: &[u32],
    classes: &[u8],
    readers: &[u16],
    claimants: &[u8],
    exclusives: &[u8],
    logs: &[u32],
    session: u8,
) -> SessionReply
    ensures { TakesOne (Begin session) values classes readers claimants exclusives logs x result }
{
    let lengths = Lengths::of(values, classes, readers, claimants, exclusives, logs);
    if let Err(refusal) = lengths.admit(session) {
        return SessionReply::refused(refusal, x);
    }
    let log = session_log::of_session(logs, session);
    SessionReply::from(calls::take_begin(log, values.len(), x))
}

// Read: running only. 101 with a known cell's present value; a new cell is locked and entered, or the session is rolled back, 6.
pub fn read(
    x: Session,
    values: &[u32],
    classes: &[u8],
    readers: &mut [u16],
    claimants: &mut [u8],
    exclusives: &mut [u8],
    logs: &mut [u32],
    session: u8,
    cell: u32,
) -> SessionReply
    ensures { TakesOne (Read session cell) values classes (as_lent readers) (as_lent claimants) (as_lent exclusives) (as_lent logs) x result }
{
    let lengths = Lengths::of(values, classes, readers, claimants, exclusives, logs);
    if let Err(refusal) = lengths.admit(session) {
        return SessionReply::refused(refusal, x);
    }
    let p = plans::read_plan(
        session_log::of_session(logs, session),
        values.len(),
        x,
        cell,
    );
    let l = locks::lock_for(readers, claimants, exclusives, p);
    let t = turns::read(values, logs, x, l, session, cell, p);
    let log = session_log::of_session(logs, session);
    carry_out(
        t,
        readers,
        claimants,
        exclusives,
        log,
        x.count as usize,
        session,
    )
}

// Hold: running only. As read, and with 101 the cell's entry is held: from the seal on the cell counts as written.
pub fn hold(
    x: Session,
    values: &[u32],
    classes: &[u8],
    readers: &mut [u16],
    claimants: &mut [u8],
    exclusives: &mut [u8],
    logs: &mut [u32],
    session: u8,
    cell: u32,
) -> SessionReply
    ensures { TakesOne (Hold session cell) values classes (as_lent readers) (as_lent claimants) (as_lent exclusives) (as_lent logs) x result }
{
    let lengths = Lengths::of(values, classes, readers, claimants, exclusives, logs);
    if let Err(refusal) = lengths.admit(session) {
        return SessionReply::refused(refusal, x);
    }
    let p = plans::hold_plan(
        session_log::of_session(logs, session),
        values.len(),
        x,
        cell,
    );
    let l = locks::lock_for(readers, claimants, exclusives, p);
    let t = turns::hold(values, logs, x, l, session, cell, p);
    let log = session_log::of_session(logs, session);
    carry_out(
        t,
        readers,
        claimants,
        exclusives,
        log,
        x.count as usize,
        session,
    )
}

// Write: running only. A new cell is locked and entered as by read; then the entry is updated. 100.
pub fn write(
    x: Session,
    values: &[u32],
    classes: &[u8],
    readers: &mut [u16],
    claimants: &mut [u8],
    exclusives: &mut [u8],
    logs: &mut [u32],
    session: u8,
    cell: u32,
    value: u32,
) -> SessionReply
    ensures { TakesOne (Write session cell value) values classes (as_lent readers) (as_lent claimants) (as_lent exclusives) (as_lent logs) x result }
{
    write_with_caps(
        x,
        values,
        classes,
        readers,
        claimants,
        exclusives,
        logs,
        caps::ours(),
        session,
        cell,
        value,
    )
}

// The same by a table, which need not pass. Inlined in a write: a call would make a write of a known cell 196 instructions, in place of 122.
#[inline(always)]
pub fn write_with_caps(
    x: Session,
    values: &[u32],
    classes: &[u8],
    readers: &mut [u16],
    claimants: &mut [u8],
    exclusives: &mut [u8],
    logs: &mut [u32],
    caps: &[u32],
    session: u8,
    cell: u32,
    value: u32,
) -> SessionReply
    ensures { TakesOneBy caps (Write session cell value) values classes (as_lent readers) (as_lent claimants) (as_lent exclusives) (as_lent logs) x result }
{
    if caps.len() != 16 {
        return SessionReply::refused(Refusal::WrongLengths, x);
    }
    let lengths = Lengths::of(values, classes, readers, claimants, exclusives, logs);
    if let Err(refusal) = lengths.admit(session) {
        return SessionReply::refused(refusal, x);
    }
    let p = plans::write_plan_by(
        caps,
        session_log::of_session(logs, session),
        classes,
        x,
        cell,
        value,
    );
    let l = locks::lock_for(readers, claimants, exclusives, p);
    let t = turns::write(values, logs, x, l, session, cell, value, p);
    let log = session_log::of_session(logs, session);
    carry_out(
        t,
        readers,
        claimants,
        exclusives,
        log,
        x.count as usize,
        session,
    )
}

// Seal: running only. The session leaves the readers of each cell entered that it does not publish. 105 where it publishes none, else 102.
pub fn seal(
    x: Session,
    values: &[u32],
    classes: &[u8],
    readers: &mut [u16],
    claimants: &[u8],
    exclusives: &[u8],
    logs: &[u32],
    session: u8,
) -> SessionReply
    ensures { TakesOne (Seal session) values classes (as_lent readers) claimants exclusives logs x result }
{
    let lengths = Lengths::of(values, classes, readers, claimants, exclusives, logs);
    if let Err(refusal) = lengths.admit(session) {
        return SessionReply::refused(refusal, x);
    }
    let log = session_log::of_session(logs, session);
    let t = calls::take_seal(log, values.len(), x);
    locks::change_drop(t.change, log, x.count as usize, readers, session);
    SessionReply::from(t)
}

// Advance: phases 2 to 4. One cell that the session publishes is promoted, published or released. 103, 104 and how many others read, 105, or 6.
pub fn advance(
    x: Session,
    values: &mut [u32],
    classes: &[u8],
    readers: &mut [u16],
    claimants: &mut [u8],
    exclusives: &mut [u8],
    logs: &[u32],
    session: u8,
) -> SessionReply
    ensures { TakesOne (Advance session) (as_lent values) classes (as_lent readers) (as_lent claimants) (as_lent exclusives) logs x result }
{
    let lengths = Lengths::of(values, classes, readers, claimants, exclusives, logs);
    if let Err(refusal) = lengths.admit(session) {
        return SessionReply::refused(refusal, x);
    }
    let log = session_log::of_session(logs, session);
    let due = advance::due_slot(log, values.len(), x);
    let cell = advance::due_cell(log, due);
    let l = locks::at(readers, claimants, exclusives, cell);
    let t = advance::take_advance(values, log, x, l, session, due);
    carry_out(
        t,
        readers,
        claimants,
        exclusives,
        log,
        x.count as usize,
        session,
    )
}

// Abandon: phases 1 and 2. The session is rolled back. 100.
pub fn abandon(
    x: Session,
    values: &[u32],
    classes: &[u8],
    readers: &mut [u16],
    claimants: &mut [u8],
    exclusives: &mut [u8],
    logs: &[u32],
    session: u8,
) -> SessionReply
    ensures { TakesOne (Abandon session) values classes (as_lent readers) (as_lent claimants) (as_lent exclusives) logs x result }
{
    let lengths = Lengths::of(values, classes, readers, claimants, exclusives, logs);
    if let Err(refusal) = lengths.admit(session) {
        return SessionReply::refused(refusal, x);
    }
    let log = session_log::of_session(logs, session);
    let t = calls::take_abandon(log, values.len(), x);
    carry_out(
        t,
        readers,
        claimants,
        exclusives,
        log,
        x.count as usize,
        session,
    )
}
