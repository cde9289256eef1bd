// What every form of the locks shares above the calls: a turn on the logs of all sessions, of which the session's is lent on, and a record taken out of the sixteen and
// put back. The laws by which a form meets its contracts stand in proofs/.
#![tactic(auto)]

ghost use Rattle.std.specs.Prelude.{◌≡◌, ◌<◌, ◌%◌, length};
ghost use Rattle.model.specs.Buffers.{free, session_at, with_session, log_in};
ghost use Rattle.model.specs.Plans.{read_plan, hold_plan};
ghost use Rattle.model.specs.Slices.{as_lent};
ghost use Rattle.turns.specs.InLogs.{TakesIn, TakesWriteIn};
ghost use Rattle.calls.specs.Pieces.{WriteDecided};

use records::{Lock, Plan, Reply, Session, Sessions, Turn};

// ---- a turn that changes the session's log. One function for each call, and none that hands out the session's part of the logs to be changed: of a slice that is lent
// on, the check does not tell what the logs are afterwards.

// Read.
pub fn read(
    values: &[u32],
    logs: &mut [u32],
    x: Session,
    l: Lock,
    session: u8,
    cell: u32,
    p: Plan,
) -> Turn
    requires { (session < 16) × (length logs.old ≡ 2048) × (p ≡ read_plan (length values.now) (log_in logs.old session) x free cell) }
    ensures { TakesIn session (read_plan (length values.now) (log_in logs.old session) x l cell) values (as_lent logs) x result }
{
    let a = 128 * (session as usize);
    let e = a + 128;
    calls::take_read(values, &mut logs[a..e], x, l, cell, p)
}

// Hold.
pub fn hold(
    values: &[u32],
    logs: &mut [u32],
    x: Session,
    l: Lock,
    session: u8,
    cell: u32,
    p: Plan,
) -> Turn
    requires { (session < 16) × (length logs.old ≡ 2048) × (p ≡ hold_plan (length values.now) (log_in logs.old session) x free cell) }
    ensures { TakesIn session (hold_plan (length values.now) (log_in logs.old session) x l cell) values (as_lent logs) x result }
{
    let a = 128 * (session as usize);
    let e = a + 128;
    calls::take_hold(values, &mut logs[a..e], x, l, cell, p)
}

// Write, by whatever table and classes it was decided.
pub fn write(
    values: &[u32],
    logs: &mut [u32],
    x: Session,
    l: Lock,
    session: u8,
    cell: u32,
    written: u32,
    p: Plan,
) -> Turn
    requires { (session < 16) × (length logs.old ≡ 2048) × (WriteDecided (length values.now) (log_in logs.old session) x cell written p) }
    ensures { TakesWriteIn session values (as_lent logs) x l cell written p result }
{
    let a = 128 * (session as usize);
    let e = a + 128;
    calls::take_write(values, &mut logs[a..e], x, l, cell, written, p)
}

// ---- the records of all sixteen

// The record of a session, which is taken modulo 16.
#[tactic(auto, unfolding(model::specs::Buffers::session_at))]
pub fn record_of(sessions: Sessions, session: u8) -> Session
    ensures { result ≡ session_at sessions (session % 16) }
{
    sessions.records[(session % 16) as usize]
}

// A turn's answer, with its record put back in its place.
#[tactic(auto, unfolding(model::specs::Buffers::with_session))]
pub fn put_back(t: Turn, mut sessions: Sessions, session: u8) -> Reply
    ensures { result ≡ record { answer = t.answer; sessions = with_session sessions (session % 16) t.session } }
{
    let answer = t.answer;
    let x = t.session;
    sessions.records[(session % 16) as usize] = x;
    Reply { answer, sessions }
}
