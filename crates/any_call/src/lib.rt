// Any call's turn, by the lock of the one cell that it may need, on its session's log and on the logs of all.
#![tactic(auto)]

ghost use Rattle.std.specs.Prelude.{◌≡◌, ◌<◌, ◌≤◌, length};
ghost use Rattle.model.specs.Buffers.{log_in};
ghost use Rattle.model.specs.Plans.{peek_plan};
ghost use Rattle.model.specs.Slices.{as_lent};
ghost use Rattle.model.specs.Step.{session_of};
ghost use Rattle.model.specs.Turns.{TakesTurn, TurnsLog};
ghost use Rattle.turns.specs.InLogs.{TakesIn};
ghost use Rattle.any_call.specs.AnyCall.{cell_for, plan_with};

use records::{Answer, Call, Change, Lock, Plan, Session, Turn};

// The cell whose lock a call may need, by its session's log and record; 0 where it needs none, as in the definition, so that every call has one lock handed in.
#[tactic(auto, unfolding(crate::specs::AnyCall::cell_for))]
pub fn cell_for(call: Call, log: &[u32], n: usize, x: Session) -> u32
    requires { (length log.now ≡ 128) × (n ≤ 1024) }
    ensures { result ≡ cell_for call n log.now x }
{
    match call {
        Call::Begin(_) => 0,
        Call::Read(_, c) => c,
        Call::Write(_, c, _) => c,
        Call::Seal(_) => 0,
        Call::Advance(_) => {
            let due = advance::due_slot(log, n, x);
            advance::due_cell(log, due)
        }
        Call::Abandon(_) => 0,
        Call::Peek(_, _) => 0,
        Call::Hold(_, c) => c,
    }
}

// A peek's turn: its number, and nothing changes.
fn take_peek(log: &[u32], n: usize, x: Session, cell: u32) -> Turn
    requires { (length log.now ≡ 128) × (n ≤ 1024) }
    ensures { TurnsLog (peek_plan n log.now x cell) log x result }
{
    match plans::peek_plan(log, n, x, cell) {
        Plan::Refuse(number) => records::keeps(Answer::Refused(number), x),
        _ => records::keeps(Answer::Done, x),
    }
}

// Any call's turn, with the lock of the cell that it may need, on its session's log.
fn take_call(
    call: Call,
    values: &mut [u32],
    classes: &[u8],
    log: &mut [u32],
    x: Session,
    l: Lock,
) -> Turn
    requires { (length log.old ≡ 128) × (length values.old ≤ 1024) × (length classes.now ≡ length values.old) × (session_of call < 16) }
    ensures { TakesTurn (plan_with call (length values.old) classes.now log.old x l) (as_lent values) (as_lent log) x result }
{
    let n = values.len();
    match call {
        Call::Begin(_) => calls::take_begin(log, n, x),
        Call::Read(_, c) => {
            let p = plans::read_plan(log, n, x, c);
            calls::take_read(values, log, x, l, c, p)
        }
        Call::Write(_, c, v) => {
            let p = plans::write_plan(log, classes, x, c, v);
            calls::take_write(values, log, x, l, c, v, p)
        }
        Call::Seal(_) => calls::take_seal(log, n, x),
        Call::Advance(s) => {
            let due = advance::due_slot(log, n, x);
            advance::take_advance(values, log, x, l, s, due)
        }
        Call::Abandon(_) => calls::take_abandon(log, n, x),
        Call::Peek(_, c) => take_peek(log, n, x, c),
        Call::Hold(_, c) => {
            let p = plans::hold_plan(log, n, x, c);
            calls::take_hold(values, log, x, l, c, p)
        }
    }
}

// The same on the logs of all sessions.
pub fn any(
    call: Call,
    values: &mut [u32],
    classes: &[u8],
    logs: &mut [u32],
    x: Session,
    l: Lock,
    session: u8,
) -> Turn
    requires { (session < 16) × (length logs.old ≡ 2048) × (length values.old ≤ 1024) × (length classes.now ≡ length values.old) × (session ≡ session_of call) }
    ensures { TakesIn session (plan_with call (length values.old) classes.now (log_in logs.old session) x l) (as_lent values) (as_lent logs) x result }
{
    let a = 128 * (session as usize);
    let e = a + 128;
    take_call(call, values, classes, &mut logs[a..e], x, l)
}
