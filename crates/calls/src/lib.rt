// The calls but advance, each as a function that knows neither sixteen records nor how locks are kept: its turn, with the one lock that it needs by value. What becomes
// of the locks is handed back.
#![tactic(auto)]

ghost use Rattle.std.specs.Prelude.{◌≡◌, ◌||◌, ◌≤◌, ◌<◌, eqb, length};
ghost use Rattle.model.specs.Buffers.{free};
ghost use Rattle.model.specs.Plans.{guard, read_plan, hold_plan, seal_plan};
ghost use Rattle.model.specs.Slices.{as_lent};
ghost use Rattle.model.specs.Turns.{TakesTurn, TurnsLog};
ghost use Rattle.records.specs.declared.Plan.TheVariants.{Start, Cancel};
ghost use Rattle.calls.specs.Pieces.{found_unclaimed, logged, WriteDecided, TurnsWrite};

use records::{Answer, Change, Lock, Plan, Session, Turn};

// Begin: idle only. The session runs with no entry. 100.
pub fn take_begin(log: &[u32], n: usize, x: Session) -> Turn
    requires { (length log.now ≡ 128) × (n ≤ 1024) }
    ensures { TurnsLog (guard n log.now x (eqb x.phase 0) Start) log x result }
{
    let open = x.phase != 0;
    if open {
        return records::keeps(Answer::from(refusals::unfit(log, n, x)), x);
    }
    records::keeps(Answer::Done, x.begun())
}

// Abandon: phases 1 and 2. The session is rolled back. 100.
pub fn take_abandon(log: &[u32], n: usize, x: Session) -> Turn
    requires { (length log.now ≡ 128) × (n ≤ 1024) }
    ensures { TurnsLog (guard n log.now x (eqb x.phase 1 || eqb x.phase 2) Cancel) log x result }
{
    let fit = (x.phase == 1) | (x.phase == 2);
    if let Err(refusal) = refusals::tests(log, n, x, fit) {
        return records::keeps(Answer::from(refusal), x);
    }
    Turn {
        answer: Answer::Done,
        session: x.idled(),
        change: Change::Withdraw,
    }
}

// Read, hold and write enter a new cell by one function. What is told, marked or updated differs at both ends, so they have a function each: one over these would take three
// closures.

// A new cell entered: its value; or none, and no entry, where it is claimed.
#[inline(always)]
fn enter(values: &[u32], log: &mut [u32], x: Session, l: Lock, cell: u32) -> Option<u32>
    requires { (length log.old ≡ 128) × (x.count < 32) × (cell < length values.now) }
    ensures { (result ≡ found_unclaimed values.now l cell) × (log.new ≡ logged log.old x.count cell result) }
{
    if lock::is_claimed(l) {
        return None;
    }
    let value = values[cell as usize];
    session_log::append(log, x.count as usize, cell, value);
    Some(value)
}

// Read: running only. 101 with a known cell's present value; a new cell is entered, or, where it is claimed, the session rolled back, 6.
pub fn take_read(values: &[u32], log: &mut [u32], x: Session, l: Lock, cell: u32, p: Plan) -> Turn
    requires { (length log.old ≡ 128) × (p ≡ read_plan (length values.now) log.old x free cell) }
    ensures { TakesTurn (read_plan (length values.now) log.old x l cell) values (as_lent log) x result }
{
    match p {
        Plan::Tell(value) => return records::keeps(Answer::Value(value), x),
        Plan::Refuse(number) => return records::keeps(Answer::Refused(number), x),
        _ => {}
    }
    let Some(value) = enter(values, log, x, l, cell) else {
        return records::rolled_back(x);
    };
    records::enters(Answer::Value(value), x, cell)
}

// Hold: running only. As read, and with 101 the entry is held.
pub fn take_hold(values: &[u32], log: &mut [u32], x: Session, l: Lock, cell: u32, p: Plan) -> Turn
    requires { (length log.old ≡ 128) × (p ≡ hold_plan (length values.now) log.old x free cell) }
    ensures { TakesTurn (hold_plan (length values.now) log.old x l cell) values (as_lent log) x result }
{
    match p {
        Plan::Mark(k, value) => {
            session_log::mark(log, k as usize);
            return records::keeps(Answer::Value(value), x);
        }
        Plan::Refuse(number) => return records::keeps(Answer::Refused(number), x),
        _ => {}
    }
    let Some(value) = enter(values, log, x, l, cell) else {
        return records::rolled_back(x);
    };
    session_log::mark(log, x.count as usize);
    records::enters(Answer::Value(value), x, cell)
}

// Write, by whatever table and classes it was decided: running only. A new cell is entered as by read; then the entry is updated. 100.
pub fn take_write(
    values: &[u32],
    log: &mut [u32],
    x: Session,
    l: Lock,
    cell: u32,
    written: u32,
    p: Plan,
) -> Turn
    requires { (length log.old ≡ 128) × (WriteDecided (length values.now) log.old x cell written p) }
    ensures { TurnsWrite values (as_lent log) x l cell written p result }
{
    match p {
        Plan::Update(k, value) => {
            session_log::update(log, k as usize, value);
            return records::keeps(Answer::Done, x);
        }
        Plan::Refuse(number) => return records::keeps(Answer::Refused(number), x),
        _ => {}
    }
    let Some(_) = enter(values, log, x, l, cell) else {
        return records::rolled_back(x);
    };
    session_log::update(log, x.count as usize, written);
    records::enters(Answer::Done, x, cell)
}

// Seal: running only. The session leaves the readers of each cell entered that it does not publish. 105 where it publishes none, else 102.
pub fn take_seal(log: &[u32], n: usize, x: Session) -> Turn
    requires { (length log.now ≡ 128) × (n ≤ 1024) }
    ensures { TurnsLog (seal_plan n log.now x) log x result }
{
    if let Err(refusal) = refusals::runs(log, n, x) {
        return records::keeps(Answer::from(refusal), x);
    }
    let publishes = targets::any_publishes(log, x.count as usize, 0);
    if publishes {
        Turn {
            answer: Answer::Sealed,
            session: x.sealed(),
            change: Change::DropReads,
        }
    } else {
        Turn {
            answer: Answer::Committed,
            session: x.idled(),
            change: Change::DropReads,
        }
    }
}
