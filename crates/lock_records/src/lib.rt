// The calls on locks that the caller lends as one run of records (document 01, "What the caller lends", Locks).
// A call on the run reads one lock, takes its turn with that lock by value (crate run_turns), and carries out on the run the change that comes back
// (crate lock_run).
#![tactic(auto)]

ghost use Rattle.records.specs.declared.Call.TheVariants.{Write};
ghost use Rattle.model.specs.Slices.{as_lent};
ghost use Rattle.lock_records.specs.Lent.{Takes, TakesBy, SetsUp, SetsUpBy, Loads, HandsBack};

use records::{Call, Lock, Reply, Sessions};

// Set-up by a table: all sessions idle, all locks empty, all log words 0. 100, 7, 16 or 8. It stands apart: where it is inlined before an inlined call, the
// compiler keeps the sixteen records as 48 numbers, which costs that call 300 instructions more.
#[inline(never)]
pub fn set_up_with_caps(
    sessions: Sessions,
    values: &[u32],
    classes: &[u8],
    locks: &mut [Lock],
    logs: &mut [u32],
    caps: &[u32],
) -> Reply
    ensures { SetsUpBy caps values classes (as_lent locks) (as_lent logs) sessions result }
{
    let t = run_turns::set_up_turn_by(sessions, values, classes, locks.len(), logs, caps);
    lock_run::sweep(locks, logs, t.change);
    t.reply
}

// Set-up by our table, which passes: 100, 7 or 8.
pub fn set_up(
    sessions: Sessions,
    values: &[u32],
    classes: &[u8],
    locks: &mut [Lock],
    logs: &mut [u32],
) -> Reply
    ensures { SetsUp values classes (as_lent locks) (as_lent logs) sessions result }
{
    set_up_with_caps(sessions, values, classes, locks, logs, caps::ours())
}

// A table in the place of the one in force, while every session is idle. 100, 7, 2, 16, 8 or 17.
pub fn load_caps(
    sessions: Sessions,
    values: &[u32],
    classes: &[u8],
    locks: &[Lock],
    logs: &[u32],
    caps: &mut [u32],
    table: &[u32],
) -> Reply
    ensures { Loads (as_lent caps) table values classes locks logs sessions result }
{
    run_turns::load_turn(
        sessions,
        values,
        classes,
        locks.len(),
        logs.len(),
        caps,
        table,
    )
}

// Any call: begin, read, write, seal, advance, abandon, hold, or peek's twin, which answers its number.
pub fn step(
    call: Call,
    sessions: Sessions,
    values: &mut [u32],
    classes: &[u8],
    locks: &mut [Lock],
    logs: &mut [u32],
) -> Reply
    ensures { Takes call (as_lent values) classes (as_lent locks) (as_lent logs) sessions result }
{
    let cell = run_turns::look_up(
        call,
        sessions,
        values.len(),
        classes.len(),
        locks.len(),
        logs,
    );
    let l = lock_run::lock_at(locks, cell);
    let t = run_turns::take_turn(call, sessions, values, classes, locks.len(), l, logs);
    lock_run::sweep(locks, logs, t.change);
    t.reply
}

// Write by the table that is handed in, also one that does not pass: 7 where it has not 16 caps, 8 and 4 by it.
pub fn write_with_caps(
    sessions: Sessions,
    values: &[u32],
    classes: &[u8],
    locks: &mut [Lock],
    logs: &mut [u32],
    caps: &[u32],
    session: u8,
    cell: u32,
    value: u32,
) -> Reply
    ensures { TakesBy caps (Write session cell value) values classes (as_lent locks) (as_lent logs) sessions result }
{
    let l = lock_run::lock_at(locks, cell as usize);
    let t = run_turns::write_turn(
        sessions,
        values,
        classes,
        locks.len(),
        l,
        logs,
        caps,
        session,
        cell,
        value,
    );
    lock_run::sweep(locks, logs, t.change);
    t.reply
}

// Peek: running only. One word, the store's own or the log's own; no word where the peek is refused.
pub fn peek<'a>(
    sessions: Sessions,
    values: &'a [u32],
    classes: &[u8],
    locks: &[Lock],
    logs: &'a [u32],
    session: u8,
    cell: u32,
) -> &'a [u32]
    ensures { HandsBack session cell values classes locks.now logs sessions result }
{
    run_turns::peek_part(
        sessions,
        values,
        classes.len(),
        locks.len(),
        logs,
        session,
        cell,
    )
}
