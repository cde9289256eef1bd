// A change of the run of lock records, lock by lock: how many locks it changes, which cell's lock is the i-th, and what becomes of it.
// It touches no run: it reads the logs, and takes a lock by value.
#![tactic(auto)]

ghost use Rattle.std.specs.Prelude.{◌≡◌, ◌<◌, ◌≤◌, length};
ghost use Rattle.model.specs.Buffers.{log_in, cell_at};
ghost use Rattle.records.specs.declared.Change.TheVariants.{DropReads};
ghost use Rattle.run_changes.specs.declared.Change.TheVariants.{Turn};
ghost use Rattle.run_changes.specs.Run.{count_of, cell_of, change_of, SessionFits, ChangeFits};

use records::Lock;

// What a call does to the locks: what its turn does, of a session with so many entries; or, by set-up, all of so many cells are emptied.
#[derive(Clone, Copy)]
pub enum Change {
    Turn {
        change: records::Change,
        session: u8,
        entries: u8,
    },
    Clear(u32),
}

// How many locks are changed, one after the other.
#[tactic(auto, unfolding(crate::specs::Run::count_of))]
pub fn count_of(change: Change) -> usize
    ensures { result ≡ count_of change }
{
    match change {
        Change::Turn {
            change,
            entries,
            ..
        } => match change {
            records::Change::Keep => 0,
            records::Change::Withdraw | records::Change::DropReads => entries as usize,
            _ => 1,
        },
        Change::Clear(n) => n as usize,
    }
}

// The cell of entry i of a session.
fn entry_cell(logs: &[u32], session: u8, i: usize) -> usize
    requires { (session < 16) × (i < 32) × (length logs.now ≡ 2048) }
    ensures { result ≡ cell_at (log_in logs.now session) i }
{
    session_log::cell_at(session_log::of_session(logs, session), i) as usize
}

// The same, or 1,024 where the cell publishes: of m entries the cell's first counts. (No Option: `cell_of` in specs/Run.antt has 1,024 for no cell, and
// sweeps a run of any length by it.)
#[tactic(auto, using(crate::proofs::Cells::published, crate::proofs::Cells::unpublished, crate::proofs::Cells::without_entry))]
fn unpublished_cell(logs: &[u32], session: u8, m: u8, i: usize) -> usize
    requires { (session < 16) × (m ≤ 32) × (i < m) × (length logs.now ≡ 2048) }
    ensures { result ≡ cell_of logs.now (Turn DropReads session m) i }
{
    let log = session_log::of_session(logs, session);
    let cell = session_log::cell_at(log, i);
    let Some(k) = look_ups::find(log, m as usize, cell) else {
        return cell as usize;
    };
    if session_log::publishes(log, k) {
        return 1024;
    }
    cell as usize
}

// The cell whose lock is changed i-th, from 0.
#[tactic(auto, unfolding(crate::specs::Run::cell_of, crate::specs::Run::count_of))]
pub fn cell_of(logs: &[u32], change: Change, i: usize) -> usize
    requires { (ChangeFits logs.now change) × (i < count_of change) }
    ensures { result ≡ cell_of logs.now change i }
{
    match change {
        Change::Turn {
            change,
            session,
            entries,
        } => match change {
            records::Change::Keep => 1024,
            records::Change::Join(cell)
            | records::Change::Claim(cell)
            | records::Change::Acquire(cell)
            | records::Change::Vacate(cell) => cell as usize,
            records::Change::Withdraw => entry_cell(logs, session, i),
            records::Change::DropReads => unpublished_cell(logs, session, entries, i),
        },
        Change::Clear(_) => i,
    }
}

// What becomes of a lock.
#[tactic(auto, unfolding(crate::specs::Run::change_of))]
pub fn changed(l: Lock, change: Change) -> Lock
    requires { SessionFits change }
    ensures { result ≡ change_of change l }
{
    match change {
        Change::Turn {
            change,
            session,
            ..
        } => match change {
            records::Change::Keep => l,
            records::Change::Join(_) => lock::joined(l, session),
            records::Change::Claim(_) => lock::claimed(l, session),
            records::Change::Acquire(_) => lock::acquired(l, session),
            records::Change::Vacate(_) => lock::vacated(l, session),
            records::Change::Withdraw => lock::withdrawn(l, session),
            records::Change::DropReads => lock::left(l, session),
        },
        Change::Clear(_) => lock::empty(),
    }
}
