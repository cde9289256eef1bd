// The locks of a log's entries: rolling back, on three lent slices; and sealing, on that of the readers (document 01, "The steps").
#![tactic(auto)]

ghost use Rattle.std.specs.Prelude.{◌≡◌, ◌+◌, ◌*◌, ◌<◌, ◌≤◌, length, get_or, set, replicate};
ghost use Rattle.model.specs.Readers.{without_reader};
ghost use Rattle.model.specs.Buffers.{cell_at, on_lock, withdraw};
ghost use Rattle.model.specs.Slices.{as_lent};
ghost use Rattle.lock.specs.Lent.{locks_in, SameSlices};
ghost use Rattle.sweeps.specs.Sweeps.{Swept, DropsReads, DropsUpTo, marked, mark, RollsBack, DropsAt};

use lock::Locks;
use std::marker::Model;

// ---- rolling back

// The session leaves the readers of one cell.
fn leave_at(readers: &mut [u16], cell: u32, session: u8)
    requires { (session < 16) × (cell < length readers.old) }
    ensures { readers.new ≡ set readers.old cell (without_reader session (get_or readers.old cell 0)) }
{
    let c = cell as usize;
    readers[c] = lock::without_reader(readers[c], session);
}

// The session withdraws from one cell.
fn withdraw_at(locks: &mut Locks, cell: u32, session: u8)
    requires { (session < 16) × (cell < length locks.old.readers.now) }
    ensures lent { SameSlices locks.old locks.new }
    ensures withdrawn { locks_in locks.new ≡ on_lock cell (withdraw session) (locks_in locks.old) }
{
    leave_at(locks.readers, cell, session);
    let c = cell as usize;
    if locks.claimants[c] == session {
        locks.claimants[c] = 16;
        locks.exclusives[c] = 0;
    }
}

// Rolling back: the session withdraws from the cell of each entry.
pub fn roll_back(locks: &mut Locks, log: &[u32], count: usize, session: u8)
    requires { Swept session log.now count (length locks.old.readers.now) }
    ensures lent { SameSlices locks.old locks.new }
    ensures rolled_back { RollsBack log.now count session locks.old locks.new }
{
    for i in 0..count {
        withdraw_at(locks, session_log::cell_at(log, i), session);
    }
}

// ---- a set of cells

// A set of cells below 1,024: a word for each 64 of them, in it a bit for each. Any sixteen words are a set.
#[derive(Drop)]
pub struct CellSet {
    pub words: [u64; 16],
}

impl Model for CellSet {
    ghost use Rattle.std.specs.Prelude.{◌≡◌, ℕ, List, length};

    ghost Value = { List ℕ };

    ghost view = { λ s. s.words };

    ghost invariant = { λ s. length s.words ≡ 16 };
}

impl CellSet {
    // No cell.
    pub fn new() -> CellSet
        ensures { result ≡ replicate 16 0 }
    {
        CellSet { words: [0; 16] }
    }

    // Whether a cell is in the set.
    pub fn contains(&self, cell: u32) -> bool
        requires { cell < 1024 }
        ensures { result ≡ marked self.now cell }
    {
        let w = (cell / 64) as usize;
        (self.words[w] >> (cell % 64)) % 2 == 1
    }

    // A cell is put into the set.
    pub fn insert(&mut self, cell: u32)
        requires { cell < 1024 }
        ensures { self.new ≡ mark self.old cell }
    {
        let w = (cell / 64) as usize;
        self.words[w] |= 1u64 << (cell % 64);
    }
}

// ---- sealing

// Entry k at sealing: a cell that the entry publishes is marked; of one that it does not publish, and that no entry before it does, the session leaves the readers.
fn drop_at(log: &[u32], k: usize, readers: &mut [u16], written: &mut CellSet, session: u8)
    requires { (session < 16) × (4 * k + 3 < length log.now) × (cell_at log.now k < 1024) × (cell_at log.now k < length readers.old) }
    ensures { DropsAt log k session (as_lent written) (as_lent readers) }
{
    let cell = session_log::cell_at(log, k);
    let stays = session_log::publishes(log, k);
    if stays {
        written.insert(cell);
        return;
    }
    if written.contains(cell) {
        return;
    }
    leave_at(readers, cell, session);
}

// The session leaves the readers of the cells before the first entry that publishes; the entry's index, where there is one.
fn drop_unpublished(log: &[u32], count: usize, readers: &mut [u16], session: u8) -> Option<usize>
    requires { (Swept session log.now count (length readers.old)) × (length readers.old ≤ 1024) }
    ensures { DropsUpTo log.now count session readers.old readers.new result }
{
    for i in 0..count {
        if session_log::publishes(log, i) {
            return Some(i);
        }
        leave_at(readers, session_log::cell_at(log, i), session);
    }
    None
}

// Sealing: the session leaves the readers of each cell entered that does not publish. Where none does no cell need be marked.
pub fn drop_reads(log: &[u32], count: usize, readers: &mut [u16], session: u8)
    requires { (Swept session log.now count (length readers.old)) × (length readers.old ≤ 1024) }
    ensures { DropsReads log.now count session readers.old readers.new }
{
    let Some(first) = drop_unpublished(log, count, readers, session) else {
        return;
    };
    let mut written = CellSet::new();
    for i in first..count {
        drop_at(log, i, readers, &mut written, session);
    }
}
