// Reads of cells on one session's log, past the tests of 7, 1, 9 and 2, and the test of a list and its target (document 02, Paper 1).
#![tactic(auto)]

ghost use Rattle.std.specs.Prelude.{◌≡◌, true, ◌*◌, ◌<◌, ◌≤◌, length};
ghost use Rattle.model.specs.Search.{below};
ghost use Rattle.model.specs.Buffers.{cell_at, slot_in};
ghost use Rattle.model.specs.ManyReads.{list_refusal};
ghost use Rattle.model.specs.Slices.{as_lent};
ghost use Rattle.records.specs.Records.{refusal_of};
ghost use Rattle.session_log.specs.Slots.{found};
ghost use Rattle.sweeps.specs.Sweeps.{marked};
ghost use Rattle.cell_reads.specs.Cells.{Fits, Covers, ReadsFit, current_of, SameReads, Enters, ReadsCell, ReadsCells};

use records::Refusal;
use sweeps::CellSet;

// ---- the list and the target

// 15 where the list has no cell or more than 32, 13 where the target is shorter than the list.
#[tactic(auto, unfolding(model::specs::ManyReads::list_refusal))]
pub fn list_refusal(cells: usize, target: usize) -> Result<(), Refusal>
    ensures { refusal_of result ≡ list_refusal cells target }
{
    if (cells == 0) | (32 < cells) {
        return Err(Refusal::WrongList);
    }
    if target < cells {
        return Err(Refusal::ShortTarget);
    }
    Ok(())
}

// ---- the cells in the log

// The cells of the first count entries.
#[tactic(auto, using(crate::proofs::Marks::cell_low))]
fn cells_of(log: &[u32], count: usize) -> CellSet
    requires { (4 * count ≤ length log.now) × (below 1024 (cell_at log.now) count ≡ true) }
    ensures { Covers result log.now count }
{
    let mut entered = CellSet::new();
    for i in 0..count {
        entered.insert(session_log::cell_at(log, i));
    }
    entered
}

// ---- one read, past the tests of 7, 1, 9 and 2

// The reads of a running session so far: of what values and claims, and what they leave. Its log has so many entries, and their cells are in the set, which is lent
// since a call with the set itself in here takes 16 instructions more. `ReadsFit`, which the methods ask, is no ghost field: as one it would have to be shown between
// the writes of `enter`.
#[derive(Drop)]
struct Reads<'a> {
    values: &'a [u32],
    claimants: &'a [u8],
    session: u8,
    readers: &'a mut [u16],
    log: &'a mut [u32],
    entries: usize,
    entered: &'a mut CellSet,
}

impl Reads<'_> {
    // The present value of a cell that has an entry.
    fn value_of(&self, cell: u32) -> Option<u32>
        requires { 4 * self.now.entries ≤ length self.now.log.now }
        ensures { found result ≡ current_of self.now.log.now (slot_in self.now.log.now self.now.entries cell) }
    {
        let k = look_ups::locate(self.log, self.entries, cell)?;
        Some(session_log::current(self.log, k))
    }

    // The same, and the cell is in the set from now on. One that was not in it has none, and is not searched for. Put into the set here, before it is known to be
    // entered, 32 new cells take about an eighth fewer instructions.
    fn known(&mut self, cell: u32) -> Option<u32>
        requires { ReadsFit self.old × (cell < 1024) }
        ensures value { found result ≡ current_of self.old.log.now (slot_in self.old.log.now self.old.entries cell) }
        ensures kept { self.new ≡ record self.old { entered = self.new.entered } }
        ensures inserted { Covers self.new.entered.now self.new.log.now self.new.entries × (marked self.new.entered.now cell ≡ true) }
    {
        let unmarked = !self.entered.contains(cell);
        self.entered.insert(cell);
        if unmarked {
            return None;
        }
        self.value_of(cell)
    }

    // A new cell: the session joins its readers, and an entry is appended. The value.
    fn enter(&mut self, cell: u32) -> u32
        requires { ReadsFit self.old × (self.old.entries < 32) × (cell < length self.old.values.now) × (marked self.old.entered.now cell ≡ true) }
        ensures kept { SameReads self.old self.new }
        ensures entered { Enters cell self.old self.new result }
    {
        let c = cell as usize;
        let value = self.values[c];
        self.readers[c] = lock::with_reader(self.readers[c], self.session);
        session_log::append(self.log, self.entries, cell, value);
        self.entries += 1;
        value
    }

    // A known cell's value or a new cell's, or 3, 5 or 6 with the reader sets and the log as before. The session is not rolled back here.
    #[tactic(auto, unfolding(crate::specs::Cells::read_cell, crate::specs::Cells::new_read), using(crate::proofs::Ways::slot_known, crate::proofs::Ways::slot_new))]
    fn read(&mut self, cell: u32) -> Result<u32, Refusal>
        requires { ReadsFit self.old }
        ensures kept { SameReads self.old self.new }
        ensures read { ReadsCell cell self.old self.new result }
    {
        let c = cell as usize;
        if self.values.len() <= c {
            return Err(Refusal::UnknownCell);
        }
        if let Some(value) = self.known(cell) {
            return Ok(value);
        }
        if 31 < self.entries {
            return Err(Refusal::FullLog);
        }
        if self.claimants[c] != 16 {
            return Err(Refusal::Conflict);
        }
        Ok(self.enter(cell))
    }
}

// ---- the reads

// What they came to: how the last ended, how many values were obtained, and how many entries the log has.
#[derive(Clone, Copy)]
pub struct CellsReply {
    pub ended: Result<(), Refusal>,
    pub count: usize,
    pub entries: usize,
}

// Reads in order, to the first that gets no value, on the session's log.
pub fn read_cells(
    values: &[u32],
    readers: &mut [u16],
    claimants: &[u8],
    log: &mut [u32],
    count: usize,
    session: u8,
    cells: &[u32],
    target: &mut [u32],
) -> CellsReply
    requires { Fits session (length values.now) (length readers.old) (length claimants.now) log.old count × (length cells.now ≤ 32) × (length cells.now ≤ length target.old) }
    ensures { ReadsCells values (as_lent readers) claimants (as_lent log) count session cells (as_lent target) result }
{
    let mut entered = cells_of(log, count);
    let mut reads = Reads {
        values,
        claimants,
        session,
        readers,
        log,
        entries: count,
        entered: &mut entered,
    };
    for (i, cell) in cells.iter().enumerate() {
        match reads.read(*cell) {
            Ok(value) => target[i] = value,
            Err(refusal) => {
                return CellsReply {
                    ended: Err(refusal),
                    count: i,
                    entries: reads.entries,
                };
            }
        }
    }
    CellsReply {
        ended: Ok(()),
        count: cells.len(),
        entries: reads.entries,
    }
}
