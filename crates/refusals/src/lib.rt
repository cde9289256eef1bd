// Refusals 7, 1, 9 and 2, which every call tests first, in this order.
#![tactic(auto)]

ghost use Rattle.std.specs.Prelude.{◌≡◌, false, ◌≤◌, eqb, length};
ghost use Rattle.records.specs.Records.{refusal_number, refusal_of};
ghost use Rattle.model.specs.Plans.{entries_fit, record_fits};
ghost use Rattle.refusals.specs.Pieces.{match_of, admission, tested};

use records::{Refusal, Session};

// The lengths of what the caller lends.
#[derive(Clone, Copy)]
pub struct Lengths {
    pub values: usize,
    pub classes: usize,
    pub readers: usize,
    pub claimants: usize,
    pub exclusives: usize,
    pub logs: usize,
}

impl Lengths {
    // Of number slices.
    #[inline(always)]
    pub fn of(
        values: &[u32],
        classes: &[u8],
        readers: &[u16],
        claimants: &[u8],
        exclusives: &[u8],
        logs: &[u32],
    ) -> Lengths
        ensures { result ≡ record { values = length values.now; classes = length classes.now; readers = length readers.now; claimants = length claimants.now; exclusives = length exclusives.now; logs = length logs.now } }
    {
        Lengths {
            values: values.len(),
            classes: classes.len(),
            readers: readers.len(),
            claimants: claimants.len(),
            exclusives: exclusives.len(),
            logs: logs.len(),
        }
    }

    // n from 1 to 1,024, classes and locks n long, 2,048 words of logs.
    #[inline(always)]
    #[tactic(auto, unfolding(model::specs::Buffers::lengths_match))]
    pub fn fit(self) -> bool
        ensures { result ≡ match_of self }
    {
        let n = self.values;
        if n == 0 {
            return false;
        }
        if 1024 < n {
            return false;
        }
        if self.classes != n {
            return false;
        }
        if self.readers != n {
            return false;
        }
        if self.claimants != n {
            return false;
        }
        if self.exclusives != n {
            return false;
        }
        self.logs == 2048
    }

    // 7 where the lengths do not fit, 1 where the session is above 15.
    #[inline(always)]
    #[tactic(auto, unfolding(crate::specs::Pieces::admission))]
    pub fn admit(self, session: u8) -> Result<(), Refusal>
        ensures { refusal_of result ≡ admission (match_of self) session }
    {
        if !self.fit() {
            return Err(Refusal::WrongLengths);
        }
        if 15 < session {
            return Err(Refusal::UnknownSession);
        }
        Ok(())
    }
}

// The log, the number of cells and the record are three arguments here and in the calls above: a struct of them would be built where they are lent and taken apart in
// each function, whose clauses name the three.

// Phase at most 4; in phases 1 to 4 at most 32 entries, each of a cell below n.
pub fn entries_fit(log: &[u32], n: usize, x: Session) -> bool
    requires { (length log.now ≡ 128) × (n ≤ 1024) }
    ensures { result ≡ entries_fit n log.now x }
{
    let phase = x.phase;
    let count = x.count;
    if phase == 0 {
        return true;
    }
    if 4 < phase {
        return false;
    }
    if 32 < count {
        return false;
    }
    look_ups::all_below(log, count as usize, n as u32)
}

// The same, and in phases 2 to 4 a cell that publishes, not below next.
fn record_fits(log: &[u32], n: usize, x: Session) -> bool
    requires { (length log.now ≡ 128) × (n ≤ 1024) }
    ensures { result ≡ record_fits n log.now x }
{
    let phase = x.phase;
    let count = x.count as usize;
    let next = x.next as u32;
    if !entries_fit(log, n, x) {
        return false;
    }
    if phase < 2 {
        return true;
    }
    targets::any_publishes(log, count, next)
}

// 9, or 2: of a call that does not fit the phase. It stands apart from the tests that pass, which are short enough to be inlined.
#[cold]
#[inline(never)]
#[tactic(auto, unfolding(crate::specs::Pieces::tested))]
pub fn unfit(log: &[u32], n: usize, x: Session) -> Refusal
    requires { (length log.now ≡ 128) × (n ≤ 1024) }
    ensures { refusal_number result ≡ tested (record_fits n log.now x) false }
{
    if record_fits(log, n, x) {
        Refusal::WrongPhase
    } else {
        Refusal::DamagedRecord
    }
}

// 9, or 2 where the call does not fit the phase.
#[tactic(auto, unfolding(crate::specs::Pieces::tested))]
pub fn tests(log: &[u32], n: usize, x: Session, fit: bool) -> Result<(), Refusal>
    requires { (length log.now ≡ 128) × (n ≤ 1024) }
    ensures { refusal_of result ≡ tested (record_fits n log.now x) fit }
{
    if !record_fits(log, n, x) {
        return Err(Refusal::DamagedRecord);
    }
    if !fit {
        return Err(Refusal::WrongPhase);
    }
    Ok(())
}

// The same for a call of a running session. The tests of other phases stand apart, so that a running session is tested by what it needs alone.
#[inline(always)]
pub fn runs(log: &[u32], n: usize, x: Session) -> Result<(), Refusal>
    requires { (length log.now ≡ 128) × (n ≤ 1024) }
    ensures { refusal_of result ≡ tested (record_fits n log.now x) (eqb x.phase 1) }
{
    let count = x.count;
    let running = x.phase == 1;
    if !running {
        return Err(unfit(log, n, x));
    }
    if 32 < count {
        return Err(Refusal::DamagedRecord);
    }
    if !look_ups::all_below_by_fours(log, count as usize, n as u32) {
        return Err(Refusal::DamagedRecord);
    }
    Ok(())
}
