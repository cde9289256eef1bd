// A cell looked up among the entries of one session's log, and the entries' cells tested. A search answers the place of the first entry that has the cell
// (session_log/proofs/FirstEntry.antt says so entry by entry). The count is the session record's (document 01), and so comes beside the log.
#![tactic(auto)]

ghost use Rattle.std.specs.Prelude.{◌≡◌, ℕ, ◌*◌, ◌<◌, ◌≤◌, length};
ghost use Rattle.model.specs.Search.{below};
ghost use Rattle.model.specs.Buffers.{cell_at, slot_in};
ghost use Rattle.session_log.specs.Slots.{found};
ghost use Rattle.look_ups.specs.First.{IsFirst};

// The first place below count of which the test holds. By `(0..count).find(test)` a round takes one instruction more.
#[tactic(auto, unfolding(crate::specs::First::IsFirst))]
fn first<F: Fn(usize) -> bool>(count: usize, test: F) -> Option<usize>
    requires { (k : ℕ) → k < count → F.pre test k }
    ensures { IsFirst (F.post test) count result }
{
    for k in 0..count {
        if test(k) {
            return Some(k);
        }
    }
    None
}

// The same by fours: the first count mod 4 places are tried one by one, the others four in a round. So a search takes about a third less in a full log.
#[tactic(auto, unfolding(crate::specs::First::IsFirst))]
fn first_by_fours<F: Fn(usize) -> bool>(count: usize, test: F) -> Option<usize>
    requires { (k : ℕ) → k < count → F.pre test k }
    ensures { IsFirst (F.post test) count result }
{
    let rest = count % 4;
    let start = first(rest, &test);
    if start.is_some() {
        return start;
    }
    for i in 0..count / 4 {
        for j in 0..4 {
            let k = rest + 4 * i + j;
            if test(k) {
                return Some(k);
            }
        }
    }
    None
}

// The place of the first entry of a cell among the first count entries: the search of the calls that look a cell up.
#[tactic(auto, using(crate::proofs::Entries::place_is))]
pub fn locate(log: &[u32], count: usize, cell: u32) -> Option<usize>
    requires { 4 * count ≤ length log.now }
    ensures { found result ≡ slot_in log.now count cell }
{
    first_by_fours(count, |k| session_log::cell_at(log, k) == cell)
}

// The same one by one, so that it is inlined where a call searches often.
#[tactic(auto, using(crate::proofs::Entries::place_is))]
pub fn find(log: &[u32], count: usize, cell: u32) -> Option<usize>
    requires { 4 * count ≤ length log.now }
    ensures { found result ≡ slot_in log.now count cell }
{
    first(count, |k| session_log::cell_at(log, k) == cell)
}

// Whether the cell of each of the first count entries is below n; one by one too.
#[tactic(auto, using(crate::proofs::Entries::below_is))]
pub fn all_below(log: &[u32], count: usize, n: u32) -> bool
    requires { 4 * count ≤ length log.now }
    ensures { result ≡ below n (cell_at log.now) count }
{
    first(count, |k| n <= session_log::cell_at(log, k)).is_none()
}

// The same by fours: the test of a running session.
#[tactic(auto, using(crate::proofs::Entries::below_is))]
pub fn all_below_by_fours(log: &[u32], count: usize, n: u32) -> bool
    requires { 4 * count ≤ length log.now }
    ensures { result ≡ below n (cell_at log.now) count }
{
    first_by_fours(count, |k| n <= session_log::cell_at(log, k)).is_none()
}
