// Which cells of one session's log publish: whether any, the lowest, and the lowest two. A loop over the log that yields the cell of an advance by break is a form
// of document 01's, and stays one.
#![tactic(auto)]

ghost use Rattle.std.specs.Prelude.{◌≡◌, true, ℕ, ◌+◌, ◌*◌, ◌<◌, ◌≤◌, length};
ghost use Rattle.model.specs.Search.{some?, below};
ghost use Rattle.model.specs.Buffers.{cell_at, target_in};
ghost use Rattle.session_log.specs.Slots.{found, better, lowest_publishing, target_slot, first_publishes, LowestTwo};
ghost use Rattle.targets.specs.Told.{next_in};

// The lower of the best cell so far and entry i's, where that is not below from and publishes.
#[tactic(auto, unfolding(session_log::specs::Slots::better))]
fn lower(log: &[u32], i: usize, from: u32, best: u32) -> u32
    requires { 4 * i + 3 < length log.now }
    ensures { result ≡ better log.now from i best }
{
    let cell = session_log::cell_at(log, i);
    if cell < from || best <= cell || !session_log::publishes(log, i) {
        best
    } else {
        cell
    }
}

// The lowest cell not below from and below n of the first count entries that publish, each judged by itself; n where there is none.
#[tactic(auto, unfolding(session_log::specs::Slots::lowest_publishing), using(session_log::proofs::Targets::publishing_more))]
fn lowest_publishing(log: &[u32], count: usize, n: u32, from: u32) -> u32
    requires { 4 * count ≤ length log.now }
    ensures { result ≡ lowest_publishing log.now n from count }
{
    let mut best = n;
    for i in 0..count {
        best = lower(log, i, from, best);
    }
    best
}

// The first entry of the lowest cell that publishes, not below from: the entry that an advance handles.
// A cell is found among the entries that publish by themselves. If its first entry does, that is the one; if not, the search goes on above it.
pub fn target(log: &[u32], count: usize, n: u32, from: u32) -> Option<usize>
    requires { (4 * count ≤ length log.now) × (n ≤ 1024) × (below n (cell_at log.now) count ≡ true) }
    ensures { found result ≡ target_slot log.now count from }
{
    let mut start = from;
    loop {
        let cell = lowest_publishing(log, count, n, start);
        if n <= cell {
            break None;
        }
        let place = look_ups::find(log, count, cell);
        if let Some(k) = place
            && session_log::publishes(log, k)
        {
            break place;
        }
        start = cell + 1;
    }
}

// The lowest two cells of some entries. For none there is n, as in `lowest_publishing` of the definitions: so one test tells a lower cell.
#[derive(Clone, Copy)]
struct Two {
    low: u32,
    high: u32,
}

// The lowest two of the best cells so far and entry i's, where that is not below from and publishes.
fn lower_two(log: &[u32], i: usize, from: u32, best: Two) -> Two
    requires { 4 * i + 3 < length log.now }
    ensures { (n : ℕ) → LowestTwo log.now n from i best.low best.high → LowestTwo log.now n from (i + 1) result.low result.high }
{
    let cell = session_log::cell_at(log, i);
    let Two { low, high } = best;
    if cell < from || high <= cell || !session_log::publishes(log, i) {
        return best;
    }
    if cell < low {
        return Two {
            low: cell,
            high: low,
        };
    }
    if low < cell {
        return Two { low, high: cell };
    }
    best
}

// The lowest two cells not below from and below n of the first count entries that publish, each judged by itself.
// A loop with break, and no `for`: the named form of document 01, which yields the cell of an advance by break.
#[tactic(auto, unfolding(session_log::specs::Slots::lowest_publishing))]
fn lowest_two(log: &[u32], count: usize, n: u32, from: u32) -> Two
    requires { 4 * count ≤ length log.now }
    ensures { LowestTwo log.now n from count result.low result.high }
{
    let mut i = 0;
    let mut best = Two { low: n, high: n };
    loop {
        if count <= i {
            break best;
        }
        best = lower_two(log, i, from, best);
        i += 1;
    }
}

// The entry that an advance handles, and whether another cell that publishes is left above its cell: a fact of its own, which says nothing of the entry.
#[derive(Clone, Copy)]
pub struct Next {
    pub slot: usize,
    pub more: bool,
}

// The next advance by a search for the one cell and a test for another.
fn next_by_target(log: &[u32], count: usize, n: u32, from: u32) -> Option<Next>
    requires { (4 * count ≤ length log.now) × (n ≤ 1024) × (below n (cell_at log.now) count ≡ true) }
    ensures { result ≡ next_in log.now count from }
{
    let slot = target(log, count, n, from)?;
    let above = session_log::cell_at(log, slot) + 1;
    let more = any_publishes(log, count, above);
    Some(Next { slot, more })
}

// What a next advance handles, if there is anything, and whether another is left: by one pass where the first entries of the lowest two cells publish,
// and by a search for each where a later entry of a cell publishes and its first does not.
pub fn next_two(log: &[u32], count: usize, n: u32, from: u32) -> Option<Next>
    requires { (4 * count ≤ length log.now) × (n ≤ 1024) × (below n (cell_at log.now) count ≡ true) }
    ensures { result ≡ next_in log.now count from }
{
    let Two { low, high } = lowest_two(log, count, n, from);
    if n <= low {
        return None;
    }
    if let Some(slot) = look_ups::find(log, count, low)
        && session_log::publishes(log, slot)
    {
        if n <= high {
            return Some(Next { slot, more: false });
        }
        if let Some(j) = look_ups::find(log, count, high)
            && session_log::publishes(log, j)
        {
            return Some(Next { slot, more: true });
        }
    }
    next_by_target(log, count, n, from)
}

// Whether any cell not below from publishes: its first entry does.
#[tactic(auto, using(session_log::proofs::Targets::any_here, session_log::proofs::Targets::any_nowhere))]
pub fn any_publishes(log: &[u32], count: usize, from: u32) -> bool
    requires { 4 * count ≤ length log.now }
    ensures { result ≡ some? (target_in log.now count from) }
{
    for i in 0..count {
        if first_publishes(log, i, from) {
            return true;
        }
    }
    false
}

// Whether entry i publishes, its cell is not below from, and it is the first of its cell. What most entries fail is told first.
#[tactic(auto, unfolding(session_log::specs::Slots::first_publishes))]
fn first_publishes(log: &[u32], i: usize, from: u32) -> bool
    requires { 4 * i + 3 < length log.now }
    ensures { result ≡ first_publishes log.now i from }
{
    let cell = session_log::cell_at(log, i);
    session_log::publishes(log, i) && from <= cell && look_ups::find(log, i, cell).is_none()
}
