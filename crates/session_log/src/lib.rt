// One session's log: 128 words, 32 entries of four words (document 01, "What the caller lends", Logs).
// Entries are looked at where they lie; contracts are the model's definitions. By document 01 a log is a part of the slice that the caller lends: so an entry is named by
// that part and its place, and no struct stands for either.
#![tactic(auto)]

ghost use Rattle.std.specs.Prelude.{◌≡◌, ◌+◌, ◌*◌, ◌<◌, length, replicate};
ghost use Rattle.model.specs.Buffers.{log_in, word, cell_at, entry_at, publishes, appended, updated, marked};

// The log of a session: its 128 words of the logs.
#[tactic(auto, using(crate::proofs::Logs::cut_is))]
pub fn of_session<'a>(logs: &'a [u32], session: u8) -> &'a [u32]
    requires { (session < 16) × (length logs.now ≡ 2048) }
    ensures { result.now ≡ log_in logs.now session }
{
    let a = 128 * (session as usize);
    let e = a + 128;
    &logs[a..e]
}

// Word j of entry k.
#[tactic(auto, unfolding(model::specs::Buffers::word))]
fn word(log: &[u32], k: usize, j: usize) -> u32
    requires { 4 * k + j < length log.now }
    ensures { result ≡ word log.now k j }
{
    log[4 * k + j]
}

// The cell of entry k.
#[tactic(auto, unfolding(model::specs::Buffers::cell_at))]
pub fn cell_at(log: &[u32], k: usize) -> u32
    requires { 4 * k + 3 < length log.now }
    ensures { result ≡ cell_at log.now k }
{
    word(log, k, 0)
}

// The value found of entry k.
#[tactic(auto, unfolding(model::specs::Buffers::entry_at))]
pub fn snapshot(log: &[u32], k: usize) -> u32
    requires { 4 * k + 3 < length log.now }
    ensures { result ≡ (entry_at log.now k).snapshot }
{
    word(log, k, 1)
}

// The present value of entry k.
#[tactic(auto, unfolding(model::specs::Buffers::entry_at))]
pub fn current(log: &[u32], k: usize) -> u32
    requires { 4 * k + 3 < length log.now }
    ensures { result ≡ (entry_at log.now k).current }
{
    word(log, k, 2)
}

// Whether entry k is written, by its fourth word's lowest bit: of that word written counts one, held two, and what stands above is not looked at.
#[tactic(auto, unfolding(model::specs::Buffers::entry_at, model::specs::Readers::odd))]
pub fn dirty(log: &[u32], k: usize) -> bool
    requires { 4 * k + 3 < length log.now }
    ensures { result ≡ (entry_at log.now k).dirty }
{
    word(log, k, 3) % 2 == 1
}

// Whether entry k publishes, that is counts as written from the seal on: it is held, or it is written and its present value is not the one found. An entry
// that is neither is told first, since most are merely read.
#[tactic(auto, using(crate::proofs::Searches::unmarked, crate::proofs::Searches::held, crate::proofs::Searches::written))]
pub fn publishes(log: &[u32], k: usize) -> bool
    requires { 4 * k + 3 < length log.now }
    ensures { result ≡ publishes (entry_at log.now k) }
{
    let marks = word(log, k, 3) % 4;
    marks != 0 && (1 < marks || current(log, k) != snapshot(log, k))
}

// A new entry at k: found and present are the value, not written and not held.
#[tactic(auto, using(crate::proofs::Searches::append_stores))]
pub fn append(log: &mut [u32], k: usize, cell: u32, value: u32)
    requires { 4 * k + 3 < length log.old }
    ensures { log.new ≡ appended log.old k cell value }
{
    let i = 4 * k;
    log[i] = cell;
    log[i + 1] = value;
    log[i + 2] = value;
    log[i + 3] = 0;
}

// Sets the present value of entry k, which is then written; it stays held where it was.
#[tactic(auto, using(crate::proofs::Searches::update_stores))]
pub fn update(log: &mut [u32], k: usize, value: u32)
    requires { 4 * k + 3 < length log.old }
    ensures { log.new ≡ updated log.old k value }
{
    let marks = word(log, k, 3);
    log[4 * k + 2] = value;
    log[4 * k + 3] = marks / 2 % 2 * 2 + 1;
}

// Entry k is held from now on; it stays written where it was.
#[tactic(auto, unfolding(model::specs::Buffers::marked, model::specs::Buffers::with_held))]
pub fn mark(log: &mut [u32], k: usize)
    requires { 4 * k + 3 < length log.old }
    ensures { log.new ≡ marked log.old k }
{
    let marks = word(log, k, 3);
    log[4 * k + 3] = 2 + marks % 2;
}

// Every word 0, of one log or of all.
pub fn clear_words(s: &mut [u32])
    ensures { s.new ≡ replicate (length s.old) 0 }
{
    s.fill(0)
}
