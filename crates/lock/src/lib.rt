// One lock by value, and its reader set (document 01, "What the caller lends", Locks): whatever way locks are kept, they change by these. And the locks
// of all cells on three lent slices.
#![tactic(auto)]

ghost use Rattle.std.specs.Prelude.{◌≡◌, ◌<◌, eqb, length};
ghost use Rattle.model.specs.Readers.{with_reader, without_reader, other_readers};
ghost use Rattle.model.specs.Buffers.{free, join, leave, vacate, withdraw, claim, acquire};
ghost use Rattle.model.specs.Plans.{claimed};

use records::Lock;

// ---- reader sets. A session is a byte that the clauses ask to be below 16, and no type of its own: so the calls have it, and the definitions take its number.

// A session joins the readers.
pub fn with_reader(readers: u16, session: u8) -> u16
    requires { session < 16 }
    ensures { result ≡ with_reader session readers }
{
    readers | (1u16 << session)
}

// A session leaves the readers.
pub fn without_reader(readers: u16, session: u8) -> u16
    requires { session < 16 }
    ensures { result ≡ without_reader session readers }
{
    readers & !(1u16 << session)
}

// No other session reads: of the set with the session's own bit put in, one means this session alone.
pub fn alone(readers: u16, session: u8) -> bool
    requires { session < 16 }
    ensures { result ≡ eqb (other_readers session readers) 0 }
{
    with_reader(readers, session).count_ones() == 1
}

// How many other sessions read: the ones of that same set, less this session.
pub fn others(readers: u16, session: u8) -> u32
    requires { session < 16 }
    ensures { result ≡ other_readers session readers }
{
    with_reader(readers, session).count_ones() - 1
}

// ---- a lock. `joined` and `left` have one shape and a function each: one over how the set changes would take a closure.

// No readers, nobody claimant, no mark.
pub fn empty() -> Lock
    ensures { result ≡ free }
{
    Lock {
        readers: 0,
        claimant: 16,
        exclusive: 0,
    }
}

// Somebody is claimant: any byte but 16.
#[tactic(auto, unfolding(model::specs::Plans::claimed))]
pub fn is_claimed(l: Lock) -> bool
    ensures { result ≡ claimed l }
{
    l.claimant != 16
}

// The session joins the readers.
#[tactic(auto, unfolding(model::specs::Buffers::join))]
pub fn joined(l: Lock, session: u8) -> Lock
    requires { session < 16 }
    ensures { result ≡ join session l }
{
    Lock {
        readers: with_reader(l.readers, session),
        ..l
    }
}

// The session leaves the readers.
#[tactic(auto, unfolding(model::specs::Buffers::leave))]
pub fn left(l: Lock, session: u8) -> Lock
    requires { session < 16 }
    ensures { result ≡ leave session l }
{
    Lock {
        readers: without_reader(l.readers, session),
        ..l
    }
}

// The session leaves the readers, and claim and mark go.
#[tactic(auto, unfolding(model::specs::Buffers::vacate))]
pub fn vacated(l: Lock, session: u8) -> Lock
    requires { session < 16 }
    ensures { result ≡ vacate session l }
{
    Lock {
        readers: without_reader(l.readers, session),
        ..empty()
    }
}

// The session leaves the readers, and claim and mark go where the claim is its own.
#[tactic(auto, unfolding(model::specs::Buffers::withdraw))]
pub fn withdrawn(l: Lock, session: u8) -> Lock
    requires { session < 16 }
    ensures { result ≡ withdraw session l }
{
    if l.claimant == session {
        vacated(l, session)
    } else {
        left(l, session)
    }
}

// The session is claimant.
#[tactic(auto, unfolding(model::specs::Buffers::claim))]
pub fn claimed(l: Lock, session: u8) -> Lock
    ensures { result ≡ claim session l }
{
    Lock {
        claimant: session,
        ..l
    }
}

// The session is claimant, with the mark.
#[tactic(auto, unfolding(model::specs::Buffers::acquire))]
pub fn acquired(l: Lock, session: u8) -> Lock
    ensures { result ≡ acquire session l }
{
    Lock {
        claimant: session,
        exclusive: 1,
        ..l
    }
}

// ---- the locks of all cells

// The locks of all cells on three slices that are lent together, one of readers, one of claimants and one of marks: each has all cells.
#[derive(Drop)]
pub struct Locks<'a> {
    pub readers: &'a mut [u16],
    pub claimants: &'a mut [u8],
    pub exclusives: &'a mut [u8],
    ghost claimant_each: { length claimants.now ≡ length readers.now },
    ghost exclusive_each: { length exclusives.now ≡ length readers.now },
}
