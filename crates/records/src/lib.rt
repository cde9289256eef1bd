// The types of the store: what a session keeps between calls, a lock, a call, what a call decides and what it answers; a record's methods, an answer's numbers and how a turn ends.
// The definitions over them, document 01's steps and demand 3, are in crate model.
#![tactic(auto)]

ghost use Rattle.std.specs.Prelude.{◌≡◌, suc, ◌<◌, replicate};
ghost use Rattle.records.specs.declared.Answer.TheVariants.{Refused};
ghost use Rattle.records.specs.declared.Plan.TheVariants.{Refuse};
ghost use Rattle.records.specs.declared.Change.TheVariants.{Keep, Join, Withdraw};
ghost use Rattle.records.specs.Records.{idle, running, with_entry, with_entries, move_to, number, value_of, session_of, refusal_number, answered};

// A session's record: phase (0 idle, 1 running, 2 promoting, 3 publishing, 4 releasing), entry count, next cell. The phase is a byte, since C keeps the record and may
// hand in any: one above 4 is refused by 9.
#[repr(C)]
#[derive(Clone, Copy, PartialEq, Eq)]
pub struct Session {
    pub phase: u8,
    pub count: u8,
    pub next: u16,
}

// The records of the sixteen sessions, which the caller keeps: a call takes that of its session and hands it back, set-up all sixteen.
#[repr(C)]
#[derive(Clone, Copy, PartialEq, Eq)]
pub struct Sessions {
    pub records: [Session; 16],
}

// A cell's lock: the reader set (bit s for session s), the claimant (16 is nobody) and the writer mark. Claimant and mark are bytes, as C lends them.
#[derive(Clone, Copy, PartialEq, Eq)]
pub struct Lock {
    pub readers: u16,
    pub claimant: u8,
    pub exclusive: u8,
}

// A call on the store. The session is a byte, as C and a field hand it: one above 15 is refused by 1.
#[derive(Clone, Copy)]
pub enum Call {
    Begin(u8),
    Read(u8, u32),
    Write(u8, u32, u32),
    Seal(u8),
    Advance(u8),
    Abandon(u8),
    Peek(u8, u32),
    Hold(u8, u32),
}

impl Call {
    // The calling session.
    pub fn session(self) -> u8
        ensures { result ≡ session_of self }
    {
        match self {
            Call::Begin(s) => s,
            Call::Read(s, _) => s,
            Call::Write(s, _, _) => s,
            Call::Seal(s) => s,
            Call::Advance(s) => s,
            Call::Abandon(s) => s,
            Call::Peek(s, _) => s,
            Call::Hold(s, _) => s,
        }
    }
}

// What a call answers.
#[derive(Clone, Copy, PartialEq, Eq)]
pub enum Answer {
    Done,
    Value(u32),
    Sealed,
    Moved,
    // the number of other readers
    Waiting(u32),
    Committed,
    // by its number, which `number` hands on whatever it is, and by which the definitions of crate model and their theorems speak
    Refused(u8),
}

// Why a call is refused, with document 01's number.
#[derive(Clone, Copy, PartialEq, Eq)]
pub enum Refusal {
    UnknownSession = 1,
    WrongPhase = 2,
    UnknownCell = 3,
    AboveCap = 4,
    FullLog = 5,
    Conflict = 6,
    WrongLengths = 7,
    UnknownClass = 8,
    DamagedRecord = 9,
    ShortTarget = 13,
    NotEntered = 14,
    WrongList = 15,
    WrongCaps = 16,
    ValueAboveCaps = 17,
}

impl Refusal {
    // Document 01's number. (No `From`: it stands beside `Answer::number` under one name.)
    pub fn number(self) -> u8
        ensures { result ≡ refusal_number self }
    {
        self as u8
    }
}

// A refusal as an answer.
impl From<Refusal> for Answer {
    ghost from_gives = { λ r a. a ≡ Refused (refusal_number r) };

    fn from(refusal: Refusal) -> Answer {
        Answer::Refused(refusal.number())
    }
}

// 100, or the refusal.
impl From<Result<(), Refusal>> for Answer {
    ghost from_gives = { λ r a. a ≡ answered r };

    fn from(tested: Result<(), Refusal>) -> Answer {
        match tested {
            Ok(()) => Answer::Done,
            Err(refusal) => Answer::from(refusal),
        }
    }
}

// A refusal as what a call decides.
impl From<Refusal> for Plan {
    ghost from_gives = { λ r p. p ≡ Refuse (refusal_number r) };

    fn from(refusal: Refusal) -> Plan {
        Plan::Refuse(refusal.number())
    }
}

impl Answer {
    // Document 01's number. (No `From`, here and for `value`: public functions by these names, which theorems and documents cite.)
    pub fn number(self) -> u8
        ensures { result ≡ number self }
    {
        match self {
            Answer::Done => 100,
            Answer::Value(_) => 101,
            Answer::Sealed => 102,
            Answer::Moved => 103,
            Answer::Waiting(_) => 104,
            Answer::Committed => 105,
            Answer::Refused(k) => k,
        }
    }

    // The value: 0 except with 101 and 104. (A function by this name, as `number` is.)
    pub fn value(self) -> u32
        ensures { result ≡ value_of self }
    {
        match self {
            Answer::Done => 0,
            Answer::Value(v) => v,
            Answer::Sealed => 0,
            Answer::Moved => 0,
            Answer::Waiting(k) => k,
            Answer::Committed => 0,
            Answer::Refused(_) => 0,
        }
    }
}

// What a call decides before it changes anything; `plan_effect` in model/specs/Effects.antt says what each answers and leaves. An enum that the turn takes apart: a
// closure in its place would be handed out, which is refused.
#[derive(Clone, Copy)]
pub enum Plan {
    // the number of a refusal, as `plan_effect` has it
    Refuse(u8),
    Start,
    // a known cell's value
    Tell(u32),
    // a new cell
    Enter(u32),
    // an entry, and its value from now on
    Update(u32, u32),
    // a new cell, and its value from now on
    EnterUpdate(u32, u32),
    // on a conflict, 6
    RollBack,
    // by abandon, 100
    Cancel,
    CommitReads,
    BeginPromotion,
    // the cell of an advance; with Wait the number of other readers, with Publish the value that it gets
    Wait(u32, u32),
    Acquire(u32),
    Publish(u32, u32),
    Release(u32),
    // a cell of the store, an entry of the log
    ShowStore(u32),
    ShowLog(u32),
    // an entry to be held, and its value
    Mark(u32, u32),
    // a new cell to be held
    EnterMark(u32),
}

// What becomes of the locks when a plan is carried out: nothing; one cell's changes; or those of the session's entries do. An enum and no closure: a turn hands it out,
// and each form of the locks carries it out in its own way.
#[derive(Clone, Copy)]
pub enum Change {
    Keep,
    Join(u32),
    Claim(u32),
    Acquire(u32),
    Vacate(u32),
    // rolling back: from each entry's cell
    Withdraw,
    // sealing: from the cells that do not publish
    DropReads,
}

// A call carried out on its session's log and record: what it answers, the record in its next phase, and what becomes of the locks.
#[derive(Clone, Copy)]
pub struct Turn {
    pub answer: Answer,
    pub session: Session,
    pub change: Change,
}

// A call's answer and the record that it hands back. (`Reply` has sixteen: no generic type, since the definitions of crate contracts name what is handed back.)
#[derive(Clone, Copy)]
pub struct SessionReply {
    pub answer: Answer,
    pub session: Session,
}

impl From<Turn> for SessionReply {
    ghost from_gives = { λ t r. r ≡ record { answer = t.answer; session = t.session } };

    fn from(t: Turn) -> SessionReply {
        SessionReply {
            answer: t.answer,
            session: t.session,
        }
    }
}

impl SessionReply {
    // A refusal, with the record as it came.
    pub fn refused(refusal: Refusal, session: Session) -> SessionReply
        ensures { result ≡ record { answer = Refused (refusal_number refusal); session = session } }
    {
        SessionReply {
            answer: Answer::from(refusal),
            session,
        }
    }
}

// What many reads reply: the last answer's number, how many values were obtained, and the record.
#[repr(C)]
#[derive(Clone, Copy)]
pub struct ReadManyReply {
    pub number: u32,
    pub count: u32,
    pub session: Session,
}

// A call's answer and the records that it hands back.
#[derive(Clone, Copy, PartialEq, Eq)]
pub struct Reply {
    pub answer: Answer,
    pub sessions: Sessions,
}

// Idle: no entry.
const IDLE: Session = Session {
    phase: 0,
    count: 0,
    next: 0,
};

impl Session {
    // Begin: running, with no entry. (Of one shape with `lock::empty`: no plainer as one function, which would take the record.)
    pub fn begun(self) -> Session
        ensures { result ≡ running }
    {
        Session {
            phase: 1,
            count: 0,
            next: 0,
        }
    }

    // Going idle: count and next are 0.
    pub fn idled(self) -> Session
        ensures { result ≡ idle }
    {
        IDLE
    }

    // One entry more.
    pub fn with_entry(self) -> Session
        requires { self.count < 32 }
        ensures { result ≡ with_entry self }
    {
        Session {
            count: self.count + 1,
            ..self
        }
    }

    // So many entries in all.
    pub fn with_entries(self, count: u8) -> Session
        ensures { result ≡ with_entries count self }
    {
        Session { count, ..self }
    }

    // Sealed with a cell that publishes: promotion begins.
    pub fn sealed(self) -> Session
        ensures { result ≡ move_to 2 0 self }
    {
        Session {
            phase: 2,
            next: 0,
            ..self
        }
    }

    // A cell is handled and another is left: next is past the one handled.
    pub fn moved(self, next: u16) -> Session
        ensures { result ≡ move_to self.phase next self }
    {
        Session { next, ..self }
    }

    // The last cell is handled: the phase rises.
    pub fn raised(self) -> Session
        requires { self.phase < 4 }
        ensures { result ≡ move_to (suc self.phase) 0 self }
    {
        Session {
            phase: self.phase + 1,
            next: 0,
            ..self
        }
    }
}

// All sessions idle.
pub fn all_idle() -> Sessions
    ensures { result ≡ record { records = replicate 16 idle } }
{
    Sessions {
        records: [IDLE; 16],
    }
}

// ---- how a turn ends

// An answer with the locks as they were.
pub fn keeps(answer: Answer, session: Session) -> Turn
    ensures { result ≡ record { answer = answer; session = session; change = Keep } }
{
    Turn {
        answer,
        session,
        change: Change::Keep,
    }
}

// A claim in the way: the session is rolled back, 6.
pub fn rolled_back(x: Session) -> Turn
    ensures { result ≡ record { answer = Refused 6; session = idle; change = Withdraw } }
{
    Turn {
        answer: Answer::from(Refusal::Conflict),
        session: x.idled(),
        change: Change::Withdraw,
    }
}

// An answer with one entry more, of a cell whose readers the session joins.
pub fn enters(answer: Answer, x: Session, cell: u32) -> Turn
    requires { x.count < 32 }
    ensures { result ≡ record { answer = answer; session = with_entry x; change = Join cell } }
{
    Turn {
        answer,
        session: x.with_entry(),
        change: Change::Join(cell),
    }
}
