// What a call does but for the run of lock records: of the run it is told how many locks there are, and one lock by value; it hands back the change to
// be carried out on the run.
#![tactic(auto)]

ghost use Rattle.std.specs.Prelude.{◌≡◌, ◌%◌};
ghost use Rattle.model.specs.Buffers.{with_session};
ghost use Rattle.model.specs.Slices.{as_lent};
ghost use Rattle.records.specs.declared.Answer.TheVariants.{Refused};
ghost use Rattle.records.specs.Records.{refusal_number};
ghost use Rattle.run_changes.specs.Run.{on_run};
ghost use Rattle.run_turns.specs.Turns.{lengths_on, only_answer, look_of, IsPeekPart, TakesOnRun, WritesOnRun, SetsUpTurnBy, LoadsOnRun};

use records::{Answer, Call, Lock, Refusal, Reply, Sessions};
use refusals::Lengths;
use run_changes::Change;

// What a call has answered and changed besides the run, and what it does to the run.
#[derive(Clone, Copy)]
pub struct Turn {
    pub reply: Reply,
    pub change: Change,
}

impl Turn {
    // A refusal, with the records and the run as they were.
    fn refused(refusal: Refusal, sessions: Sessions) -> Turn
        ensures { result ≡ only_answer sessions (Refused (refusal_number refusal)) }
    {
        Turn {
            reply: Reply {
                answer: Answer::from(refusal),
                sessions,
            },
            change: Change::Turn {
                change: records::Change::Keep,
                session: 0,
                entries: 0,
            },
        }
    }

    // A call's turn, with the record put back and its change as one of the run; the session had so many entries.
    #[tactic(auto, unfolding(run_changes::specs::Run::on_run))]
    fn taken(t: records::Turn, sessions: Sessions, session: u8, entries: u8) -> Turn
        ensures { result ≡ record { reply = record { answer = t.answer; sessions = with_session sessions (session % 16) t.session }; change = on_run t.change session entries } }
    {
        Turn {
            reply: turns::put_back(t, sessions, session),
            change: Change::Turn {
                change: t.change,
                session,
                entries,
            },
        }
    }
}

// The lengths of what is lent: each list of the locks is as long as the run.
fn lengths_on(values: usize, classes: usize, locks: usize, logs: usize) -> Lengths
    ensures { result ≡ lengths_on values classes locks logs }
{
    Lengths {
        values,
        classes,
        readers: locks,
        claimants: locks,
        exclusives: locks,
        logs,
    }
}

// ---- set-up, but for the run

// Set-up by a table, but for the locks.
pub fn set_up_turn_by(
    sessions: Sessions,
    values: &[u32],
    classes: &[u8],
    locks: usize,
    logs: &mut [u32],
    caps: &[u32],
) -> Turn
    ensures { SetsUpTurnBy caps values classes locks (as_lent logs) sessions result }
{
    let n = values.len();
    let lengths = lengths_on(n, classes.len(), locks, logs.len());
    if let Err(refusal) = loads::judge_set_up(lengths, values, classes, caps) {
        return Turn::refused(refusal, sessions);
    }
    session_log::clear_words(logs);
    Turn {
        reply: Reply {
            answer: Answer::Done,
            sessions: records::all_idle(),
        },
        change: Change::Clear(n as u32),
    }
}

// ---- a call, but for the run

// The cell whose lock a call may need; 0 where it needs none, and where it is refused by 7 or 1. (No Option: `look_of`, by which `take_turn` is told its
// lock, has cell 0 there.)
pub fn look_up(
    call: Call,
    sessions: Sessions,
    n: usize,
    classes: usize,
    locks: usize,
    logs: &[u32],
) -> usize
    ensures { result ≡ look_of call sessions n classes locks logs.now }
{
    let session = call.session();
    let lengths = lengths_on(n, classes, locks, logs.len());
    if let Err(_) = lengths.admit(session) {
        return 0;
    }
    let x = turns::record_of(sessions, session);
    any_call::cell_for(call, session_log::of_session(logs, session), n, x) as usize
}

// Any call: refusals 7 and 1, then its turn, with the record put back.
pub fn take_turn(
    call: Call,
    sessions: Sessions,
    values: &mut [u32],
    classes: &[u8],
    locks: usize,
    l: Lock,
    logs: &mut [u32],
) -> Turn
    ensures { TakesOnRun call (as_lent values) classes locks l (as_lent logs) sessions result }
{
    let session = call.session();
    let lengths = lengths_on(values.len(), classes.len(), locks, logs.len());
    if let Err(refusal) = lengths.admit(session) {
        return Turn::refused(refusal, sessions);
    }
    let x = turns::record_of(sessions, session);
    let t = any_call::any(call, values, classes, logs, x, l, session);
    Turn::taken(t, sessions, session, x.count)
}

// A write by a table: refusals 7, also of the table, and 1, then its turn with the lock of its cell, with the record put back.
pub fn write_turn(
    sessions: Sessions,
    values: &[u32],
    classes: &[u8],
    locks: usize,
    l: Lock,
    logs: &mut [u32],
    caps: &[u32],
    session: u8,
    cell: u32,
    value: u32,
) -> Turn
    ensures { WritesOnRun caps session cell value values classes locks l (as_lent logs) sessions result }
{
    if caps.len() != 16 {
        return Turn::refused(Refusal::WrongLengths, sessions);
    }
    let lengths = lengths_on(values.len(), classes.len(), locks, logs.len());
    if let Err(refusal) = lengths.admit(session) {
        return Turn::refused(refusal, sessions);
    }
    let x = turns::record_of(sessions, session);
    let log = session_log::of_session(logs, session);
    let p = plans::write_plan_by(caps, log, classes, x, cell, value);
    let t = turns::write(values, logs, x, l, session, cell, value, p);
    Turn::taken(t, sessions, session, x.count)
}

// ---- a table loaded: of run and logs it is told the counts

// The table in the place of the one in force.
pub fn load_turn(
    sessions: Sessions,
    values: &[u32],
    classes: &[u8],
    locks: usize,
    logs: usize,
    caps: &mut [u32],
    table: &[u32],
) -> Reply
    ensures { LoadsOnRun (as_lent caps) table values classes locks logs sessions result }
{
    let loaded = loads::load_caps(
        sessions, values, classes, locks, locks, locks, logs, caps, table,
    );
    Reply {
        answer: Answer::from(loaded),
        sessions,
    }
}

// ---- a peek, which leaves all that is lent as it is: of the run it is told the count

// A peek's part.
pub fn peek_part<'a>(
    sessions: Sessions,
    values: &'a [u32],
    classes: usize,
    locks: usize,
    logs: &'a [u32],
    session: u8,
    cell: u32,
) -> &'a [u32]
    ensures { IsPeekPart values.entry classes locks logs.entry sessions session cell result }
{
    let lengths = lengths_on(values.len(), classes, locks, logs.len());
    let x = turns::record_of(sessions, session);
    plans::peek_part(lengths, values, logs, x, session, cell)
}
