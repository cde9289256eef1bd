// Runs document 01's listing, a short mixed list, one with values written back, one with holds and one with waits on number slices (crates set_up and lists) and on a run of lock records (crate lock_records). Compared are
// after set-up and after each call the answers, the records, and every value, lock and log word.
// It writes each list as the replay does, with a line for a peek's number too; last, whether the two forms agreed throughout.
#![tactic(auto)]

ghost use Rattle.std.specs.Prelude.{◌≡◌, ◌<◌, slice_index};
ghost use Rattle.lock_records_check.specs.Forms.{SlicesSetUp, SlicesTake, RunSetUp, RunTakes};

use records::{Answer, Call, Lock, Reply, Session, Sessions};
use std::io;

// ---- the five lists

const LISTING: [Call; 13] = [
    Call::Begin(0),
    Call::Begin(1),
    Call::Read(0, 0),
    Call::Read(1, 0),
    Call::Write(0, 0, 4),
    Call::Write(1, 0, 2),
    Call::Seal(0),
    Call::Seal(1),
    Call::Advance(0),
    Call::Advance(1),
    Call::Advance(0),
    Call::Advance(0),
    Call::Advance(0),
];

// Every kind of call, every phase, the refusals 4 and 6.
const MIXED: [Call; 13] = [
    Call::Begin(0),
    Call::Write(0, 1, 9),
    Call::Write(0, 1, 8),
    Call::Peek(0, 1),
    Call::Seal(0),
    Call::Advance(0),
    Call::Begin(1),
    Call::Read(1, 1),
    Call::Begin(1),
    Call::Hold(1, 0),
    Call::Abandon(1),
    Call::Advance(0),
    Call::Advance(0),
];

// A seal that lets one go of two cells, and one that lets go all.
const WRITTEN_BACK: [Call; 13] = [
    Call::Begin(0),
    Call::Begin(1),
    Call::Read(1, 0),
    Call::Write(0, 0, 3),
    Call::Write(0, 1, 6),
    Call::Write(1, 0, 3),
    Call::Seal(0),
    Call::Seal(1),
    Call::Begin(1),
    Call::Write(1, 0, 4),
    Call::Advance(0),
    Call::Advance(0),
    Call::Advance(0),
];

// A session that only held a cell publishes it, and another that held and wrote it is rolled back.
const HELD: [Call; 13] = [
    Call::Begin(0),
    Call::Begin(1),
    Call::Hold(0, 0),
    Call::Hold(1, 0),
    Call::Write(0, 0, 4),
    Call::Seal(1),
    Call::Seal(0),
    Call::Advance(1),
    Call::Advance(0),
    Call::Advance(1),
    Call::Advance(1),
    Call::Advance(1),
    Call::Begin(0),
];

// Waits for two others, for one, for none.
const WAITS: [Call; 13] = [
    Call::Begin(0),
    Call::Begin(1),
    Call::Begin(2),
    Call::Write(0, 0, 4),
    Call::Read(1, 0),
    Call::Read(2, 0),
    Call::Seal(0),
    Call::Advance(0),
    Call::Seal(1),
    Call::Advance(0),
    Call::Abandon(2),
    Call::Advance(0),
    Call::Advance(0),
];

// ---- two cells of class 2 in both forms

const CLASSES: [u8; 2] = [2, 2];

// What is handed to set-up, which makes every record idle.
const UNUSED: Session = Session {
    phase: 9,
    count: 9,
    next: 9,
};

// The locks as number slices, and what set-up or the last call replied.
#[derive(Drop)]
struct Slices {
    values: [u32; 2],
    readers: [u16; 2],
    claimants: [u8; 2],
    exclusives: [u8; 2],
    logs: [u32; 2048],
    reply: Reply,
}

impl Slices {
    fn set_up() -> Slices
        ensures { SlicesSetUp result }
    {
        let values = [3, 5];
        let mut readers = [7; 2];
        let mut claimants = [7; 2];
        let mut exclusives = [7; 2];
        let mut logs = [7; 2048];
        let sessions = Sessions {
            records: [UNUSED; 16],
        };
        let reply = set_up::set_up(
            sessions,
            &values,
            &CLASSES,
            &mut readers,
            &mut claimants,
            &mut exclusives,
            &mut logs,
        );
        Slices {
            values,
            readers,
            claimants,
            exclusives,
            logs,
            reply,
        }
    }

    fn step(&mut self, call: Call)
        ensures { SlicesTake call self.old self.new }
    {
        self.reply = lists::step(
            call,
            self.reply.sessions,
            &mut self.values,
            &CLASSES,
            &mut self.readers,
            &mut self.claimants,
            &mut self.exclusives,
            &mut self.logs,
        );
    }

    // The lock of a cell as a record.
    fn lock(&self, cell: usize) -> Lock
        requires { cell < 2 }
        ensures { result ≡ record {
          readers = slice_index self.now.readers cell;
          claimant = slice_index self.now.claimants cell;
          exclusive = slice_index self.now.exclusives cell;
        } }
    {
        Lock {
            readers: self.readers[cell],
            claimant: self.claimants[cell],
            exclusive: self.exclusives[cell],
        }
    }
}

// The locks as a run of records, and what set-up or the last call replied.
#[derive(Drop)]
struct Run {
    values: [u32; 2],
    locks: [Lock; 2],
    logs: [u32; 2048],
    reply: Reply,
}

impl Run {
    fn set_up() -> Run
        ensures { RunSetUp result }
    {
        let values = [3, 5];
        let mut locks = [Lock {
            readers: 7,
            claimant: 7,
            exclusive: 7,
        }; 2];
        let mut logs = [7; 2048];
        let sessions = Sessions {
            records: [UNUSED; 16],
        };
        let reply = lock_records::set_up(sessions, &values, &CLASSES, &mut locks, &mut logs);
        Run {
            values,
            locks,
            logs,
            reply,
        }
    }

    fn step(&mut self, call: Call)
        ensures { RunTakes call self.old self.new }
    {
        self.reply = lock_records::step(
            call,
            self.reply.sessions,
            &mut self.values,
            &CLASSES,
            &mut self.locks,
            &mut self.logs,
        );
    }
}

// Whether both forms replied and are the same.
fn agree(slices: &Slices, run: &Run) -> bool {
    slices.reply == run.reply
        && slices.values == run.values
        && [slices.lock(0), slices.lock(1)] == run.locks
        && slices.logs == run.logs
}

// ---- what is written

fn print_call(rt: &impl Print, ordinal: usize, answer: Answer) -> io::Result<()> {
    let number = answer.number();
    match answer {
        Answer::Value(value) | Answer::Waiting(value) => {
            println!(rt; "{ordinal} {number} {value}")
        }
        _ => println!(rt; "{ordinal} {number}"),
    }
}

// Set-up and a list on both forms, and written; whether all was the same.
fn run_both(rt: &impl Print, calls: &[Call; 13]) -> io::Result<bool> {
    let mut slices = Slices::set_up();
    let mut run = Run::set_up();
    let mut same = agree(&slices, &run);
    for (i, call) in calls.iter().enumerate() {
        slices.step(*call);
        run.step(*call);
        same &= agree(&slices, &run);
        print_call(rt, i + 1, slices.reply.answer)?;
    }
    for (cell, value) in slices.values.iter().enumerate() {
        println!(rt; "c {cell} {value}")?;
    }
    Ok(same)
}

fn main(rt: HostRuntime) -> io::Result<()> {
    let mut same = true;
    for calls in [LISTING, MIXED, WRITTEN_BACK, HELD, WAITS] {
        same &= run_both(&rt, &calls)?;
    }
    if same {
        println!(rt; "both forms agree")
    } else {
        println!(rt; "the forms differ")
    }
}
