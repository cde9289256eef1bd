// The calls for C: the fields, and each call of the store with the record of its session passed in and handed back by value, the answer as two numbers beside it; many reads; and a load of caps.
// The six slices are parameters, as C lends them: by `&` or `&mut` each shows what the call may change.
#![tactic(auto)]

mod fields;

ghost use Rattle.records.specs.declared.Call.TheVariants.{Begin, Read, Write, Seal, Advance, Abandon, Peek, Hold};
ghost use Rattle.model.specs.Slices.{as_lent};
ghost use Rattle.many_reads.specs.Lent.{ReadsMany};
ghost use Rattle.c_api.specs.InNumbers.{SetsUpInNumbers, SetsUpInNumbersBy, LoadsInNumbers, TakesInNumbers, TakesInNumbersBy, TellsPlace};

use numbers::{NumberReply, SetUpReply};
use records::{Plan, ReadManyReply, Session, Sessions};

// Set-up: 100, 7 or 8.
#[unsafe(no_mangle)]
pub extern "C" fn rukkanei_set_up(
    sessions: Sessions,
    values: &[u32],
    classes: &[u8],
    readers: &mut [u16],
    claimants: &mut [u8],
    exclusives: &mut [u8],
    logs: &mut [u32],
) -> SetUpReply
    ensures { SetsUpInNumbers values classes (as_lent readers) (as_lent claimants) (as_lent exclusives) (as_lent logs) sessions result }
{
    SetUpReply::from(set_up::set_up(
        sessions, values, classes, readers, claimants, exclusives, logs,
    ))
}

// Set-up by a table: 100, 7, 16 or 8.
#[unsafe(no_mangle)]
pub extern "C" fn rukkanei_set_up_with_caps(
    sessions: Sessions,
    values: &[u32],
    classes: &[u8],
    readers: &mut [u16],
    claimants: &mut [u8],
    exclusives: &mut [u8],
    logs: &mut [u32],
    caps: &[u32],
) -> SetUpReply
    ensures { SetsUpInNumbersBy caps values classes (as_lent readers) (as_lent claimants) (as_lent exclusives) (as_lent logs) sessions result }
{
    SetUpReply::from(set_up::set_up_with_caps(
        sessions, values, classes, readers, claimants, exclusives, logs, caps,
    ))
}

// A load of a table of caps: 100, 7, 2, 16, 8 or 17.
#[unsafe(no_mangle)]
pub extern "C" fn rukkanei_load_caps(
    sessions: Sessions,
    values: &[u32],
    classes: &[u8],
    readers: &[u16],
    claimants: &[u8],
    exclusives: &[u8],
    logs: &[u32],
    caps: &mut [u32],
    table: &[u32],
) -> SetUpReply
    ensures { LoadsInNumbers (as_lent caps) table values classes readers claimants exclusives logs sessions result }
{
    SetUpReply::from(store::load_caps(
        sessions, values, classes, readers, claimants, exclusives, logs, caps, table,
    ))
}

// Begin: 100, or a refusal.
#[unsafe(no_mangle)]
pub extern "C" fn rukkanei_begin(
    x: Session,
    values: &[u32],
    classes: &[u8],
    readers: &[u16],
    claimants: &[u8],
    exclusives: &[u8],
    logs: &[u32],
    session: u8,
) -> NumberReply
    ensures { TakesInNumbers (Begin session) values classes readers claimants exclusives logs x result }
{
    numbers::begin_in_numbers(store::begin(
        x, values, classes, readers, claimants, exclusives, logs, session,
    ))
}

// Read: 101 with the value, 6 with the session rolled back, or a refusal.
#[unsafe(no_mangle)]
pub extern "C" fn rukkanei_read(
    x: Session,
    values: &[u32],
    classes: &[u8],
    readers: &mut [u16],
    claimants: &mut [u8],
    exclusives: &mut [u8],
    logs: &mut [u32],
    session: u8,
    cell: u32,
) -> NumberReply
    ensures { TakesInNumbers (Read session cell) values classes (as_lent readers) (as_lent claimants) (as_lent exclusives) (as_lent logs) x result }
{
    numbers::read_in_numbers(store::read(
        x, values, classes, readers, claimants, exclusives, logs, session, cell,
    ))
}

// Hold: as read, and with 101 the cell counts as written from the seal on.
#[unsafe(no_mangle)]
pub extern "C" fn rukkanei_hold(
    x: Session,
    values: &[u32],
    classes: &[u8],
    readers: &mut [u16],
    claimants: &mut [u8],
    exclusives: &mut [u8],
    logs: &mut [u32],
    session: u8,
    cell: u32,
) -> NumberReply
    ensures { TakesInNumbers (Hold session cell) values classes (as_lent readers) (as_lent claimants) (as_lent exclusives) (as_lent logs) x result }
{
    numbers::read_in_numbers(store::hold(
        x, values, classes, readers, claimants, exclusives, logs, session, cell,
    ))
}

// Many reads: 101 where every cell was read, else the number of the first refusal, with how many were read before it.
#[unsafe(no_mangle)]
pub extern "C" fn rukkanei_read_many(
    x: Session,
    values: &[u32],
    classes: &[u8],
    readers: &mut [u16],
    claimants: &mut [u8],
    exclusives: &mut [u8],
    logs: &mut [u32],
    session: u8,
    cells: &[u32],
    target: &mut [u32],
) -> ReadManyReply
    ensures { ReadsMany session cells values classes (as_lent readers) (as_lent claimants) (as_lent exclusives) (as_lent logs) (as_lent target) x result }
{
    many_reads::read_many(
        x, values, classes, readers, claimants, exclusives, logs, session, cells, target,
    )
}

// Write: 100, 6 with the session rolled back, or a refusal.
#[unsafe(no_mangle)]
pub extern "C" fn rukkanei_write(
    x: Session,
    values: &[u32],
    classes: &[u8],
    readers: &mut [u16],
    claimants: &mut [u8],
    exclusives: &mut [u8],
    logs: &mut [u32],
    session: u8,
    cell: u32,
    written: u32,
) -> NumberReply
    ensures { TakesInNumbers (Write session cell written) values classes (as_lent readers) (as_lent claimants) (as_lent exclusives) (as_lent logs) x result }
{
    NumberReply::from(store::write(
        x, values, classes, readers, claimants, exclusives, logs, session, cell, written,
    ))
}

// Write by a table: 100, 6 with the session rolled back, or a refusal.
#[unsafe(no_mangle)]
pub extern "C" fn rukkanei_write_with_caps(
    x: Session,
    values: &[u32],
    classes: &[u8],
    readers: &mut [u16],
    claimants: &mut [u8],
    exclusives: &mut [u8],
    logs: &mut [u32],
    caps: &[u32],
    session: u8,
    cell: u32,
    written: u32,
) -> NumberReply
    ensures { TakesInNumbersBy caps (Write session cell written) values classes (as_lent readers) (as_lent claimants) (as_lent exclusives) (as_lent logs) x result }
{
    NumberReply::from(store::write_with_caps(
        x, values, classes, readers, claimants, exclusives, logs, caps, session, cell, written,
    ))
}

// Seal: 102, 105, or a refusal.
#[unsafe(no_mangle)]
pub extern "C" fn rukkanei_seal(
    x: Session,
    values: &[u32],
    classes: &[u8],
    readers: &mut [u16],
    claimants: &[u8],
    exclusives: &[u8],
    logs: &[u32],
    session: u8,
) -> NumberReply
    ensures { TakesInNumbers (Seal session) values classes (as_lent readers) claimants exclusives logs x result }
{
    numbers::seal_in_numbers(store::seal(
        x, values, classes, readers, claimants, exclusives, logs, session,
    ))
}

// Advance: 103, 104 and how many others read, 105, 6 with the session rolled back, or a refusal.
#[unsafe(no_mangle)]
pub extern "C" fn rukkanei_advance(
    x: Session,
    values: &mut [u32],
    classes: &[u8],
    readers: &mut [u16],
    claimants: &mut [u8],
    exclusives: &mut [u8],
    logs: &[u32],
    session: u8,
) -> NumberReply
    ensures { TakesInNumbers (Advance session) (as_lent values) classes (as_lent readers) (as_lent claimants) (as_lent exclusives) logs x result }
{
    NumberReply::from(store::advance(
        x, values, classes, readers, claimants, exclusives, logs, session,
    ))
}

// Abandon: 100, or a refusal.
#[unsafe(no_mangle)]
pub extern "C" fn rukkanei_abandon(
    x: Session,
    values: &[u32],
    classes: &[u8],
    readers: &mut [u16],
    claimants: &mut [u8],
    exclusives: &mut [u8],
    logs: &[u32],
    session: u8,
) -> NumberReply
    ensures { TakesInNumbers (Abandon session) values classes (as_lent readers) (as_lent claimants) (as_lent exclusives) logs x result }
{
    NumberReply::from(store::abandon(
        x, values, classes, readers, claimants, exclusives, logs, session,
    ))
}

// Peek's twin: 100, or a refusal.
#[unsafe(no_mangle)]
pub extern "C" fn rukkanei_peek_number(
    x: Session,
    values: &[u32],
    classes: &[u8],
    readers: &[u16],
    claimants: &[u8],
    exclusives: &[u8],
    logs: &[u32],
    session: u8,
    cell: u32,
) -> NumberReply
    ensures { TakesInNumbers (Peek session cell) values classes readers claimants exclusives logs x result }
{
    NumberReply::from(peeks::peek_number(
        x, values, classes, readers, claimants, exclusives, logs, session, cell,
    ))
}

// Where a peek's word is: 1 and its index in the values, 2 and its index in the logs; 0, with the index as before, where the peek is refused.
#[unsafe(no_mangle)]
pub extern "C" fn rukkanei_peek_place(
    x: Session,
    values: &[u32],
    classes: &[u8],
    readers: &[u16],
    claimants: &[u8],
    exclusives: &[u8],
    logs: &[u32],
    session: u8,
    cell: u32,
    index: &mut usize,
) -> u8
    ensures { TellsPlace session cell values classes readers claimants exclusives logs x (as_lent index) result }
{
    let p = peeks::peek_plan(
        x, values, classes, readers, claimants, exclusives, logs, session, cell,
    );
    match p {
        Plan::ShowStore(c) => {
            *index = c as usize;
            1
        }
        Plan::ShowLog(k) => {
            *index = numbers::shown_at(session, k);
            2
        }
        _ => 0,
    }
}
