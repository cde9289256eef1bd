// What a read, a hold, a write and a peek decide from the session's log and record, before a lock is looked at, as if nobody were claimant: refusals 9, 2, 3, 8, 4,
// then 14 or 5.
#![tactic(auto)]

ghost use Rattle.std.specs.Prelude.{◌≡◌, ◌≤◌, length};
ghost use Rattle.model.specs.Buffers.{free, our_caps};
ghost use Rattle.model.specs.Plans.{new_cell, read_plan, hold_plan, write_capped, write_plan, peek_plan};
ghost use Rattle.plans.specs.Peeks.{PlansPeek, ShowsPeek};

use records::{Plan, Refusal, Session};
use refusals::Lengths;

// A new cell with 32 entries in the log is 5.
#[tactic(auto, unfolding(model::specs::Plans::new_cell, model::specs::Plans::claimed))]
fn new_cell(x: Session, p: Plan) -> Plan
    ensures { result ≡ new_cell x free p }
{
    if 31 < x.count {
        return Plan::from(Refusal::FullLog);
    }
    p
}

// Read: a cell in the log gives its present value; otherwise it is to be entered. (No `?`, here and below: a `Plan` is no `Result`, and each would be two functions.)
pub fn read_plan(log: &[u32], n: usize, x: Session, cell: u32) -> Plan
    requires { (length log.now ≡ 128) × (n ≤ 1024) }
    ensures { result ≡ read_plan n log.now x free cell }
{
    if let Err(refusal) = refusals::runs(log, n, x) {
        return Plan::from(refusal);
    }
    if n <= cell as usize {
        return Plan::from(Refusal::UnknownCell);
    }
    match look_ups::locate(log, x.count as usize, cell) {
        Some(k) => Plan::Tell(session_log::current(log, k)),
        None => new_cell(x, Plan::Enter(cell)),
    }
}

// Hold: as read; a cell in the log is to be held, a new one entered and held.
pub fn hold_plan(log: &[u32], n: usize, x: Session, cell: u32) -> Plan
    requires { (length log.now ≡ 128) × (n ≤ 1024) }
    ensures { result ≡ hold_plan n log.now x free cell }
{
    if let Err(refusal) = refusals::runs(log, n, x) {
        return Plan::from(refusal);
    }
    if n <= cell as usize {
        return Plan::from(Refusal::UnknownCell);
    }
    match look_ups::locate(log, x.count as usize, cell) {
        Some(k) => Plan::Mark(k as u32, session_log::current(log, k)),
        None => new_cell(x, Plan::EnterMark(cell)),
    }
}

// A value above the cap is 4; an entry is to be updated, a new cell entered as by read and then updated.
#[tactic(auto, unfolding(model::specs::Plans::write_capped, model::specs::Plans::write_slot, model::specs::Plans::new_cell))]
fn write_capped(log: &[u32], x: Session, cell: u32, value: u32, most: u32) -> Plan
    requires { (length log.now ≡ 128) × (x.count ≤ 32) }
    ensures { result ≡ write_capped log.now x free cell value most }
{
    if most < value {
        return Plan::from(Refusal::AboveCap);
    }
    match look_ups::locate(log, x.count as usize, cell) {
        Some(k) => Plan::Update(k as u32, value),
        None => new_cell(x, Plan::EnterUpdate(cell, value)),
    }
}

// Write by a table, which need not pass: the cap is that of the cell's class.
#[inline(always)]
pub fn write_plan_by(
    caps: &[u32],
    log: &[u32],
    classes: &[u8],
    x: Session,
    cell: u32,
    value: u32,
) -> Plan
    requires { (length caps.now ≡ 16) × (length log.now ≡ 128) × (length classes.now ≤ 1024) }
    ensures { result ≡ write_plan caps.now classes.now (length classes.now) log.now x free cell value }
{
    let n = classes.len();
    if let Err(refusal) = refusals::runs(log, n, x) {
        return Plan::from(refusal);
    }
    let c = cell as usize;
    if n <= c {
        return Plan::from(Refusal::UnknownCell);
    }
    let class = classes[c];
    if 15 < class {
        return Plan::from(Refusal::UnknownClass);
    }
    write_capped(log, x, cell, value, caps[class as usize])
}

// The same by our table.
pub fn write_plan(log: &[u32], classes: &[u8], x: Session, cell: u32, value: u32) -> Plan
    requires { (length log.now ≡ 128) × (length classes.now ≤ 1024) }
    ensures { result ≡ write_plan our_caps classes.now (length classes.now) log.now x free cell value }
{
    write_plan_by(caps::ours(), log, classes, x, cell, value)
}

// Peek: the store's own word where the entry is not written, the log's where it is; a cell not in the log is 14.
pub fn peek_plan(log: &[u32], n: usize, x: Session, cell: u32) -> Plan
    requires { (length log.now ≡ 128) × (n ≤ 1024) }
    ensures { result ≡ peek_plan n log.now x cell }
{
    if let Err(refusal) = refusals::runs(log, n, x) {
        return Plan::from(refusal);
    }
    if n <= cell as usize {
        return Plan::from(Refusal::UnknownCell);
    }
    let Some(k) = look_ups::locate(log, x.count as usize, cell) else {
        return Plan::from(Refusal::NotEntered);
    };
    if session_log::dirty(log, k) {
        Plan::ShowLog(k as u32)
    } else {
        Plan::ShowStore(cell)
    }
}

// ---- a peek in every form of the locks: of these and the classes it is told the lengths

// What a peek decides: refusals 7 and 1, then by its session's log and record.
pub fn peek_plan_in(lengths: Lengths, logs: &[u32], x: Session, session: u8, cell: u32) -> Plan
    requires { lengths.logs ≡ length logs.now }
    ensures { PlansPeek session cell lengths logs.now x result }
{
    if let Err(refusal) = lengths.admit(session) {
        return Plan::from(refusal);
    }
    let log = session_log::of_session(logs, session);
    peek_plan(log, lengths.values, x, cell)
}

// A peek's part: one word, the store's own or the log's own; no word where the peek is refused.
pub fn peek_part<'a>(
    lengths: Lengths,
    values: &'a [u32],
    logs: &'a [u32],
    x: Session,
    session: u8,
    cell: u32,
) -> &'a [u32]
    requires { (lengths.values ≡ length values.now) × (lengths.logs ≡ length logs.now) }
    ensures { ShowsPeek session cell lengths values.entry logs.entry x result }
{
    match peek_plan_in(lengths, logs, x, session, cell) {
        Plan::ShowStore(_) => {
            let c = cell as usize;
            &values[c..c + 1]
        }
        Plan::ShowLog(k) => {
            let from = 128 * (session as usize) + (4 * (k as usize) + 2);
            &logs[from..from + 1]
        }
        _ => &[],
    }
}
