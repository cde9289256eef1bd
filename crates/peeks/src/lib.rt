// A peek on number slices that the caller lends (document 01, "The steps"): what it decides, the part that it hands back, and its number.
// The six slices are parameters, as C lends them: by `&` or `&mut` each shows what the call may change.
#![tactic(auto)]

ghost use Rattle.records.specs.declared.Call.TheVariants.{Peek};
ghost use Rattle.contracts.specs.Lent.{TakesOne, PeekPlans, HandsBack};

use records::{Answer, Plan, Session, SessionReply};
use refusals::Lengths;

// What a peek decides.
pub fn peek_plan(
    x: Session,
    values: &[u32],
    classes: &[u8],
    readers: &[u16],
    claimants: &[u8],
    exclusives: &[u8],
    logs: &[u32],
    session: u8,
    cell: u32,
) -> Plan
    ensures { PeekPlans session cell values classes readers claimants exclusives logs x result }
{
    let lengths = Lengths::of(values, classes, readers, claimants, exclusives, logs);
    plans::peek_plan_in(lengths, logs, x, session, cell)
}

// Peek: running only. One word, the store's own or the log's own; no word where the peek is refused.
pub fn peek<'a>(
    x: Session,
    values: &'a [u32],
    classes: &[u8],
    readers: &[u16],
    claimants: &[u8],
    exclusives: &[u8],
    logs: &'a [u32],
    session: u8,
    cell: u32,
) -> &'a [u32]
    ensures { HandsBack session cell values classes readers claimants exclusives logs x result }
{
    let lengths = Lengths::of(values, classes, readers, claimants, exclusives, logs);
    plans::peek_part(lengths, values, logs, x, session, cell)
}

// Peek's twin: 100 or a refusal.
pub fn peek_number(
    x: Session,
    values: &[u32],
    classes: &[u8],
    readers: &[u16],
    claimants: &[u8],
    exclusives: &[u8],
    logs: &[u32],
    session: u8,
    cell: u32,
) -> SessionReply
    ensures { TakesOne (Peek session cell) values classes readers claimants exclusives logs x result }
{
    let p = peek_plan(
        x, values, classes, readers, claimants, exclusives, logs, session, cell,
    );
    let answer = match p {
        Plan::Refuse(number) => Answer::Refused(number),
        _ => Answer::Done,
    };
    SessionReply { answer, session: x }
}
