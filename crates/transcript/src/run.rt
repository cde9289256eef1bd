// The cells, set-up, and the calls. The six slices are parameters, as the calls that are replayed take them.
ghost use Rattle.std.specs.Prelude.{◌≡◌, ◌≤◌, length};
ghost use Rattle.model.specs.Buffers.{ours};
ghost use Rattle.model.specs.Slices.{as_lent};
ghost use Rattle.contracts.specs.Lent.{before};
ghost use Rattle.lines.specs.Output.{Puts};
ghost use Rattle.transcript.specs.Output.{call_of, PutsCalls, PutsSetUp, Fitted};
ghost use Rattle.replay_text.specs.Transcript.{transcript};

use field::Refused;
use items::{Next, next_at, read_cells};
use lines::Page;
use records::{Answer, Call, Refusal, Sessions};

// The call that stands at a place, with its field's length; none where something else stands, or nothing.
#[tactic(auto, unfolding(crate::specs::Output::call_of))]
fn call_of(next: Result<Option<Next>, Refused>) -> Option<(Call, usize)>
    ensures { result ≡ call_of next }
{
    match next {
        Ok(Some(Next::Call { call, length })) => Some((call, length)),
        Ok(Some(Next::Cell(_))) => None,
        Ok(None) => None,
        Err(_) => None,
    }
}

// The calls from a place on, each with its line, then the line of what ends them and the cells.
fn run_calls(
    input: &[u8],
    mut place: usize,
    page: &mut Page,
    mut sessions: Sessions,
    values: &mut [u32],
    classes: &[u8],
    readers: &mut [u16],
    claimants: &mut [u8],
    exclusives: &mut [u8],
    logs: &mut [u32],
)
    requires { (place ≤ length input.now) × (length input.now ≤ 65536) × (page.old.at ≡ 0) × (409600 ≤ length page.old.output.now) × (length values.old ≤ 1024) }
    ensures same { page.new.output.ghost_name ≡ page.old.output.ghost_name }
    ensures text { PutsCalls input place page.old page.new (before ours (as_lent values) classes (as_lent readers) (as_lent claimants) (as_lent exclusives) (as_lent logs) sessions) }
{
    // The ordinal is printed, and indexes nothing.
    let mut ordinal: u32 = 1;
    loop {
        let next = next_at(input, place);
        let Some((call, length)) = call_of(next) else {
            page.end(place, next, &values[..]);
            return;
        };
        let reply = lists::step(
            call, sessions, values, classes, readers, claimants, exclusives, logs,
        );
        sessions = reply.sessions;
        page.answer(ordinal, reply.answer);
        ordinal += 1;
        place += length;
    }
}

// Set-up on the cells that were read, then the calls; a refused set-up is all that is printed.
fn set_up_and_run(
    input: &[u8],
    from: usize,
    page: &mut Page,
    values: &mut [u32],
    classes: &[u8],
    readers: &mut [u16],
    claimants: &mut [u8],
    exclusives: &mut [u8],
    logs: &mut [u32],
)
    requires bounds { (from ≤ length input.now) × (length input.now ≤ 65536) × (page.old.at ≡ 0) × (409600 ≤ length page.old.output.now) }
    requires fitted { Fitted values.old classes.now readers.old claimants.old exclusives.old logs.old }
    ensures same { page.new.output.ghost_name ≡ page.old.output.ghost_name }
    ensures text { PutsSetUp input from page.old page.new (as_lent values) classes }
{
    let reply = set_up::set_up(
        records::all_idle(),
        &values[..],
        classes,
        readers,
        claimants,
        exclusives,
        logs,
    );
    if reply.answer != Answer::Done {
        page.set_up(reply.answer.number());
        return;
    }
    run_calls(
        input,
        from,
        page,
        reply.sessions,
        values,
        classes,
        readers,
        claimants,
        exclusives,
        logs,
    );
}

// The same on locks and logs of its own.
fn run_cells(input: &[u8], from: usize, page: &mut Page, values: &mut [u32], classes: &[u8])
    requires { (from ≤ length input.now) × (length input.now ≤ 65536) × (page.old.at ≡ 0) × (409600 ≤ length page.old.output.now) × (length values.old ≤ 1024) × (length classes.now ≡ length values.old) }
    ensures same { page.new.output.ghost_name ≡ page.old.output.ghost_name }
    ensures text { PutsSetUp input from page.old page.new (as_lent values) classes }
{
    let mut readers = [0u16; 1024];
    let mut claimants = [0u8; 1024];
    let mut exclusives = [0u8; 1024];
    let mut logs = [0u32; 2048];
    let count = values.len();
    set_up_and_run(
        input,
        from,
        page,
        values,
        classes,
        &mut readers[..count],
        &mut claimants[..count],
        &mut exclusives[..count],
        &mut logs,
    );
}

// The whole text.
pub(crate) fn print(input: &[u8], page: &mut Page)
    requires { (page.old.at ≡ 0) × (409600 ≤ length page.old.output.now) }
    ensures same { page.new.output.ghost_name ≡ page.old.output.ghost_name }
    ensures text { Puts page.old page.new (transcript input.now) 409600 }
{
    if 65536 < input.len() {
        page.size();
        return;
    }
    let mut values = [0u32; 1024];
    let mut classes = [0u8; 1024];
    let Some(cells) = read_cells(input, &mut values, &mut classes) else {
        page.set_up(Refusal::WrongLengths.number());
        return;
    };
    run_cells(
        input,
        cells.place,
        page,
        &mut values[..cells.count],
        &classes[..cells.count],
    );
}
