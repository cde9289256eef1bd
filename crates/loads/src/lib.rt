// Tables of caps judged, at set-up and to be loaded in the place of the one in force (document 02, Paper 5): once for every form of the locks, by the lengths of what is lent.
#![tactic(auto)]

ghost use Rattle.std.specs.Prelude.{◌≡◌, length};
ghost use Rattle.records.specs.Records.{refusal_of, answered};
ghost use Rattle.model.specs.Load.{all_idle};
ghost use Rattle.model.specs.Slices.{as_lent};
ghost use Rattle.loads.specs.Loads.{set_up_tests, table_refusal, LoadsCaps};

use records::{Refusal, Sessions};
use refusals::Lengths;

// Whether every session is idle.
#[inline(never)]
pub fn are_idle(sessions: Sessions) -> bool
    ensures { result ≡ all_idle sessions }
{
    for session in &sessions.records {
        if session.phase != 0 {
            return false;
        }
    }
    true
}

// Set-up by a table: 7, also of the table, then 16 and 8.
#[tactic(auto, unfolding(crate::specs::Loads::set_up_tests), using(model::proofs::Tables::has_not, model::proofs::Tables::has_caps_lem))]
pub fn judge_set_up(
    lengths: Lengths,
    values: &[u32],
    classes: &[u8],
    caps: &[u32],
) -> Result<(), Refusal>
    requires { (lengths.values ≡ length values.now) × (lengths.classes ≡ length classes.now) }
    ensures { refusal_of result ≡ set_up_tests caps.now lengths values.now classes.now }
{
    if caps.len() != 16 {
        Err(Refusal::WrongLengths)
    } else if !lengths.fit() {
        Err(Refusal::WrongLengths)
    } else if !caps::caps_pass(caps) {
        Err(Refusal::WrongCaps)
    } else if !caps::all_fit(caps, values, classes) {
        Err(Refusal::UnknownClass)
    } else {
        Ok(())
    }
}

// A table to be loaded: 2, 16, 8 and 17.
#[tactic(auto, unfolding(crate::specs::Loads::table_refusal))]
fn judge_table(
    sessions: Sessions,
    values: &[u32],
    classes: &[u8],
    table: &[u32],
) -> Result<(), Refusal>
    requires { (length table.now ≡ 16) × (length classes.now ≡ length values.now) }
    ensures { refusal_of result ≡ table_refusal table.now sessions values.now classes.now }
{
    if !are_idle(sessions) {
        return Err(Refusal::WrongPhase);
    }
    if !caps::caps_pass(table) {
        return Err(Refusal::WrongCaps);
    }
    if !caps::all_classed(classes) {
        return Err(Refusal::UnknownClass);
    }
    if !caps::all_fit(table, values, classes) {
        return Err(Refusal::ValueAboveCaps);
    }
    Ok(())
}

// The table in the place of the one in force, of locks and logs of these lengths: refused by 7, 2, 16, 8 or 17 with the old table as it was. (Four lengths and no `Lengths`:
// `LoadsCaps` is of any lengths, and a `Lengths` would ask that two of its six are those of the slices.)
pub fn load_caps(
    sessions: Sessions,
    values: &[u32],
    classes: &[u8],
    readers: usize,
    claimants: usize,
    exclusives: usize,
    logs: usize,
    caps: &mut [u32],
    table: &[u32],
) -> Result<(), Refusal>
    ensures { LoadsCaps values classes readers claimants exclusives logs (as_lent caps) table sessions (answered result) }
{
    let lengths = Lengths {
        values: values.len(),
        classes: classes.len(),
        readers,
        claimants,
        exclusives,
        logs,
    };
    if caps.len() != 16 {
        return Err(Refusal::WrongLengths);
    }
    if table.len() != 16 {
        return Err(Refusal::WrongLengths);
    }
    if !lengths.fit() {
        return Err(Refusal::WrongLengths);
    }
    judge_table(sessions, values, classes, table)?;
    caps::put_caps(caps, table);
    Ok(())
}
