// The replay of document 01, "Call fields", as one function from input bytes to output bytes.
#![tactic(auto)]

mod run;

ghost use Rattle.std.specs.Prelude.{◌≡◌, ◌≤◌, length};
ghost use Rattle.replay_text.specs.Transcript.{transcript};
ghost use Rattle.transcript.specs.Replay.{replayed, replaying};

use lines::Page;

// Prints the replay of `input` at the front of `output`, on a store of its own, and answers how many bytes it wrote. An output shorter than 409,600 bytes is
// left alone, and the answer is none; no text is longer: at most 16,384 calls with 21 bytes each, 1,024 cells with 18, and one line more.
#[tactic(auto, using(crate::proofs::Starting::short))]
pub fn replay(input: &[u8], output: &mut [u8]) -> Option<usize>
    ensures text { replayed result output.new ≡ replaying input.now output.old }
    ensures bound { 409600 ≤ length output.old → length (transcript input.now) ≤ 409600 }
{
    if output.len() < 409600 {
        return None;
    }
    let mut page = Page::new(output);
    run::print(input, &mut page);
    Some(page.at)
}
