// The replay program of document 01, "Call fields": standard input, up to one byte more than it may have, through `transcript::replay`, to standard
// output. All memory is on the stack, and fixed. A read or a write that fails ends it with status 1.
#![tactic(auto)]

ghost use Rattle.std.specs.Prelude.{◌<◌, length, take, IfOk, IfSome, OnOk};
ghost use Rattle.std.specs.Io.{ReadsAtMost};
ghost use Rattle.std.specs.Io.KnownBytes.{Appends, Consumes, IsAtEnd};
ghost use Rattle.replay_text.specs.Transcript.{transcript};

use std::io;
use std::io::{Read, Write};

// Reads until `bytes` is full or the input ends, and answers how many bytes it put at the front. (A `while`: it counts no index, and reads until the
// input ends.)
fn read_full<R: Read>(from: &mut R, bytes: &mut [u8]) -> io::Result<usize>
    ensures inside { ReadsAtMost result bytes.new }
    ensures taken { IfOk result (λ n. Consumes (R.remaining from.old) (R.remaining from.new) (take n bytes.new)) }
    ensures ended { IfOk result (λ n. n < length bytes.new → IsAtEnd (R.remaining from.new)) }
{
    let mut done = 0;
    while done < bytes.len() {
        let n = from.read(&mut bytes[done..])?;
        if n == 0 {
            return Ok(done);
        }
        done += n;
    }
    Ok(done)
}

// Writes the replay's text of what a reader gives.
fn run<R: Read, W: Write>(from: &mut R, to: &mut W) -> io::Result<()>
    ensures { OnOk result (IfSome (R.remaining from.old) (λ input. Appends (W.contents to.old) (W.contents to.new) (transcript input))) }
{
    let mut input = [0u8; 65537];
    let mut output = [0u8; 409600];
    let n = read_full(from, &mut input)?;
    let Some(end) = transcript::replay(&input[..n], &mut output) else {
        return Ok(());
    };
    to.write_all(&output[..end])
}

fn main(rt: HostRuntime) -> io::Result<()> {
    run(&mut rt.stdin(), &mut rt.stdout())
}
