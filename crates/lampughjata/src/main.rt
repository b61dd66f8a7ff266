// Reads a description's words from standard input and prints its rows and the build's answer.
#![tactic(auto)]

ghost use Rattle.std.specs.Prelude.{◌<◌, ◌≤◌, length, take, IfOk};
ghost use Rattle.std.specs.Io.KnownBytes.{Consumes, IsAtEnd};

use listing::{INPUT_BYTES, MOST_BYTES, report};
use std::io;
use std::io::{Input, Print, Read};

// Reads until `bytes` is full or the input ends, and answers how many bytes were read. A read that fails ends it, an interrupted one too:
// what was read before is lost.
fn read_full<R: Read>(input: &mut R, bytes: &mut [u8]) -> io::Result<usize>
    ensures fits { IfOk result (λ n. n ≤ length bytes.new) }
    ensures front { IfOk result (λ n. Consumes (R.remaining input.old) (R.remaining input.new) (take n bytes.new)) }
    ensures end { IfOk result (λ n. n < length bytes.new → IsAtEnd (R.remaining input.new)) }
{
    let mut count = 0;
    while count < bytes.len() {
        match input.read(&mut bytes[count..])? {
            0 => break,
            read => count += read,
        }
    }
    Ok(count)
}

fn main(rt: HostRuntime) -> io::Result<()> {
    let mut bytes = [0u8; INPUT_BYTES];
    let count = read_full(&mut rt.reader(), &mut bytes)?;
    let mut out = [0u8; MOST_BYTES];
    let end = report(&bytes[..count], &mut out);
    rt.write_all(&out[..end])
}
