// Reads a whole input into lent bytes.
#![tactic(auto)]

ghost use Rattle.std.specs.Prelude.{◌<◌, ◌≤◌, length, take, IfOk};
ghost use Rattle.std.specs.Io.KnownBytes.{Consumes, IsAtEnd};

#[cfg(test)]
mod tests;

use std::io;
use std::io::Read;

// Reads until `bytes` is full or the input ends, and answers how many bytes were read. A read that fails ends it, an interrupted one too:
// what was read before is lost.
pub fn read_full<R: Read>(input: &mut R, bytes: &mut [u8]) -> io::Result<usize>
    ensures fits { IfOk result (λ n. n ≤ length bytes.new) }
    ensures front { IfOk result (λ n. Consumes (R.remaining input.old) (R.remaining input.new) (take n bytes.new)) }
    ensures end { IfOk result (λ n. n < length bytes.new → IsAtEnd (R.remaining input.new)) }
{
    let mut count = 0;
    while count < bytes.len() {
        match input.read(&mut bytes[count..])? {
            0 => break,
            read => count += read,
        }
    }
    Ok(count)
}
