// The program `replay`: reads a list from standard input, and writes the answers and the totals, or the refusal. What it writes is `output` of the definitions,
// of all bytes of the input: 1,024 bytes are more than any list has, and a longer input is refused by them alone (`enough` of program_response).
#![tactic(auto)]

ghost use Rattle.std.specs.Prelude.{◌≤◌, ◌<◌, length, take, IfOk, IfSome, OnOk};
ghost use Rattle.std.specs.Io.KnownBytes.{Appends, Consumes, IsAtEnd};
ghost use Rattle.theory_timeline.specs.Program.{output};

use std::io;
use std::io::{Read, Write};

// Reads until the table is full or the input ends, and answers how many bytes were read; they stand at the front of the table.
fn read_full<R: Read>(input: &mut R, table: &mut [u8]) -> io::Result<usize>
    ensures within { IfOk result (λ n. n ≤ length table.new) }
    ensures bytes { IfOk result (λ n. Consumes (R.remaining input.old) (R.remaining input.new) (take n table.new)) }
    ensures end { IfOk result (λ n. n < length table.new → IsAtEnd (R.remaining input.new)) }
{
    let mut count = 0;
    while count < table.len() {
        let n = input.read(&mut table[count..])?;
        if n == 0 {
            return Ok(count);
        }
        count += n;
    }
    Ok(count)
}

// Reads an input, and writes the output that the definitions give for it. Of a reader and a writer whose bytes are not known, as of the standard streams, it
// says nothing; the code is the same.
pub fn run<R: Read, W: Write>(input: &mut R, printed: &mut W) -> io::Result<()>
    ensures { OnOk result (IfSome (R.remaining input.old) (λ bytes. Appends (W.contents printed.old) (W.contents printed.new) (output bytes))) }
{
    let mut table = [0u8; 1024];
    let count = read_full(input, &mut table)?;
    let mut work = [0u32; 16384];
    let mut out = [0u8; 2048];
    let length = program_response::respond(&table[..count], &mut work, &mut out);
    printed.write_all(&out[..length])
}

fn main(rt: HostRuntime) -> io::Result<()> {
    run(&mut rt.stdin(), &mut rt.stdout())
}
