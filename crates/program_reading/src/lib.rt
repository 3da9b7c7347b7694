// The input: 16-bit little-endian numbers, the sizes and the share first.
#![tactic(auto)]

ghost use Rattle.std.specs.Prelude.{◌≡◌, ◌+◌, ◌*◌, ◌<◌, ◌≤◌, drop, length, get_or, take};
ghost use Rattle.theory_timeline.specs.Program.{words16};
ghost use Rattle.program_reading.specs.Reading.{header_outcome, check_input};

use call_sizes::Refusal;

// Internal: the sizes and the share at the front of an input.
#[derive(Clone, Copy, Debug, PartialEq, Eq)]
pub struct Header {
    pub n: usize,
    pub m: usize,
    pub t: usize,
    pub p: usize,
}

// Number i of the input.
fn number(input: &[u8], i: usize) -> u16
    requires { 2 * i + 1 < length input.now }
    ensures { result ≡ get_or (words16 input.now) i 0 }
{
    u16::from_le_bytes([input[2 * i], input[2 * i + 1]])
}

// Internal: checks the input's length and the program's limits: refusals 9 and 10 in their order. A header's input is exactly as long as it says.
#[tactic(auto, unfolding(theory_timeline::specs::Program::input_fault, theory_timeline::specs::Program::input_faults))]
pub fn read_header(input: &[u8]) -> Result<Header, Refusal>
    ensures { header_outcome result ≡ check_input input.now }
{
    if input.len() < 8 {
        return Err(Refusal::InputLength);
    }
    let n = number(input, 0) as usize;
    if n > 176 {
        return Err(Refusal::ProgramLimit);
    }
    let m = number(input, 1) as usize;
    if m > 64 {
        return Err(Refusal::ProgramLimit);
    }
    let t = number(input, 2) as usize;
    if t > 32 {
        return Err(Refusal::ProgramLimit);
    }
    if input.len() != 2 * (4 + 3 * m + 2 * t) {
        return Err(Refusal::InputLength);
    }
    let p = number(input, 3) as usize;
    Ok(Header { n, m, t, p })
}

// Internal: fills the table with the input's numbers from number i on.
pub fn fill(input: &[u8], i: usize, table: &mut [u16])
    requires { 2 * (i + length table.old) ≤ length input.now }
    ensures { table.new ≡ take (length table.old) (drop i (words16 input.now)) }
{
    // The entries before j are filled.
    for (j, entry) in table.iter_mut().enumerate() {
        *entry = number(input, i + j);
    }
}
