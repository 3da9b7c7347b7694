// The program's reading, printing and response as functions on slices; the program `replay` itself only reads, calls and writes.
#![tactic(auto)]

mod response;

ghost use Rattle.std.specs.Prelude.{◌≡◌, ◌≤◌, length};
ghost use Rattle.theory_timeline.specs.Program.{output_with};
ghost use Rattle.program_printing.specs.Printing.{Wrote};
ghost use Rattle.program_response.specs.Response.{work_after};

// Internal: writes the program's output for its input at the front of `out`, with the work table that it lends, and answers the output's length.
// The work table stays as it was where the input itself is refused; else the replay leaves it as its definition says.
pub fn respond(input: &[u8], work: &mut [u32], out: &mut [u8]) -> usize
    requires { 2048 ≤ length out.old }
    ensures wrote { Wrote 0 (output_with work.old input.now) out.old out.new result × (result ≤ 2048) }
    ensures work_after { work.new ≡ work_after work.old input.now }
{
    match program_reading::read_header(input) {
        Ok(header) => response::replay_input(input, header, work, out),
        Err(refusal) => program_printing::put_refused(out, 0, refusal),
    }
}
