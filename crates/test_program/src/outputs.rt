// Calls of the program's response, and the refusals that the program adds to those of the replay.
use test_library::calls;

pub(crate) type Input = [u8; 5120];

pub(crate) type Output = [u8; 2048];

// The response to an input, in the first bytes of the output, and how many they are.
pub(crate) fn respond(input: &[u8], out: &mut Output) -> usize {
    let mut work = [0u32; 16384];
    program_response::respond(input, &mut work, out)
}

// Whether the first count bytes of an input are refused so. Its sizes are these and the share 8, and zeros follow, but for two that make queries of two
// junctions where the sizes ask for 34 bytes.
fn is_refused(sizes: [u8; 3], count: usize, line: &[u8]) -> bool {
    let mut input: Input = [0; 5120];
    input[0] = sizes[0];
    input[2] = sizes[1];
    input[4] = sizes[2];
    input[6] = 8;
    input[30] = 1;
    input[32] = 1;
    let mut out: Output = [0; 2048];
    let written = respond(calls::first(&input, count), &mut out);
    calls::first(&out, written) == line
}

// How many lengths up to 5119 are refused by 9, where the sizes ask for 34 bytes. The program reads no more than 1024.
pub(crate) fn lengths_refused() -> usize {
    (0..5120)
        .filter(|length| is_refused([3, 3, 2], *length, b"refused 9 at 0\n"))
        .count()
}

// How many of the three sizes are refused by 10 where one of them is this much past its limit, and the input ends after the sizes.
pub(crate) fn sizes_refused(past: bool) -> usize {
    let more = u8::from(past);
    [[176 + more, 0, 0], [1, 64 + more, 0], [1, 0, 32 + more]]
        .iter()
        .filter(|sizes| is_refused(**sizes, 8, b"refused 10 at 0\n"))
        .count()
}
