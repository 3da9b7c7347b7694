// Inputs of the program and what it must print, made by a slow program before any code of the product; they stand on standard input. A vector is a line:
// the input's bytes in base 16, then = and the output, then ; at its end. In the output _ stands for a space and / for a line end.
use crate::outputs;
use crate::outputs::Output;
use std::io;
use std::ops::Range;
use test_library::counts::Count;
use test_library::text::{Text, Vectors};
use test_library::{calls, text};

// How many vectors there are, and how many of them are wrong.
#[derive(Clone, Copy, Default)]
pub(crate) struct Compared {
    pub(crate) vectors: Count,
    pub(crate) wrong: Count,
}

// The count bytes that stand in base 16 from start on, of which an index goes round at the end.
fn decode(text: &Text, start: usize, count: usize) -> outputs::Input {
    let mut input = [0; 5120];
    for j in 0..count {
        input[j % 5120] = text::pair(text, start.saturating_add(j.saturating_mul(2)));
    }
    input
}

// The byte that a byte of the vector stands for.
fn printed(byte: u8) -> u8 {
    match byte {
        b'_' => b' ',
        b'/' => b'\n',
        _ => byte,
    }
}

// Whether the output is that which stands from start to end.
fn is_output(output: &[u8], text: &Text, start: usize, end: usize) -> bool {
    let is_right = |(j, byte): (usize, &u8)| *byte
        == printed(text::at(text, start.saturating_add(j)));
    output.len() == end.saturating_sub(start) && output.iter().enumerate().all(is_right)
}

// Whether a vector comes out right. Its input ends before the next =.
fn is_right(text: &Text, vector: Range<usize>) -> bool {
    let mark = text::find(text, vector.start, b'=');
    let count = mark.saturating_sub(vector.start) / 2;
    let input = decode(text, vector.start, count);
    let mut out: Output = [0; 2048];
    let written = outputs::respond(calls::first(&input, count), &mut out);
    let output = calls::first(&out, written);
    is_output(output, text, mark.saturating_add(1), vector.end)
}

// Reads the vectors, the first 200, and runs them.
pub(crate) fn compare(rt: &impl io::Input) -> io::Result<Compared> {
    let mut text = [0; 65536];
    let length = text::read(rt, &mut text)?;
    let mut vectors = Vectors::new(&text, length);
    let mut compared = Compared::default();
    for _ in 0..200 {
        let Some(vector) = vectors.next() else {
            break;
        };
        compared.vectors.add(1);
        compared.wrong.add_if(!is_right(&text, vector));
    }
    Ok(compared)
}
