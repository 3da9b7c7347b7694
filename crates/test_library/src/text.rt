// Vectors as text: each is a line with ; at its end, and numbers stand in base 16. A test program reads them from standard input into fixed memory, where a place
// goes round at the text's end, so that no caller has to know the bounds (`Vectors`, `NumbersFrom`). A line that is at hand by itself is read digit by digit
// (`vector`, `Numbers`).
ghost use Rattle.std.specs.Prelude.{◌≤◌, length, IfOk};

use crate::replays::Answers;
use crate::tables::Entries;
use std::io;
use std::io::Read;
use std::ops::Range;

// Kept: an array and no String, so that the test programs rest on no heap, and bytes that are no text are read as they stand.
pub type Text = [u8; 65536];

// Internal: reads standard input to its end, or until the text is full, and answers how many bytes were read.
pub fn read(rt: &impl Input, text: &mut Text) -> io::Result<usize>
    ensures { IfOk result (λ n. n ≤ 65536) }
{
    let mut reader = rt.reader();
    let mut count = 0;
    while count < text.len() {
        let n = reader.read(&mut text[count..])?;
        if n == 0 {
            break;
        }
        count += n;
    }
    Ok(count)
}

// Internal: byte i.
pub fn at(text: &Text, i: usize) -> u8 {
    text[i % 65536]
}

// Internal: the first place of this byte from start on, or the end of the text.
pub fn find(text: &Text, start: usize, byte: u8) -> usize {
    (start..65536)
        .find(|i| at(text, *i) == byte)
        .unwrap_or(65536)
}

// The value of a digit in base 16.
fn digit(byte: u8) -> u8 {
    if byte < 58 {
        return byte % 48;
    }
    byte % 87
}

// Internal: the number of the two digits at i.
pub fn pair(text: &Text, i: usize) -> u8 {
    let high = digit(at(text, i));
    let low = digit(at(text, i.saturating_add(1)));
    high % 16 * 16 + low % 16
}

// The vectors of a text that are still to be read.
#[derive(Drop)]
pub struct Vectors<'a> {
    text: &'a Text,
    // How many bytes of the text were read.
    length: usize,
    // Where the next vector begins.
    start: usize,
}

impl<'a> Vectors<'a> {
    // Internal: all vectors of a text of which so many bytes were read.
    pub fn new(text: &'a Text, length: usize) -> Vectors<'a> {
        Vectors {
            text,
            length,
            start: 0,
        }
    }

    // Internal: where the next vector stands, to the next ;. Behind it comes a line end. After the last vector there is no ;.
    pub fn next(&mut self) -> Option<Range<usize>> {
        let start = self.start;
        let end = find(self.text, start, b';');
        if end >= self.length {
            return None;
        }
        self.start = end.saturating_add(2);
        Some(start..end)
    }
}

// What the numbers of a vector are read from, one after the other. How many fit into a table is the implementation's.
pub(crate) trait ReadNumbers {
    fn read(&mut self) -> u16;

    // Copies the next count numbers into a table.
    fn read_table(&mut self, t: &mut Entries, count: usize);

    // The same of bytes.
    fn read_bytes(&mut self, t: &mut Answers, count: usize);

    // The next ten numbers.
    fn read_row(&mut self) -> [usize; 10] {
        let mut row = [0; 10];
        for number in row.iter_mut() {
            *number = usize::from(self.read());
        }
        row
    }
}

// The numbers of a vector, of four digits each, where it begins and which number is read next. They are read on past the vector's end.
#[derive(Drop)]
pub struct NumbersFrom<'a> {
    text: &'a Text,
    start: usize,
    next: usize,
}

impl<'a> NumbersFrom<'a> {
    // Internal: all numbers of the vector that begins at start.
    pub fn new(text: &'a Text, start: usize) -> NumbersFrom<'a> {
        NumbersFrom {
            text,
            start,
            next: 0,
        }
    }

    // Internal: the next number.
    pub fn next(&mut self) -> u16 {
        let i = self.start.saturating_add(self.next % 8192 * 4);
        self.next = self.next.saturating_add(1);
        u16::from_be_bytes([pair(self.text, i), pair(self.text, i.saturating_add(2))])
    }

    // Internal: the next ten numbers.
    pub fn row(&mut self) -> [usize; 10] {
        self.read_row()
    }

    // Internal: copies the next count numbers into a table, of which an index goes round at the end.
    pub fn copy(&mut self, t: &mut Entries, count: usize) {
        for j in 0..count {
            t[j % 8200] = self.next();
        }
    }
}

impl<'a> ReadNumbers for NumbersFrom<'a> {
    fn read(&mut self) -> u16 {
        self.next()
    }

    fn read_table(&mut self, t: &mut Entries, count: usize) {
        self.copy(t, count)
    }

    fn read_bytes(&mut self, t: &mut Answers, count: usize) {
        for i in 0..count {
            t[i % 4104] = (self.next() % 256) as u8;
        }
    }
}

// Internal: the vector of a line, without the ; at its end.
pub fn vector(line: &str) -> &[u8] {
    line.strip_suffix(';').unwrap_or(line).as_bytes()
}

// Internal: the number of at most four digits in base 16.
pub fn number(digits: &[u8]) -> usize {
    let digit = |byte: u8| char::from(byte).to_digit(16).unwrap_or(0) as usize;
    digits
        .iter()
        .fold(0, |v, byte| v % 4096 * 16 + digit(*byte) % 16)
}

// The numbers of a vector that are still to be read, of four digits each. Behind the last one there are zeros.
#[derive(Drop)]
pub struct Numbers<'a> {
    digits: &'a [u8],
}

impl<'a> Numbers<'a> {
    // Internal: all numbers of a vector.
    pub fn new(digits: &'a [u8]) -> Numbers<'a> {
        Numbers { digits }
    }

    // Internal: the next number.
    pub fn next(&mut self) -> usize {
        let (first, others) = self.digits.split_at(self.digits.len().min(4));
        self.digits = others;
        number(first)
    }

    // Internal: the next ten numbers.
    pub fn row(&mut self) -> [usize; 10] {
        self.read_row()
    }

    // Internal: copies the next count numbers into a table.
    pub fn copy(&mut self, t: &mut [u16], count: usize) {
        for entry in t.iter_mut().take(count) {
            *entry = (self.next() % 65536) as u16;
        }
    }
}

impl<'a> ReadNumbers for Numbers<'a> {
    fn read(&mut self) -> u16 {
        (self.next() % 65536) as u16
    }

    fn read_table(&mut self, t: &mut Entries, count: usize) {
        self.copy(t, count)
    }

    fn read_bytes(&mut self, t: &mut Answers, count: usize) {
        for byte in t.iter_mut().take(count) {
            *byte = (self.next() % 256) as u8;
        }
    }
}
