// What calls of the product share. Each table that a call may write holds 7 before.
ghost use Rattle.std.specs.Prelude.{◌+◌, ◌≤◌};

// The value in each table that a call may write.
pub const BEFORE: u8 = 7;

// How tables are lent. A table is named by its place among those of a call, from 1 on.
#[derive(Clone, Copy, Default)]
pub struct Lending {
    // Whether the tables that may be longer are longer than they have to be: all of a contraction, and those that a replay writes.
    pub longer: bool,
    // The table that is one entry short.
    pub short: Option<usize>,
    // The table that is only read and has one entry more than its size.
    pub long: Option<usize>,
}

impl Lending {
    // Internal: longer tables than they have to be.
    pub fn longer() -> Lending {
        Lending {
            longer: true,
            short: None,
            long: None,
        }
    }

    // Internal: the length of a table of which this is the least length.
    pub fn length(&self, table: usize, least: usize) -> usize
        ensures { result ≤ least + 3 }
    {
        if self.longer {
            return least.saturating_add(3);
        }
        least.saturating_sub(usize::from(self.short == Some(table)))
    }

    // Internal: the length of a table that is only read, and may have no other length than this size.
    pub fn exact(&self, table: usize, size: usize) -> usize {
        let most = size.saturating_add(usize::from(self.long == Some(table)));
        most.saturating_sub(usize::from(self.short == Some(table)))
    }
}

// Internal: the first count entries, or all. Those behind a list's own are lent where the table is to be longer than it is.
pub fn first<T>(t: &[T], count: usize) -> &[T] {
    let n = count.min(t.len());
    &t[..n]
}

// Internal: the same of a table that a call may write.
pub fn first_mut<T>(t: &mut [T], count: usize) -> &mut [T] {
    let n = count.min(t.len());
    &mut t[..n]
}

// Internal: how many entries are no longer as before, of those from the first count on that were lent, all of them.
pub fn changed<T: Copy + PartialEq + From<u8>>(t: &[T], count: usize, all: usize) -> usize {
    let before = T::from(BEFORE);
    t.iter()
        .take(all)
        .skip(count)
        .filter(|v| **v != before)
        .count()
}

// Internal: how many entries are wrong of all that were lent, where the first count are to be as wanted and the others as before.
pub fn entries_wrong<T: Copy + PartialEq + From<u8>>(
    t: &[T],
    want: &[T],
    count: usize,
    all: usize,
) -> usize {
    let written = t
        .iter()
        .zip(want)
        .take(count)
        .filter(|(v, w)| v != w)
        .count();
    written.saturating_add(changed(t, count, all))
}

// Internal: how many words are wrong of all that were lent, where the first count are to be 0 and the others as before.
pub fn words_wrong(work: &[u32], count: usize, all: usize) -> usize {
    let cleared = work.iter().take(count).filter(|w| **w != 0).count();
    cleared.saturating_add(changed(work, count, all))
}

// Internal: fills the first count words, or all, with what is in a table before a call.
pub fn refill(work: &mut [u32], count: usize) {
    first_mut(work, count).fill(u32::from(BEFORE));
}
