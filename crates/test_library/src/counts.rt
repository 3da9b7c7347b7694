// What is counted, and printed.
use std::fmt;

#[derive(Clone, Copy, Default)]
pub struct Count {
    total: usize,
}

impl Count {
    // Internal: counts so many more.
    pub fn add(&mut self, more: usize) {
        self.total = self.total.saturating_add(more);
    }

    // Internal: counts one more where it holds.
    pub fn add_if(&mut self, holds: bool) {
        self.add(usize::from(holds));
    }
}

impl fmt::Display for Count {
    fn fmt<W: fmt::Write>(&self, f: &mut fmt::Formatter<W>) -> fmt::Result {
        write!(f, "{}", self.total)
    }
}
