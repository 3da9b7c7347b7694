// Numbers that look random, the same in each run.
ghost use Rattle.std.specs.Prelude.{◌<◌};

// Internal: the next number of a linear congruential sequence.
pub fn next(s: usize) -> usize
    ensures { result < 2147483648 }
{
    (s % 2147483648 * 1103515245 + 12345) % 2147483648
}

// Internal: x below n, going round, or 0.
pub fn round(x: usize, n: usize) -> usize {
    x.checked_rem(n).unwrap_or(0)
}

// Internal: a number below n for place i of the table t, or 0.
pub fn at(s: usize, t: usize, i: usize, n: usize) -> usize {
    let a = next(s % 2147483648 + t % 32 * 7919);
    let b = next((a ^ (a / 65536)) % 2147483648 + i % 8192 * 104729);
    round(next(b ^ (b / 65536)) / 65536, n)
}
