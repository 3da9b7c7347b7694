// Runs the response of the program replay on vectors, which it reads, on inputs of each length and on sizes past the program's limits. Prints counts.
#![tactic(auto)]

mod outputs;
mod vectors;

use std::io;
use test_library::print;

fn main(rt: HostRuntime) -> io::Result<()> {
    let compared = vectors::compare(&rt)?;
    let rows = [
        ("vectors of the program", compared.vectors),
        ("wrong", compared.wrong),
    ];
    print::counts(&rt, &rows)?;
    let rows = [
        (
            "of the lengths 0 to 5119 of an input of 34 bytes, refused by 9",
            outputs::lengths_refused(),
        ),
        (
            "of 177 junctions, 65 segments, 33 events, refused by 10",
            outputs::sizes_refused(true),
        ),
        (
            "of 176 junctions, 64 segments, 32 events, refused by 10",
            outputs::sizes_refused(false),
        ),
    ];
    print::counts(&rt, &rows)
}
