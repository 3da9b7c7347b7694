// What a test program prints.
use std::fmt::Display;
use std::io;

// Internal: writes a line for each of what was counted.
pub fn counts<T: Display>(rt: &impl Print, rows: &[(&str, T)]) -> io::Result<()> {
    for (what, count) in rows {
        println!(rt; "{what}: {count}")?;
    }
    Ok(())
}
