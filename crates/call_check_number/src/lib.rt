// Document 02, No. 4: a number to read over the telephone, of the first t bytes of an answer table.
#![tactic(auto)]

ghost use Rattle.std.specs.Prelude.{◌≡◌};
ghost use Rattle.call_check_number.specs.CheckNumber.{check_number, check_number_outcome, number_of_first, with_byte};

use call_sizes::Sizes;

// What it is refused by, for callers who rest on this crate alone.
pub use call_sizes::Refusal;

// What a byte turns h into. 31h is five doublings less h; each sum, and the difference, wraps at 4,294,967,296.
#[tactic(auto, unfolding(crate::specs::CheckNumber::with_byte))]
fn with_byte(h: u32, a: u8) -> u32
    ensures { result ≡ with_byte h a }
{
    let h2 = h.wrapping_add(h);
    let h4 = h2.wrapping_add(h2);
    let h8 = h4.wrapping_add(h4);
    let h16 = h8.wrapping_add(h8);
    let h32 = h16.wrapping_add(h16);
    let h31 = h32.wrapping_sub(h);
    h31.wrapping_add(a as u32 + 1)
}

// The check number of all these bytes.
fn number_of(bytes: &[u8]) -> u32
    ensures { result ≡ check_number bytes.now }
{
    bytes.iter().fold(1, |h, &a| with_byte(h, a))
}

// The check number of the table's first t bytes. Refused by 1 where t is above 4,096, then by 2 where the table is shorter than t.
pub fn check_number(table: &[u8], t: usize) -> Result<u32, Refusal>
    ensures { check_number_outcome result ≡ number_of_first table.now t }
{
    if t > Sizes::EVENTS {
        return Err(Refusal::Size);
    }
    if t > table.len() {
        return Err(Refusal::ShortTable);
    }
    Ok(number_of(&table[..t]))
}
