// The reader's call on the answer table.
#![tactic(auto)]

ghost use Rattle.std.specs.Prelude.{◌≡◌};
ghost use Rattle.call_answers.specs.Reader.{first_or_none};

// The reader's call: the table's own first t bytes, or its empty part where t is larger than the table.
pub fn answers(table: &[u8], t: usize) -> &[u8]
    ensures { result.now ≡ first_or_none table.now t }
{
    if t <= table.len() {
        &table[..t]
    } else {
        &table[..0]
    }
}
