//! The names in a list of a field, with semicolons between them, and the blanks around a name.
ghost use Rattle.std.specs.Prelude.{◌≡◌, ◌<◌, ◌+◌, ◌^◌, nat_eq, length, position, IfSome};
ghost use Rattle.std.specs.List.{list_all};
ghost use Rattle.task_table.specs.Lists.{past_blanks, up_to_blanks, unblanked};

/// Whether bytes are blanks alone.
pub fn is_blank(bytes: &[u8]) -> bool
    ensures { result ≡ list_all (λ b. nat_eq b 32) bytes.now }
{
    bytes.iter().all(|b| *b == b' ')
}

/// The place of the first semicolon.
pub fn semicolon(bytes: &[u8]) -> Option<usize>
    ensures place { result ≡ position (λ b. nat_eq b 59) bytes.now }
    ensures within { IfSome result (λ k. k < length bytes.now) }
    ensures small { IfSome result (λ k. k + 1 < 2 ^ 64) }
{
    bytes.iter().position(|b| *b == b';')
}

/// A text from its first byte on that is no blank.
fn past_blanks(bytes: &[u8]) -> &[u8]
    ensures { result.now ≡ past_blanks bytes.now }
{
    let mut kept = bytes;
    while let [first, rest @ ..] = kept {
        if *first != b' ' {
            return kept;
        }
        kept = rest;
    }
    kept
}

/// A text up to its last byte that is no blank.
fn up_to_blanks(bytes: &[u8]) -> &[u8]
    ensures { result.now ≡ up_to_blanks bytes.now }
{
    let mut kept = bytes;
    while let [front @ .., last] = kept {
        if *last != b' ' {
            return kept;
        }
        kept = front;
    }
    kept
}

/// A text without the blanks at its ends.
pub fn unblanked(bytes: &[u8]) -> &[u8]
    ensures { result.now ≡ unblanked bytes.now }
{
    up_to_blanks(past_blanks(bytes))
}
