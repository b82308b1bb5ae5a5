//! How a text is known to be a table.
ghost use Rattle.std.specs.Prelude.{◌≡◌, true, bytes_eq};
ghost use Rattle.csv.specs.Reading.{strip_bom};
ghost use Rattle.task_table.specs.Marks.{table_mark, has_bom, past_ends, lowered, is_mark, first_mark, mark_behind};

/// The bytes of a byte-order mark.
const BYTE_ORDER_MARK: [u8; 3] = [0xEF, 0xBB, 0xBF];

/// Whether a text begins with a byte-order mark.
pub fn has_bom(bytes: &[u8]) -> bool
    ensures { result ≡ has_bom bytes.now }
{
    bytes.starts_with(&BYTE_ORDER_MARK)
}

/// A text behind its byte-order mark, where it has one.
fn without_bom(bytes: &[u8]) -> &[u8]
    ensures { result.now ≡ strip_bom bytes.now }
{
    if has_bom(bytes) {
        return &bytes[3..];
    }
    bytes
}

/// A text from its first byte on that is neither CR nor LF.
fn past_ends(bytes: &[u8]) -> &[u8]
    ensures { result.now ≡ past_ends bytes.now }
{
    let mut left = bytes;
    while let [first, rest @ ..] = left {
        if *first != b'\r' && *first != b'\n' {
            return left;
        }
        left = rest;
    }
    left
}

/// Whether bytes are a word in small letters, whatever the case of their letters.
pub fn is_word(bytes: &[u8], word: &[u8]) -> bool
    requires { lowered word.now ≡ word.now }
    ensures { result ≡ bytes_eq (lowered bytes.now) word.now }
{
    bytes.eq_ignore_ascii_case(word)
}

/// Whether a byte may stand between two fields: a comma, a semicolon or a tab.
fn is_mark(byte: u8) -> bool
    ensures { result ≡ is_mark byte }
{
    byte == b',' || byte == b';' || byte == b'\t'
}

/// The mark that a text begins with.
fn first_mark(text: &[u8]) -> Option<u8>
    ensures { result ≡ first_mark text.now }
{
    match text {
        [first, ..] if is_mark(*first) => Some(*first),
        _ => None,
    }
}

/// The mark behind a word in small letters, where a text begins with the word, whatever the case of its letters.
fn mark_behind(text: &[u8], word: &[u8]) -> Option<u8>
    requires { lowered word.now ≡ word.now }
    ensures { result ≡ mark_behind word.now text.now }
{
    let (front, rest) = text.split_at_checked(word.len())?;
    if is_word(front, word) {
        return first_mark(rest);
    }
    None
}

/// The mark between the fields of a table, a comma, a semicolon or a tab; None exactly where the text is no table's.
/// Behind a byte-order mark, where there is one, and then any CR and LF, a table begins with the word `task`, with or
/// without double quotes and in letters of any case, and its mark.
pub fn table_mark(bytes: &[u8]) -> Option<u8>
    ensures { result ≡ table_mark bytes.now }
{
    let text = past_ends(without_bom(bytes));
    match mark_behind(text, b"task") {
        Some(mark) => Some(mark),
        None => mark_behind(text, b"\"task\""),
    }
}
