//! Sieves of tags: rows of words in which each tag has one bit. Where its bit isn't there, a tag isn't there either.
//!
//! A look and a put touch one word.

ghost use Rattle.std.specs.Prelude.{◌≡◌, ◌<◌, true, length, slice_index, slice_set, bit_or};
ghost use Rattle.lemma_core.specs.Sieves.{word_in, mark_of, HasMark};

/// The word in which the mark of a tag is, out of so many.
#[inline]
fn word(tag: u32, count: usize) -> usize
    requires { 0 < count }
    ensures value { result ≡ word_in count tag }
    ensures within { result < count }
{
    (tag / 64) as usize & (count - 1)
}

/// The mark of a tag in its word.
#[inline]
fn mark(tag: u32) -> u64
    ensures { result ≡ mark_of tag }
{
    1 << (tag % 64)
}

/// Puts the mark of a tag into its word.
#[inline]
pub fn put_mark(words: &mut [u64], tag: u32)
    requires { 0 < length words.old }
    ensures { let word = word_in (length words.old) tag in
        words.new ≡ slice_set words.old word (bit_or (slice_index words.old word) (mark_of tag)) }
{
    let at = word(tag, words.len());
    words[at] |= mark(tag);
}

/// Whether the mark of a tag is in its word.
#[inline]
pub fn has_mark(words: &[u64], tag: u32) -> bool
    requires { 0 < length words.now }
    ensures there { result ≡ true → HasMark words.now tag }
    ensures absent { HasMark words.now tag → result ≡ true }
{
    let mark = mark(tag);
    words[word(tag, words.len())] & mark == mark
}
