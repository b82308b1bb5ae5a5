//! Settings and names among the words.
//!
//! A word is split at its first `=`. Where letters a to z alone stand before that, it is a setting, and else a name. So
//! `./a=b` is a name. Whatever is asked of the words is a pass over them; nothing is kept.
ghost use Rattle.std.specs.Prelude.{◌≡◌, ◌≤◌, Option, None, Some, length, map, option_map};
ghost use Rattle.line_words.specs.Words.{all_letters, equals_split, setting, names_of, is_name, value_by, value_of};
ghost use Rattle.line_words.specs.Words.{sets, texts};
ghost use Rattle.line_words.specs.Table.{one_of, sets_all};

/// Whether each byte is one of the letters a to z.
fn all_letters(bytes: &[u8]) -> bool
    ensures { result ≡ all_letters bytes.now }
{
    let mut left = bytes;
    while let [first, rest @ ..] = left {
        if *first < b'a' || *first > b'z' {
            return false;
        }
        left = rest;
    }
    true
}

/// What stands before the first `=` of a word, and what stands behind it.
fn equals_split(word: &str) -> Option<(&str, &str)>
    ensures { option_map (λ p. (p.0.now, p.1.now)) result ≡ equals_split word.now }
{
    word.split_once('=')
}

/// The key and the value of a word that is a setting; a word that isn't is a name.
pub(crate) fn setting(word: &str) -> Option<(&str, &str)>
    ensures { option_map (λ p. (p.0.now, p.1.now)) result ≡ setting word.now }
{
    match equals_split(word) {
        None => None,
        Some((key, value)) => {
            if key.is_empty() || !all_letters(key.as_bytes()) {
                return None;
            }
            Some((key, value))
        }
    }
}

/// Whether a key is one of these.
pub(crate) fn is_one_of(key: &str, keys: &[&str]) -> bool
    ensures { result ≡ one_of key.now (map (λ k. k.now) keys.now) }
{
    for i in 0..keys.len() {
        if key == keys[i] {
            return true;
        }
    }
    false
}

/// Whether a word is a name, and no setting.
pub(crate) fn is_name(word: &str) -> bool
    ensures { result ≡ is_name word.now }
{
    setting(word).is_none()
}

/// The value of a word that is a setting with this key.
fn value_by<'a>(word: &'a str, key: &str) -> Option<&'a str>
    ensures { option_map (λ v. v.now) result ≡ value_by key.now (setting word.now) }
{
    match setting(word) {
        None => None,
        Some((found, value)) => {
            if found == key {
                return Some(value);
            }
            None
        }
    }
}

/// The value of the first setting among the words that has this key.
pub(crate) fn value_of<'a>(words: &'a [String], key: &str) -> Option<&'a str>
    ensures { option_map (λ v. v.now) result ≡ value_of (texts words.now) key.now }
{
    for i in 0..words.len() {
        match value_by(words[i].as_str(), key) {
            Some(value) => return Some(value),
            None => {}
        }
    }
    None
}

/// Whether a setting with this key stands among the words.
pub(crate) fn sets(words: &[String], key: &str) -> bool
    ensures { result ≡ sets (texts words.now) key.now }
{
    value_of(words, key).is_some()
}

/// Whether the words set each of these keys.
pub(crate) fn sets_all(words: &[String], keys: &[&str]) -> bool
    ensures { result ≡ sets_all (texts words.now) (map (λ k. k.now) keys.now) }
{
    for i in 0..keys.len() {
        if !sets(words, keys[i]) {
            return false;
        }
    }
    true
}

/// How many names stand among the words.
pub(crate) fn count_names(words: &[String]) -> usize
    ensures { result ≡ length (names_of (texts words.now)) }
{
    let mut names = 0;
    for i in 0..words.len() {
        if is_name(words[i].as_str()) {
            names += 1;
        }
    }
    names
}
