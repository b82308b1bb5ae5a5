//! How wide a text is, and at which of its blanks it is parted best.
//!
//! A width is counted by bytes, in classes of 4, 8 and 12, as near to the usual fonts as a picture without fonts needs.
//! The best blank is found in one pass, with the widths of what lies on either side of it.
ghost use Rattle.std.specs.Prelude.{◌≡◌, ◌≤◌, ◌<◌, ◌^◌, ◌+◌, ◌*◌, nat_eq, nat_lt, cond, length, slice_index, Some};
ghost use Rattle.named_drawing.specs.Widths.{best_blank, byte_width, fits, is_among, width};
ghost use Rattle.named_drawing.specs.inner.Splits.{measured, narrower, turned};

/// The bytes of wide characters.
const WIDE: &[u8] = b"%@MWm";

/// The bytes of narrow characters.
const THIN: &[u8] = b" Ifijlrt!'(),-./:[\\]`{|}";

/// A place to part a text, and how wide the wider part is then.
#[derive(Clone, Copy, Debug)]
pub struct Split {
    /// The place of the byte that is left out.
    pub at: usize,
    /// How wide the wider part is.
    pub wider: u64,
}

/// How wide a byte is.
fn byte_width(byte: u8) -> u64
    ensures width { result ≡ byte_width byte }
    ensures limit { result ≤ 12 }
{
    if byte >= 0x80 && byte <= 0xBF {
        return 0;
    }
    if byte >= 0xE1 || WIDE.contains(&byte) {
        return 12;
    }
    if THIN.contains(&byte) {
        return 4;
    }
    8
}

/// How wide a text is.
pub(crate) fn width(text: &[u8]) -> u64
    requires { length text.now ≤ 64 }
    ensures width { result ≡ width text.now }
    ensures limit { result ≤ 768 }
{
    let mut sum = 0;
    for byte in text {
        sum += byte_width(*byte);
    }
    sum
}

/// Whether a text fits into a segment of this width.
pub(crate) fn fits(room: u64, text: &[u8]) -> bool
    requires { length text.now ≤ 64 }
    ensures { result ≡ fits room text.now }
{
    width(text) + 4 <= room
}

/// The better one of two splits, of which the second stands behind the first.
fn narrower(best: Option<Split>, next: Split) -> Split
    ensures { result ≡ narrower best next }
{
    match best {
        Some(split) if split.wider <= next.wider => split,
        _ => next,
    }
}

/// The best split so far, with one more byte gone over.
fn turned(best: Option<Split>, byte: u8, next: Split) -> Option<Split>
    ensures { result ≡ turned best byte next }
{
    if byte == b' ' {
        return Some(narrower(best, next));
    }
    best
}

/// The best split of a text.
fn best_split(text: &[u8]) -> Option<Split>
    requires { length text.now ≤ 64 }
    ensures { result ≡ measured text.now (best_blank text.now) }
{
    let mut best = None;
    let mut left = 0u64;
    let mut right = width(text);
    for (at, byte) in text.iter().enumerate() {
        let own = byte_width(*byte);
        right -= own;
        let wider = left.max(right);
        best = turned(best, *byte, Split { at, wider });
        left += own;
    }
    best
}

/// The blank around which the wider part of a text is least wide, the first of such.
pub(crate) fn best_blank(text: &[u8]) -> Option<usize>
    requires { length text.now ≤ 64 }
    ensures { result ≡ best_blank text.now }
{
    let split = best_split(text)?;
    Some(split.at)
}
