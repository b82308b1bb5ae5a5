//! Numbers by chance, from the words of a generator.
use rand_core::utils::NextWord;
use rand_pcg::Lcg64Xsh32;

/// A number below `k`, from the next word: its share of all words, times `k`, rounded down.
#[inline]
pub(crate) fn draw(random: &mut Lcg64Xsh32, k: u32) -> u32 {
    let word = u64::from(random.next_word());
    (word.wrapping_mul(u64::from(k)) / 4_294_967_296) as u32
}
