// The sums that `compare` and `loads` print in place of long lists: s := 1664525 s + w + 1013904223 modulo 2^32 over the words of a list. A
// sum tells lists apart that differ in one place.

#![tactic(auto)]

// The sum with one word more.
pub fn mix(sum: u32, word: u32) -> u32 {
    sum.wrapping_mul(1664525)
        .wrapping_add(word)
        .wrapping_add(1013904223)
}

// The sum goes on over words, or over bytes, each mixed as a word.
pub fn sum_of<T: Into<u32> + Copy>(sum: u32, words: &[T]) -> u32 {
    words.iter().fold(sum, |sum, word| mix(sum, (*word).into()))
}
