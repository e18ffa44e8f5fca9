// The sixteen ready words of document 01's call Ready: process p is bit p modulo 64, lowest bit 0, of word p divided by 64.
//
// A caller clears the words, marks each process that can move, in ascending order, and asks how many and the lowest:
//
//   Numbers           tests of consecutive numbers, as the list of their outcomes
//   Word              a word as the list of its bits: one set, turned over or asked for, the set ones counted, the lowest found
//   Tested            a word of a test, whose bits are the outcomes of 64 numbers
//   Words             the sixteen words of a test; what clear, mark, count and lowest do to words
//   Ready             the caller's loop, marked_to, with the laws for its invariant; its words, count and lowest are those of the call

#![tactic(auto)]

ghost use Rattle.std.specs.Prelude.{◌≡◌, ◌<◌, ◌≤◌, length, take};
ghost use Rattle.meaning.specs.Limits.{gauge_limits};
ghost use Rattle.bits.specs.Words.{cleared, marked, ones_of, lowest_from};

const WORDS: usize = 16;

// Clears the first sixteen words; those beyond stay.
pub fn clear(words: &mut [u64])
    requires { 16 ≤ length words.old }
    ensures { words.new ≡ cleared words.old }
{
    words[..WORDS].fill(0);
}

// Sets the bit of process p.
pub fn mark(words: &mut [u64], p: u32)
    requires { (16 ≤ length words.old) × (p < gauge_limits.processes) }
    ensures { words.new ≡ marked words.old p }
{
    words[(p / 64) as usize] |= 1 << (p % 64);
}

// How many bits are set.
pub fn count(words: &[u64]) -> u32
    requires { 16 ≤ length words.now }
    ensures { result ≡ ones_of (take 16 words.now) }
{
    let mut n = 0;
    for w in &words[..WORDS] {
        n += w.count_ones();
    }
    n
}

// The lowest process whose bit is set, or `none`.
pub fn lowest(words: &[u64], none: u32) -> u32
    requires { 16 ≤ length words.now }
    ensures { result ≡ lowest_from none 0 (take 16 words.now) }
{
    for (k, w) in words[..WORDS].iter().enumerate() {
        if *w != 0 {
            return 64 * k as u32 + w.trailing_zeros();
        }
    }
    none
}
