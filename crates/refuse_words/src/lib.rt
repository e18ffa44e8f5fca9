// Document 01's refusals 1 to 5: lengths, sizes, ranges and bounds of the words of a description, whose tests are in `word_ranges`. The
// definitions of the stages, and what a refusal of 0 leaves, stand with the parts of a description in `decode`.

#![tactic(auto)]

ghost use Rattle.std.specs.Prelude.{◌≡◌};
ghost use Rattle.integers.specs.Bytes.{word_at};
ghost use Rattle.meaning.specs.Tests.{refusal};
ghost use Rattle.meaning.specs.Description.{in_range, refused4};
ghost use Rattle.decode.specs.Refusals.{word_tests, first_tests};
ghost use Rattle.refusals.specs.Numbers.{refusal_number};

use decode::FitSizes;
use refusals::Refusal;

// Whether word k is in its range.
fn in_range(s: &[u8], z: FitSizes, k: u32) -> bool
    ensures { result ≡ in_range z.sizes k (word_at s.now k) }
{
    word_ranges::in_range(z, k, integers::word_at(s, k))
}

// Refusal 4: a word out of range.
fn word_refused(s: &[u8], z: FitSizes) -> bool
    ensures { result ≡ refused4 s.now z.sizes }
{
    for k in 3..z.words() {
        if !in_range(s, z, k) {
            return true;
        }
    }
    false
}

// The first of the refusals 4 and 5 that applies.
fn refusal_of_words(s: &[u8], z: FitSizes) -> Result<(), Refusal>
    ensures { refusal_number result ≡ refusal (word_tests s.now z.sizes) }
{
    if word_refused(s, z) {
        return Err(Refusal::Range);
    }
    if word_ranges::bound_refused(decode_nest::nest(s, z.sizes)) {
        return Err(Refusal::Bounds);
    }
    Ok(())
}

// The first of the refusals 1 to 5 that applies.
pub fn refusal(s: &[u8]) -> Result<(), Refusal>
    ensures { refusal_number result ≡ refusal (first_tests s.now) }
{
    if s.len() < 12 {
        return Err(Refusal::Bytes);
    }
    let Some(z) = word_ranges::fit(decode::sizes(s)) else {
        return Err(Refusal::Sizes);
    };
    if s.len() != 4 * z.words() as usize {
        return Err(Refusal::Length);
    }
    refusal_of_words(s, z)
}
