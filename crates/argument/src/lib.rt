// The words that a program is told by its arguments, as decimal numerals. An argument that is no numeral of a word is 4,294,967,295, as is
// one that is missing.

#![tactic(auto)]

ghost use Rattle.std.specs.Prelude.{◌≡◌};
ghost use Rattle.argument.specs.Numeral.{with_digit, value_of, numeral_of};

use std::env::{Env, FillError};

// The value with one character more.
fn with_digit(value: u32, c: u8) -> u32
    ensures { result ≡ with_digit value c }
{
    match c {
        b'0'..=b'9' => value.saturating_mul(10).saturating_add(u32::from(c - b'0')),
        _ => u32::MAX,
    }
}

// The value of characters, of none 0.
fn value_of(digits: &[u8]) -> u32
    ensures { result ≡ value_of 0 digits.now }
{
    digits
        .iter()
        .fold(0, |value, digit| with_digit(value, *digit))
}

// The word that characters are the numeral of.
pub fn numeral_of(digits: &[u8]) -> u32
    ensures { result ≡ numeral_of digits.now }
{
    if digits.is_empty() {
        u32::MAX
    } else {
        value_of(digits)
    }
}

// The word of argument i.
pub fn word_argument(rt: &impl Env, i: usize) -> u32 {
    let mut digits = [0u8; 10];
    match rt.arg(i, &mut digits) {
        Ok(n) => numeral_of(&digits[..n]),
        Err(_) => u32::MAX,
    }
}

// The board of argument i, request 2.9; the gauge, 0, where there is none.
pub fn board(rt: &impl Env, i: usize) -> u32 {
    if matches!(rt.arg(i, &mut []), Err(FillError::NotPresent)) {
        return 0;
    }
    word_argument(rt, i)
}
