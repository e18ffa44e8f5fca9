// Vectors of whole numbers, and the toolkit in specs/ with which every other crate proves facts about them.
//
// A guide to the toolkit, by what is to be proved:
//
//   an identity of numbers        f = ring 0 3 _ λ ρ. simp quotes (solve ρ _ _ tt)             three numbers; Ring
//   an identity of vectors        f = ring 2 1 _ λ ρ. simp quotes (solve3 (solve ρ _ _ tt) (solve ρ _ _ tt) (solve ρ _ _ tt))
//   with literals                 simp (quotes, literal ρ) (..)
//   from equations h, k           λ h k. solve-by _ _ (given (var 2) h also given (minus (var 0)) k) tt      h times variable 2, ..
//   a linear fact                 f = linear 0 3 _ λ p m. simp gaps (omega arith)              hypotheses left of → included; Variables
//   with |z| or a size            simp (gaps, parts) (omega arith)                             Differences
//   in the middle of a proof      omega (arith, zrules, sum-is a b)                            reads ≤ℤ, <ℤ and ≡ among the hypotheses
//   products in an inequality     mul-less, mul-reflects                                       Order
//   cancelling                    cancel, cancel-zero                                          Order
//   i w + w ≤ m w, where i < m    part; parts-apart                                            Order
//   |x y| ≤ m n, |x + y| ≤ m + n  Abs-mul, Abs-add, Abs-neg, Abs-sub, Abs-wider                Bounds
//   an i32 operation fits         fits tt (mul (at tt h) (at tt k)), with h : Abs x 64, ..     Words
//   what an i32 expression is     (box tt (mul (at tt h) (at tt k))) .eq                       Words
//   what a comparison said        less-of, not-less-of, eq-test                                Words
//   a call's i32 result           held (c .f .ok) (c .f .ensures)                              Words
//   a loop that stores            fill_by; fill-step in the invariant, fill-done at the end     Fill
//
// In `ring n k` and `linear n k` the first n variables are vectors, the next k numbers; n and k are literals. A ring identity has any size;
// a linear fact has at most 64 terms once multiplied out. Examples has one of each.

#![tactic(auto)]

ghost use Rattle.std.specs.Prelude.{◌≡◌, ◌<◌, nat_abs, get_or};
ghost use Rattle.std.specs.Int.{w32};
ghost use Rattle.std.proofs.Common.{to_z, of_z};
ghost use Rattle.integers.specs.Bytes.{bits_at, word_at};

// Three whole components: an instance of the loops, or the difference of two.
#[derive(Clone, Copy)]
pub struct V3 {
    pub x: i32,
    pub y: i32,
    pub z: i32,
}

// Two: a place, or an element of a stream.
#[derive(Clone, Copy)]
pub struct V2 {
    pub a: i32,
    pub b: i32,
}

// Two rows of three: place, or a stream's index map.
#[derive(Clone, Copy)]
pub struct Matrix {
    pub top: V3,
    pub low: V3,
}

// The absolute value; that of the least i32 fits too. Kept beside `unsigned_abs`, since the edit magnitude_off_by_one is of it.
pub fn magnitude(a: i32) -> u32
    ensures { result ≡ nat_abs a }
{
    a.unsigned_abs()
}

// The signed number of 32 bits. Kept beside `cast_signed`: `Bytes.word_at` of specs/ is said by its contract.
pub fn signed(u: u32) -> i32
    ensures { result ≡ to_z w32 u }
{
    u.cast_signed()
}

// The 32 bits of a signed number. Kept beside `cast_unsigned`, since the edit negative_one_too_low is of it.
pub fn bits_of(z: i32) -> u32
    ensures { result ≡ of_z w32 z }
{
    z.cast_unsigned()
}

// Byte i, and 0 past the end.
pub fn byte_at(s: &[u8], i: usize) -> u32
    ensures { (result ≡ get_or s.now i 0) × (result < 256) }
{
    if i < s.len() { u32::from(s[i]) } else { 0 }
}

// Word k, least byte first: its bits.
pub fn bits_at(s: &[u8], k: u32) -> u32
    ensures { result ≡ bits_at s.now k }
{
    let i = 4 * k as usize;
    byte_at(s, i)
        + 256 * byte_at(s, i + 1)
        + 65536 * byte_at(s, i + 2)
        + 16777216 * byte_at(s, i + 3)
}

// And the signed number.
pub fn word_at(s: &[u8], k: u32) -> i32
    ensures { result ≡ word_at s.now k }
{
    signed(bits_at(s, k))
}
