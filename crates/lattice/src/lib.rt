// Euclid's rule, and the rule that shortens a vector by the greatest common divisor of its components. specs/Lattice has what the shortened
// cross product of two rows means: the shortest whole vector that both send to zero; specs/Values what its divisor means: how far apart the
// values of the two rows lie; specs/Independence what a cross product of zero means.

#![tactic(auto)]

ghost use Rattle.std.specs.Prelude.{◌≡◌, ◌≤◌, ◌^◌, pos, neg_ℤ};
ghost use Rattle.std.specs.Int.Signed.{quot_z};
ghost use Rattle.lattice.specs.Gcd.{gcd_of};
ghost use Rattle.lattice.specs.Shorten.{divisor_of, Shortens};

use integers::V3;

// A vector divided by the greatest common divisor of its components, and that divisor. The zero vector stays, with divisor 0.
#[derive(Clone, Copy)]
pub struct Short {
    pub vector: V3,
    pub divisor: u32,
}

// The greatest common divisor, by Euclid's rule.
pub fn gcd(a: u32, b: u32) -> u32
    ensures { result ≡ gcd_of a b }
{
    if b == 0 { a } else { gcd(b, a % b) }
}

// The greatest common divisor of a vector's components.
fn divisor(v: V3) -> u32
    ensures { result ≡ divisor_of v }
{
    gcd(
        integers::magnitude(v.x),
        gcd(integers::magnitude(v.y), integers::magnitude(v.z)),
    )
}

// −q, also where q itself does not fit an i32.
fn negative(q: u32) -> i32
    requires { q ≤ 2 ^ 31 }
    ensures { result ≡ neg_ℤ (pos q) }
{
    if q == 0 {
        0
    } else {
        integers::signed(0xffff_ffff - (q - 1))
    }
}

// x divided by d, towards zero; 0 where d is 0.
fn quotient(x: i32, d: u32) -> i32
    ensures { result ≡ quot_z x (pos d) }
{
    if d == 0 {
        return 0;
    }
    let q = integers::magnitude(x) / d;
    if x < 0 { negative(q) } else { q as i32 }
}

// The shortening rule: the shortened vector times its divisor is the vector, and the divisor is the greatest common one.
pub fn shorten(v: V3) -> Short
    ensures { Shortens v result }
{
    let d = divisor(v);
    Short {
        vector: V3 {
            x: quotient(v.x, d),
            y: quotient(v.y, d),
            z: quotient(v.z, d),
        },
        divisor: d,
    }
}
