// Vectors of small words, as the tests of Accept use them: dot and cross product, the image under a matrix, a vector some steps on, line
// and divisor of a matrix, and whether a vector leads back in the written order.

#![tactic(auto)]

ghost use Rattle.std.specs.Prelude.{◌≡◌, ◌≤◌, pos, ◌-ℤ◌, ◌*ℤ◌};
ghost use Rattle.integers.specs.Differences.{Abs};
ghost use Rattle.integers.specs.Vectors.{dot, cross, neg3, neg2, shift3, shift2, image};
ghost use Rattle.meaning.specs.Accept.{against};
ghost use Rattle.meaning.specs.Limits.{gauge_limits};
ghost use Rattle.meaning.specs.Loops.{turn, short_of, line_of, divisor};
ghost use Rattle.vectors.specs.Within.{Within, Rows, Within2};

use integers::{Matrix, V2, V3};
use lattice::Short;
use meaning::Nest;

// The last component of a cross product.
fn minor(u: V3, v: V3) -> i32
    requires { (Within 4 u) × (Within 4 v) }
    ensures { (result ≡ u.x *ℤ v.y -ℤ u.y *ℤ v.x) × (Abs result 32) }
{
    u.x * v.y - u.y * v.x
}

// The components one place on: (y, z, x).
fn rolled(u: V3) -> V3
    requires { Within 4 u }
    ensures { (result.x ≡ u.y) × (result.y ≡ u.z) × (result.z ≡ u.x) × (Within 4 result) }
{
    V3 {
        x: u.y,
        y: u.z,
        z: u.x,
    }
}

fn cross_of(u: V3, v: V3) -> V3
    requires { (Within 4 u) × (Within 4 v) }
    ensures { (result ≡ cross u v) × (Within 32 result) }
{
    let u1 = rolled(u);
    let v1 = rolled(v);
    V3 {
        x: minor(u1, v1),
        y: minor(rolled(u1), rolled(v1)),
        z: minor(u, v),
    }
}

pub fn dot_of(u: V3, v: V3) -> i32
    requires { (Within 8 u) × (Within 200 v) }
    ensures { (result ≡ dot u v) × (Abs result 4800) }
{
    u.x * v.x + u.y * v.y + u.z * v.z
}

pub fn image_of(m: Matrix, v: V3) -> V2
    requires { (Rows 8 m) × (Within 200 v) }
    ensures { (result ≡ image m v) × (Within2 4800 result) }
{
    V2 {
        a: dot_of(m.top, v),
        b: dot_of(m.low, v),
    }
}

pub fn negated(v: V3) -> V3
    requires { Within 200 v }
    ensures { (result ≡ neg3 v) × (Within 200 result) }
{
    V3 {
        x: -v.x,
        y: -v.y,
        z: -v.z,
    }
}

pub fn opposite(v: V2) -> V2
    requires { Within2 4800 v }
    ensures { (result ≡ neg2 v) × (Within2 4800 result) }
{
    V2 { a: -v.a, b: -v.b }
}

// The point that lies k times d on from x.
pub fn later(x: V3, d: V3, k: u32) -> V3
    requires { (Within 64 x) × (Within 200 d) × (k ≤ gauge_limits.instances) }
    ensures { result ≡ shift3 x (pos k) d }
{
    V3 {
        x: x.x + k as i32 * d.x,
        y: x.y + k as i32 * d.y,
        z: x.z + k as i32 * d.z,
    }
}

// The point that lies k times d on from p.
pub fn moved(p: V2, d: V2, k: u32) -> V2
    requires { (Within2 768 p) × (Within2 1 d) × (k ≤ 1536) }
    ensures { result ≡ shift2 p (pos k) d }
{
    V2 {
        a: p.a + k as i32 * d.a,
        b: p.b + k as i32 * d.b,
    }
}

// Turned so that its step is not negative.
fn turned(step: V3, v: V3) -> V3
    requires { (Within 8 step) × (Within 200 v) }
    ensures { (result ≡ turn step v) × (Within 200 result) }
{
    if dot_of(step, v) < 0 { negated(v) } else { v }
}

// The cross product of a matrix's rows shortened, and the divisor that was taken out.
fn short_of(m: Matrix) -> Short
    requires { Rows 4 m }
    ensures { (result ≡ short_of m) × (Within 200 result.vector) }
{
    lattice::shorten(cross_of(m.top, m.low))
}

// The line of a matrix, with the divisor that its shortening took out; place's is the increment.
pub fn line_of(n: Nest, m: Matrix) -> Short
    requires { (Within 8 n.step) × (Rows 4 m) }
    ensures { (result.vector ≡ line_of n m) × (Within 200 result.vector) × (result.divisor ≡ divisor m) }
{
    let short = short_of(m);
    Short {
        vector: turned(n.step, short.vector),
        divisor: short.divisor,
    }
}

// Whether the first non-zero component of v has the other sign than the direction of that loop.
pub fn against(direction: V3, v: V3) -> bool
    requires { (Within 1 direction) × (Within 200 v) }
    ensures { result ≡ against direction v }
{
    if v.x == 0 {
        if v.y == 0 {
            direction.z * v.z < 0
        } else {
            direction.y * v.y < 0
        }
    } else {
        direction.x * v.x < 0
    }
}
