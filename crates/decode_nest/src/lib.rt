// Words to vectors, matrices and the loops with their layout. What two loops lack is filled in, so that all that follows is about three.

#![tactic(auto)]

ghost use Rattle.std.specs.Prelude.{◌≡◌, cond, ◌≤◌, eqb, pos};
ghost use Rattle.integers.specs.Bytes.{word_at};
ghost use Rattle.meaning.specs.Description.{vector_at, unit3, matrix_at, nest_of, loading_of};

use integers::{Matrix, V2, V3};
use meaning::{Nest, Sizes};

// The last word of r, word k; pad where the loops are two.
fn last(s: &[u8], z: Sizes, k: u32, pad: i32) -> i32
    ensures { result ≡ cond (eqb z.loops 2) pad (word_at s.now k) }
{
    if z.loops == 2 {
        pad
    } else {
        integers::word_at(s, k)
    }
}

// The vector from word k on.
fn vector(s: &[u8], z: Sizes, k: u32, pad: i32) -> V3
    requires { k ≤ 200 }
    ensures { result ≡ vector_at s.now z k pad }
{
    V3 {
        x: integers::word_at(s, k),
        y: integers::word_at(s, k + 1),
        z: last(s, z, k + 2, pad),
    }
}

// The second row of a matrix, from word k on.
fn low_row(s: &[u8], z: Sizes, k: u32) -> V3
    requires { k ≤ 200 }
    ensures { result ≡ cond (eqb z.loops 2) unit3 (vector_at s.now z k (pos 0)) }
{
    if z.loops == 2 {
        V3 { x: 0, y: 0, z: 1 }
    } else {
        vector(s, z, k, 0)
    }
}

// The matrix from word k on.
pub fn matrix(s: &[u8], z: Sizes, k: u32) -> Matrix
    requires { k ≤ 101 }
    ensures { result ≡ matrix_at s.now z k }
{
    Matrix {
        top: vector(s, z, k, 0),
        low: low_row(s, z, k + 3),
    }
}

// The loading vector from word k on.
pub fn loading(s: &[u8], z: Sizes, k: u32) -> V2
    requires { k ≤ 101 }
    ensures { result ≡ loading_of s.now z k }
{
    V2 {
        a: integers::word_at(s, k),
        b: last(s, z, k + 1, 0),
    }
}

// The loops with their layout.
pub fn nest(s: &[u8], z: Sizes) -> Nest
    requires { z.loops ≤ 3 }
    ensures { result ≡ nest_of s.now z }
{
    let r = z.loops;
    let right = 3 + r;
    let direction = right + r;
    let step = direction + r;
    Nest {
        left: vector(s, z, 3, 0),
        right: vector(s, z, right, 0),
        direction: vector(s, z, direction, 1),
        step: vector(s, z, step, 0),
        place: matrix(s, z, step + r),
    }
}
