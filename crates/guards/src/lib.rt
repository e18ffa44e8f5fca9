// Whether the guard of a body line lets it run at an instance.

#![tactic(auto)]

ghost use Rattle.std.specs.Prelude.{◌≡◌};
ghost use Rattle.meaning.specs.Guards.{index_of, compares, admits};

use integers::V3;
use meaning::Line;

// The index of loop i at instance x.
fn index_of(i: u32, x: V3) -> i32
    ensures { result ≡ index_of i x }
{
    match i {
        0 => x.x,
        1 => x.y,
        _ => x.z,
    }
}

// How an index compares with a bound: always, equal, at most, at least.
fn compares(c: u32, v: i32, bound: i32) -> bool
    ensures { result ≡ compares c v bound }
{
    match c {
        0 => true,
        1 => v == bound,
        2 => v <= bound,
        _ => bound <= v,
    }
}

// Whether the guard of a line lets it run at instance x.
pub fn admits(l: Line, x: V3) -> bool
    ensures { result ≡ admits l x }
{
    compares(l.comparison, index_of(l.index, x), l.bound)
}
