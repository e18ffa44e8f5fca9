// The instances by their number in the written order, the box around their images under a matrix, and the number of a point of a box in row
// order: for place that of a process, for an index map that of an element.
//
// specs/, by file:
//
//   Ranges      what the range tests leave of a nest and of one loop, and the numbers that then fit
//   Turns       an instance by how often each loop has turned; `instances-length`, `instance-is`
//   Corners     a row is least and greatest at corners of the bounds: `box-corners`
//   Extents     the bounds of the box around the images: `box-spanning`

#![tactic(auto)]

ghost use Rattle.std.specs.Prelude.{◌≡◌, ◌≤◌, ◌<◌, pos, ◌-ℤ◌, length, get_or};
ghost use Rattle.integers.specs.Differences.{Abs, up};
ghost use Rattle.integers.specs.Vectors.{zero3, dot};
ghost use Rattle.meaning.specs.Loops.{instances};
ghost use Rattle.meaning.specs.Space.{points, row_index, box_of};
ghost use Rattle.meaning.specs.Points.{Inside};
ghost use Rattle.vectors.specs.Within.{Within, Rows};
ghost use Rattle.numbering.specs.Ranges.{Bounded, Ranged, Apart, turns, values, outer_of, middle_of, inner_of};
ghost use Rattle.numbering.specs.Turns.{Turned, turns_of};
ghost use Rattle.numbering.specs.Corners.{end_of, corner_of};
ghost use Rattle.numbering.specs.Extents.{Spanning, boxed};

use integers::{Matrix, V2, V3};
use meaning::Nest;

// One loop of a nest.
#[derive(Clone, Copy)]
pub struct Loop {
    pub left: i32,
    pub right: i32,
    pub direction: i32,
}

// How often each loop turns, or has turned.
#[derive(Clone, Copy)]
pub struct Turns {
    pub outer: u32,
    pub middle: u32,
    pub inner: u32,
}

// The least and the greatest corner of a box.
#[derive(Clone, Copy)]
pub struct Extent {
    pub lo: V2,
    pub hi: V2,
}

// How far b lies above a.
pub fn distance(a: i32, b: i32) -> u32
    requires { Apart a b }
    ensures { (result ≡ up (b -ℤ a)) × (result ≤ 1536) }
{
    (b - a) as u32
}

// A loop of its bounds and direction.
fn loop_of(left: i32, right: i32, direction: i32) -> Loop
    ensures { result ≡ record { left = left; right = right; direction = direction } }
{
    Loop {
        left,
        right,
        direction,
    }
}

// How often a loop turns.
fn turn_count(l: Loop) -> u32
    requires { Ranged l }
    ensures { result ≡ turns l }
{
    distance(l.left, l.right) + 1
}

// The value of a loop after i turns.
fn value_after(l: Loop, i: u32) -> i32
    requires { (Ranged l) × (i < turns l) }
    ensures { result ≡ get_or (values l) i (pos 0) }
{
    if l.direction < 0 {
        l.right - i as i32
    } else {
        l.left + i as i32
    }
}

// The turns of all loops.
pub fn turns_of(n: Nest) -> Turns
    requires { Bounded n }
    ensures { result ≡ turns_of n }
{
    Turns {
        outer: turn_count(loop_of(n.left.x, n.right.x, n.direction.x)),
        middle: turn_count(loop_of(n.left.y, n.right.y, n.direction.y)),
        inner: turn_count(loop_of(n.left.z, n.right.z, n.direction.z)),
    }
}

// How often each loop has turned before instance k.
fn turns_before(n: Nest, k: u32) -> Turns
    requires { (Bounded n) × (k < length (instances n)) }
    ensures { Turned n k result }
{
    let t = turns_of(n);
    let plane = t.middle * t.inner;
    let rest = k % plane;
    Turns {
        outer: k / plane,
        middle: rest / t.inner,
        inner: rest % t.inner,
    }
}

// The number of instances.
pub fn instance_count(n: Nest) -> u32
    requires { Bounded n }
    ensures { (result ≡ length (instances n)) × (0 < result) × (result ≤ 2146689) }
{
    let t = turns_of(n);
    t.outer * (t.middle * t.inner)
}

// Instance k in the written order.
pub fn instance(n: Nest, k: u32) -> V3
    requires { (Bounded n) × (k < length (instances n)) }
    ensures { (result ≡ get_or (instances n) k zero3) × (Within 64 result) }
{
    let t = turns_before(n, k);
    V3 {
        x: value_after(loop_of(n.left.x, n.right.x, n.direction.x), t.outer),
        y: value_after(loop_of(n.left.y, n.right.y, n.direction.y), t.middle),
        z: value_after(loop_of(n.left.z, n.right.z, n.direction.z), t.inner),
    }
}

// The end of a loop's bounds at which so many times it is least; with the ends exchanged, greatest.
fn end_of(weight: i32, from: i32, to: i32) -> i32
    requires { (Abs from 64) × (Abs to 64) }
    ensures { (result ≡ end_of weight from to) × (Abs result 64) }
{
    if weight < 0 { to } else { from }
}

// The corner of the bounds at which a row is least; with the bounds exchanged, greatest. The directions' is where the loops begin, and end.
pub fn corner(row: V3, from: V3, to: V3) -> V3
    requires { (Within 4 row) × (Within 64 from) × (Within 64 to) }
    ensures { (result ≡ corner_of row from to) × (Within 64 result) }
{
    V3 {
        x: end_of(row.x, from.x, to.x),
        y: end_of(row.y, from.y, to.y),
        z: end_of(row.z, from.z, to.z),
    }
}

// The least value of a row over the bounds; with the bounds exchanged, the greatest.
fn outermost(row: V3, from: V3, to: V3) -> i32
    requires { (Within 4 row) × (Within 64 from) × (Within 64 to) }
    ensures { result ≡ dot row (corner_of row from to) }
{
    vectors::dot_of(row, corner(row, from, to))
}

// The smallest box around the images of all instances: the process space for place, a stream's box for its index map.
pub fn extent_of(n: Nest, m: Matrix) -> Extent
    requires { (Bounded n) × (Rows 4 m) }
    ensures { (boxed result ≡ box_of n m) × (Spanning (boxed result)) }
{
    Extent {
        lo: V2 {
            a: outermost(m.top, n.left, n.right),
            b: outermost(m.low, n.left, n.right),
        },
        hi: V2 {
            a: outermost(m.top, n.right, n.left),
            b: outermost(m.low, n.right, n.left),
        },
    }
}

// The number of a box's points.
pub fn size_of(e: Extent) -> u32
    requires { Spanning (boxed e) }
    ensures { (result ≡ length (points (boxed e))) × (result ≤ 2362369) }
{
    (distance(e.lo.a, e.hi.a) + 1) * (distance(e.lo.b, e.hi.b) + 1)
}

// The number of a point of a box in row order.
pub fn row_number(e: Extent, p: V2) -> u32
    requires { (Spanning (boxed e)) × (Inside (boxed e) p) }
    ensures { result ≡ row_index (boxed e) p }
{
    distance(e.lo.a, p.a) * (distance(e.lo.b, e.hi.b) + 1) + distance(e.lo.b, p.b)
}
