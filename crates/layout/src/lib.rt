// Points and processes by number: the point of a row number, how far one can go on from a point in a box, and of each process its count,
// its first and its last instance.
//
// specs/, by file:
//
//   Rays      how often one can go on is the least that either coordinate allows
//   Points    the point of a row number; points moved on
//   Parts     what stands where a part of a list was replaced
//   Codes     the coordinates of an instance in one word
//   Spans     what the words say of the processes: `Spans`

#![tactic(auto)]

ghost use Rattle.std.specs.Prelude.{◌≡◌, ℕ, ◌+◌, ◌≤◌, ◌<◌, ◌/◌, length, get_or};
ghost use Rattle.meaning.specs.Limits.{gauge_limits};
ghost use Rattle.integers.specs.Fill.{fill_by};
ghost use Rattle.integers.specs.Vectors.{zero2};
ghost use Rattle.meaning.specs.Loops.{instances};
ghost use Rattle.meaning.specs.Space.{points, processes};
ghost use Rattle.meaning.specs.Pipes.{reach};
ghost use Rattle.geometry.specs.Processes.{Layout};
ghost use Rattle.vectors.specs.Within.{Within, Within2};
ghost use Rattle.numbering.specs.Ranges.{Bounded};
ghost use Rattle.numbering.specs.Extents.{Spanning, boxed};
ghost use Rattle.survey.specs.Surveys.{GroundOf};
ghost use Rattle.layout.specs.Rays.{room_of, Along, Going};
ghost use Rattle.layout.specs.Points.{next_point};
ghost use Rattle.layout.specs.Codes.{code_of, coded};
ghost use Rattle.layout.specs.Spans.{Spans, span_words, numbered};

use integers::{V2, V3};
use meaning::{INSTANCES, Nest};
use numbering::Extent;
use survey::Ground;

// The words of the processes: their counts, then their first and then their last instances.
const FIRSTS: usize = sweeps::FIRSTS;

pub const LASTS: usize = sweeps::LASTS;

pub const SPANS: usize = sweeps::SPANS;

// A code's digits are to this base, and each is a coordinate counted from the least that there is.
const BASE: u32 = 256;

const LEAST: i32 = -64;

// One coordinate of a box, of a point in it and of the way on from there.
#[derive(Clone, Copy)]
struct Ray {
    lo: i32,
    hi: i32,
    at: i32,
    by: i32,
}

fn ray_of(lo: i32, hi: i32, at: i32, by: i32) -> Ray
    ensures { result ≡ record { lo = lo; hi = hi; at = at; by = by } }
{
    Ray { lo, hi, at, by }
}

// How many steps of a size a way has in it; most are of one, and then there is nothing to divide.
fn steps_in(way: u32, size: u32) -> u32
    requires { 0 < size }
    ensures { result ≡ way / size }
{
    if size == 1 { way } else { way / size }
}

// How often one coordinate allows to go on; 4,096 where it does not change, more than any box is wide.
fn room(r: Ray) -> u32
    requires { Along r }
    ensures { result ≡ room_of r }
{
    if r.by == 0 {
        return 4096;
    }
    let steps = integers::magnitude(r.by);
    if r.by < 0 {
        steps_in(numbering::distance(r.lo, r.at), steps)
    } else {
        steps_in(numbering::distance(r.at, r.hi), steps)
    }
}

// How often one can go on from p by d without leaving a box.
pub fn reach_of(e: Extent, d: V2, p: V2) -> u32
    requires { Going (boxed e) d p }
    ensures { (result ≡ reach (boxed e) d p) × (result ≤ 1536) }
{
    let a = room(ray_of(e.lo.a, e.hi.a, p.a, d.a));
    let b = room(ray_of(e.lo.b, e.hi.b, p.b, d.b));
    a.min(b)
}

// The point of a row number.
pub fn point_at(e: Extent, p: u32) -> V2
    requires { (Spanning (boxed e)) × (p < length (points (boxed e))) }
    ensures { result ≡ get_or (points (boxed e)) p zero2 }
{
    let columns = numbering::distance(e.lo.b, e.hi.b) + 1;
    V2 {
        a: e.lo.a + (p / columns) as i32,
        b: e.lo.b + (p % columns) as i32,
    }
}

// The point after y in row order; after the last one it is no point of the box.
pub fn next_point(e: Extent, y: V2) -> V2
    requires { (Spanning (boxed e)) × (Within2 768 y) }
    ensures { result ≡ next_point (boxed e) y }
{
    if y.b == e.hi.b {
        V2 {
            a: y.a + 1,
            b: e.lo.b,
        }
    } else {
        V2 { a: y.a, b: y.b + 1 }
    }
}

// The instance of a number plus one, zero for none.
pub fn instance_numbered(n: Nest, k: u32) -> V3
    requires { (Bounded n) × (k ≤ length (instances n)) }
    ensures { (result ≡ numbered n k) × (Within 64 result) }
{
    if k == 0 {
        V3 { x: 0, y: 0, z: 0 }
    } else {
        numbering::instance(n, k - 1)
    }
}

// The coordinates of an instance in one word.
fn code_of(x: V3) -> u32
    requires { Within 64 x }
    ensures { result ≡ code_of x }
{
    (numbering::distance(LEAST, x.x) * BASE + numbering::distance(LEAST, x.y)) * BASE
        + numbering::distance(LEAST, x.z)
}

// The coordinates that a word holds.
fn instance_coded(w: u32) -> V3
    ensures { result ≡ coded w }
{
    V3 {
        x: (w / BASE / BASE) as i32 + LEAST,
        y: (w / BASE % BASE) as i32 + LEAST,
        z: (w % BASE) as i32 + LEAST,
    }
}

// The first instance of process p, zero for none.
pub fn first_at(spans: &[u32], p: usize) -> V3
    requires { gauge_limits.processes + p < length spans.now }
    ensures { result ≡ coded (get_or spans.now (gauge_limits.processes + p) 0) }
{
    instance_coded(spans[FIRSTS + p])
}

// The first instances of the processes, in place of their numbers plus one, so that nobody divides for them again.
fn fill_firsts(n: Nest, processes: u32, firsts: &mut [u32])
    requires { (Bounded n) × (processes ≤ length firsts.old)
        × ((p : ℕ) → p < processes → get_or firsts.old p 0 ≤ length (instances n)) }
    ensures { firsts.new
        ≡ fill_by (λ p. code_of (numbered n (get_or firsts.old p 0))) processes firsts.old }
{
    for p in 0..processes as usize {
        firsts[p] = code_of(instance_numbered(n, firsts[p]));
    }
}

// Of each process its count, its first and its last instance.
pub fn fill_processes(n: Nest, g: Ground, spans: &mut [u32])
    requires { (Bounded n) × (GroundOf n g) × (Layout n) × (length (instances n) ≤ gauge_limits.instances)
        × (length (processes n) ≤ gauge_limits.processes) × (length spans.old ≡ span_words) }
    ensures { Spans n spans.new }
{
    let back = vectors::against(n.direction, g.increment);
    let mut numbers = [0u32; INSTANCES];
    counting::fill_numbers(n, n.place, g.space, &mut numbers);
    sweeps::fill_spans(&numbers, g.instances, back, g.processes, spans);
    fill_firsts(n, g.processes, &mut spans[FIRSTS..LASTS]);
}
