// The walk by process of request 2.4, as words: the instances process by process in row order, along each process's own line from first to
// last. The words of an instance are its three coordinates, which lie within 64 and so in 8 bits.
//
// specs/, by file:
//
//   Words     instances as words of 8 bits, and lines of them stored one after the other
//   Walked    what the words of a walk say: `Walked`; the walk stored process by process

#![tactic(auto)]

ghost use Rattle.std.specs.Prelude.{◌+◌, ◌*◌, ◌<◌, ◌≡◌, length, pos};
ghost use Rattle.integers.specs.Vectors.{shift3};
ghost use Rattle.meaning.specs.Space.{count};
ghost use Rattle.geometry.specs.Processes.{run_at};
ghost use Rattle.vectors.specs.Within.{Within};
ghost use Rattle.layout.specs.Spans.{process_of};
ghost use Rattle.walk.specs.Words.{vector_at, put, Lined, Running};
ghost use Rattle.walk.specs.Walked.{Walked, Walking, Lining};

use integers::V3;
use meaning::{INSTANCES, Nest};
use survey::Ground;

// The words of a walk: three for each instance.
pub const WALK: usize = 3 * INSTANCES;

// Instance k of the words.
pub fn instance_at(walk: &[i8], k: usize) -> V3
    requires { 3 * k + 2 < length walk.now }
    ensures { result ≡ vector_at walk.now k }
{
    V3 {
        x: i32::from(walk[3 * k]),
        y: i32::from(walk[3 * k + 1]),
        z: i32::from(walk[3 * k + 2]),
    }
}

fn put_instance(walk: &mut [i8], k: usize, v: V3)
    requires { (3 * k + 2 < length walk.old) × (Within 64 v) }
    ensures { walk.new ≡ put walk.old k v }
{
    walk[3 * k] = v.x as i8;
    walk[3 * k + 1] = v.y as i8;
    walk[3 * k + 2] = v.z as i8;
}

// So many instances, from the first by the increment on, into the places from `from` on.
fn put_instances(first: V3, increment: V3, count: u32, from: usize, walk: &mut [i8])
    requires { Running first increment count from walk.old }
    ensures { Lined (λ k. shift3 first (pos k) increment) from count walk.old walk.new }
{
    for k in 0..count {
        put_instance(walk, from + k as usize, vectors::later(first, increment, k));
    }
}

// The line of process p, from first to last, into the places from `from` on, and the place behind it; a null process has none.
fn put_line(n: Nest, increment: V3, spans: &[u32], p: usize, from: usize, walk: &mut [i8]) -> usize
    requires { Lining n increment spans.now p from walk.old }
    ensures { (result ≡ from + count n (process_of n p))
        × (Lined (run_at n (process_of n p)) from (count n (process_of n p)) walk.old walk.new) }
{
    let count = spans[p];
    if count == 0 {
        return from;
    }
    put_instances(
        instances::first_of(n, spans, p),
        increment,
        count,
        from,
        walk,
    );
    from + count as usize
}

// The lines of all processes, in row order.
pub fn fill_walk(n: Nest, g: Ground, spans: &[u32], walk: &mut [i8])
    requires { Walking n g spans.now walk.old }
    ensures { Walked n walk.new }
{
    let mut from = 0;
    for p in 0..g.processes as usize {
        from = put_line(n, g.increment, spans, p, from, walk);
    }
}
