// What one pass over the instances leaves for each point of a box: how many instances have their image there, and which of them is met
// first and which last. All of it over the table of numbers that `counting::fill_numbers` leaves: of each instance, in the written
// order, the row number of its image.
//
// specs/, by file:
//
//   Sweep       a pass that changes, for each instance, the words of its point; `sweep-at`: what it leaves of each word
//   Met         instances counted, and the one met first or last, as the pass finds it
//   Turns       one turn of the pass; `swept`: what it leaves, point by point
//   Tables      document 01's words: `counts-are`, `firsts-are`, `Lasts-are`, `ends-absent`

#![tactic(auto)]

ghost use Rattle.std.specs.Prelude.{◌≡◌, ◌+◌, ◌^◌, ◌≤◌, ◌<◌, length, get_or, take};
ghost use Rattle.integers.specs.Fill.{fill_by};
ghost use Rattle.sweeps.specs.Sweep.{Listed};
ghost use Rattle.sweeps.specs.Met.{met};
ghost use Rattle.sweeps.specs.Turns.{turn, Turning, Sweepable, Swept};

use meaning::PROCESSES;

// The words of the points: their counts, then their first and then their last instances.
pub const FIRSTS: usize = PROCESSES;

pub const LASTS: usize = 2 * PROCESSES;

pub const SPANS: usize = 3 * PROCESSES;

const ALL: u32 = SPANS as u32;

// Zero in each of the first words.
pub fn clear(points: u32, out: &mut [u32])
    requires { points ≤ length out.old }
    ensures { out.new ≡ fill_by (λ p. 0) points out.old }
{
    for p in 0..points {
        out[p as usize] = 0;
    }
}

// The number of the point of instance k.
fn point_of(numbers: &[u32], instances: u32, points: u32, k: u32) -> usize
    requires { (Listed numbers.now instances points) × (k < instances) }
    ensures { (result ≡ get_or (take instances numbers.now) k 0) × (result < points) }
{
    numbers[k as usize] as usize
}

// Instance k, by its number plus one, as the one met last, or, if none was before it, as the one met first; 0 is none.
fn met(last: bool, k: u32, old: u32) -> u32
    requires { k + 1 < 2 ^ 32 }
    ensures { result ≡ met last k old }
{
    if last || old == 0 { k + 1 } else { old }
}

// Instance k is met at point p.
fn meet(back: bool, k: u32, p: usize, spans: &mut [u32])
    requires { Turning k p spans.old }
    ensures { spans.new ≡ turn back k p spans.old }
{
    spans[p] += 1;
    spans[FIRSTS + p] = met(back, k, spans[FIRSTS + p]);
    spans[LASTS + p] = met(!back, k, spans[LASTS + p]);
}

// Of each point how many instances it has, and, by their numbers plus one, the ones met first and last, or last and first if the line that
// they lie on leads back in the written order; 0 where there is none.
pub fn fill_spans(numbers: &[u32], instances: u32, back: bool, points: u32, spans: &mut [u32])
    requires { Sweepable numbers.now instances points spans.old }
    ensures { Swept numbers.now instances back points spans.new }
{
    clear(ALL, spans);
    for k in 0..instances {
        let p = point_of(numbers, instances, points, k);
        meet(back, k, p, spans);
    }
}
