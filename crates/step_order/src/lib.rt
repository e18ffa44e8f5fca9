// Run's order of steps: sends by pipe, then by process takes by stream, fire, gives by stream, then receives. A step's rank is its place in
// that order.
//
// specs/, by file:
//
//   Ranks     the step of a rank, and the rank of a step
//   Steps     the step of each step's rank, as `take_step`; there are no other ranks
//
// proofs/, by file:
//
//   Steps     a rank's step is inside the array: `step_inside`, and has no other rank: `rank_apart`
//   Order     the steps of the ranks are Run's order: `in_order_lem`, and the lowest ready step is that of the lowest rank: `lowest_some`,
//             `lowest_none`

#![tactic(auto)]

ghost use Rattle.std.specs.Prelude.{◌≡◌, ◌≤◌, ◌<◌};
ghost use Rattle.step_order.specs.Ranks.{Sized, rank_count, step_at, process_step, take_rank, fire_rank, give_rank};

use meaning::Step;
use port_table::Size;

// How many steps have a rank.
pub fn count(z: Size) -> usize
    requires { Sized z }
    ensures { (result ≡ rank_count z) × (result ≤ 25600) }
{
    2 * z.pipes + z.processes * (2 * z.streams + 1)
}

// The step of process p that stands at place o of its steps.
fn process_step(z: Size, p: usize, o: usize) -> Step
    requires { Sized z }
    ensures { result ≡ process_step z p o }
{
    if o < z.streams {
        Step::Take(p, o)
    } else if o == z.streams {
        Step::Fire(p)
    } else {
        Step::Give(p, o - z.streams - 1)
    }
}

// The step of rank r.
pub fn step_of(z: Size, r: usize) -> Step
    requires { (Sized z) × (r < rank_count z) }
    ensures { result ≡ step_at z r }
{
    if r < z.pipes {
        return Step::Send(r);
    }
    let width = 2 * z.streams + 1;
    let k = r - z.pipes;
    if k < z.processes * width {
        process_step(z, k / width, k % width)
    } else {
        Step::Receive(k - z.processes * width)
    }
}

// The rank of a take, of a fire and of a give.
pub fn take_rank(z: Size, p: usize, i: usize) -> usize
    requires { (Sized z) × (p < z.processes) × (i < z.streams) }
    ensures { (result ≡ take_rank z p i) × (result < rank_count z) }
{
    z.pipes + p * (2 * z.streams + 1) + i
}

pub fn fire_rank(z: Size, p: usize) -> usize
    requires { (Sized z) × (p < z.processes) }
    ensures { (result ≡ fire_rank z p) × (result < rank_count z) }
{
    z.pipes + p * (2 * z.streams + 1) + z.streams
}

pub fn give_rank(z: Size, p: usize, i: usize) -> usize
    requires { (Sized z) × (p < z.processes) × (i < z.streams) }
    ensures { (result ≡ give_rank z p i) × (result < rank_count z) }
{
    z.pipes + p * (2 * z.streams + 1) + z.streams + 1 + i
}
