// The walk by process of a description: its bytes on standard input; on standard output how many processes and instances there are, then a
// line for each instance as the walk comes to it, with its process's point (y), its step (t) and itself (x), or `refused` and the number,
// 33 or 1 to 10. The first argument names the board, 0 gauge or 1 bench; without one it is the gauge. It reads up to 65,536 bytes, more
// than any description has.

#![tactic(auto)]

ghost use Rattle.vectors.specs.Within.{Within};
ghost use Rattle.numbering.specs.Ranges.{Bounded};
ghost use Rattle.walk.specs.Walked.{Along, Readable};

use integers::V3;
use layout::SPANS;
use meaning::Nest;
use std::io;
use survey::Survey;
use text::{Instance, Point};
use walk::WALK;

fn print_visit(rt: &impl Print, n: Nest, x: V3, loops: u32) -> io::Result<()>
    requires { (Bounded n) × (Within 64 x) }
{
    let point = Point {
        y: vectors::image_of(n.place, x),
        loops,
    };
    let time = vectors::dot_of(n.step, x);
    let instance = Instance { x, loops };
    println!(rt; "y{point} t {time} x{instance}")
}

fn print_visits(
    rt: &impl Print,
    n: Nest,
    walk: &[i8],
    instances: usize,
    loops: u32,
) -> io::Result<()>
    requires { Readable n walk.now instances }
{
    for k in 0..instances {
        print_visit(rt, n, walk::instance_at(walk, k), loops)?;
    }
    Ok(())
}

fn print_whole(rt: &impl Print, v: Survey, walk: &[i8]) -> io::Result<()>
    requires { (Bounded v.description.nest) × (Along v.description.nest walk.now) }
{
    let n = v.description.nest;
    let processes = v.loops.processes;
    let instances = v.loops.instances;
    println!(rt; "processes {processes} instances {instances}")?;
    print_visits(rt, n, walk, instances as usize, v.description.sizes.loops)
}

fn print_walk(rt: &impl Print, board: u32, s: &[u8]) -> io::Result<()> {
    let mut spans = [0u32; SPANS];
    let mut walk = [0i8; WALK];
    match walkable::walk_of(board, s, &mut spans, &mut walk) {
        Ok(v) => print_whole(rt, v, &walk),
        Err(refusal) => text::print_refusal(rt, refusal),
    }
}

fn main(rt: HostRuntime) -> io::Result<()> {
    let board = argument::board(&rt, 1);
    let mut space = [0u8; 65536];
    let n = reading::read_full(&mut rt.stdin(), &mut space)?;
    print_walk(&rt, board, &space[..n])
}
