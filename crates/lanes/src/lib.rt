// The lanes of a stream: which line of processes each process is on, and who computes there.
//
// One pass over the processes leaves the lanes, 1,024 words each: the entry of a process's line; the marks; for an entry, how many compute
// on its line. Of a moving stream an entry's mark is the number plus one of one of those, of a stationary one a process's mark is how many
// before it compute on its line. All else is then found at once for each process. A call makes the lanes of all streams once and hands them
// on.
//
// specs/, by file:
//
//   Lanes     the pass, by numbers alone
//   Along     row numbers along a vector: `row_on`
//   Held      what the lanes hold of a stream's pipes: `held-is`, `soak-held`
//   Flow      what is known of a stream once and for all its processes: `Flows`
//   All       the lanes of all streams, block by block: `LanesOf`
//   Accepted  `laid-stream`: every stream of an accepted description is laid out as the functions ask

#![tactic(auto)]

ghost use Rattle.std.specs.Prelude.{◌≡◌, ◌<◌, length, get_or};
ghost use Rattle.integers.specs.Vectors.{zero2};
ghost use Rattle.meaning.specs.Limits.{gauge_limits};
ghost use Rattle.meaning.specs.Space.{points, processes};
ghost use Rattle.numbering.specs.Extents.{boxed};
ghost use Rattle.lanes.specs.Lanes.{marked_at, mark_of, visited};
ghost use Rattle.lanes.specs.Held.{entry_number};
ghost use Rattle.lanes.specs.Flow.{Flows, Visitable, Fillable, Seen};

use integers::V2;
use meaning::{PROCESSES, STREAMS};
use survey::Flow;

// The words of the lanes: the entries, and from these on the marks, and how many compute on a line.
pub const MARKS: usize = PROCESSES;

pub const HELD: usize = 2 * PROCESSES;

pub const LANES: usize = 3 * PROCESSES;

// The words of the lanes of all streams.
pub const ALL: usize = STREAMS * LANES;

// The number of the entry of process p's line, by the point of p: as many steps of the stream before p as the line goes back.
fn entry_number(f: Flow, p: u32, y: V2) -> u32
    requires { (Flows f) × (p < length (processes f.nest)) × (y ≡ get_or (points (boxed f.space)) p zero2) }
    ensures { (result ≡ entry_number f.nest f.stream p) × (result < length (processes f.nest)) }
{
    let k = layout::reach_of(f.space, f.back, y);
    (p as i32 - k as i32 * f.step) as u32
}

// Whose mark a computing process p makes, whose line enters at e: the entry's if the stream moves, else its own.
fn marked_at(p: usize, e: usize, moving: bool) -> usize
    requires { (p < gauge_limits.processes) × (e < gauge_limits.processes) }
    ensures { (result ≡ marked_at p e moving) × (result < gauge_limits.processes) }
{
    if moving { e } else { p }
}

// That mark: its number plus one, or how many compute before it on its line.
fn mark_of(p: usize, held: u16, moving: bool) -> u16
    requires { p < gauge_limits.processes }
    ensures { result ≡ mark_of p held moving }
{
    if moving { (p + 1) as u16 } else { held }
}

// Process p, whose line enters at e, joins its lane.
fn visit(lanes: &mut [u16], p: usize, e: usize, computing: bool, moving: bool)
    requires { Visitable lanes.old p e }
    ensures { lanes.new ≡ visited lanes.old p e computing moving }
{
    let held = lanes[HELD + e];
    lanes[p] = e as u16;
    if computing {
        let i = marked_at(p, e, moving);
        lanes[MARKS + i] = mark_of(p, held, moving);
        lanes[HELD + e] = held + 1;
    }
}

// The lanes of all processes; their words come as zeros.
pub fn fill_lanes(f: Flow, processes: u32, spans: &[u32], lanes: &mut [u16])
    requires { Fillable f processes spans.now lanes.old }
    ensures { Seen f spans.now lanes.new }
{
    let mut y = f.space.lo;
    for p in 0..processes {
        let e = entry_number(f, p, y);
        visit(
            lanes,
            p as usize,
            e as usize,
            spans[p as usize] != 0,
            f.moving,
        );
        y = layout::next_point(f.space, y);
    }
}
