// Where each element waits: its place in the waiting list, for its number in element order. Stream by stream, each pipe says where its
// elements wait: in its part, one after the other. Those of a moving stream have numbers as far apart as index map times increment says;
// those of a stationary one are found process by process, from the entry on. Every element is on a pipe, so every place is said.
//
// specs/, by file:
//
//   Spread    words stored at scattered places
//   Order     what the pipes of a stream say: `place-right`, and of all its elements: `stream-right`
//   Runs      the elements of a moving pipe, by one of them: `run-numbers`
//   Walked    those of a stationary pipe, process by process: `said-next`
//   Lent      what the functions are lent, and what they find of a pipe
//   Lines     what the walk along a line of processes is lent, and what it finds

#![tactic(auto)]

ghost use Rattle.std.specs.Prelude.{◌≡◌, true, ◌+◌, ◌≤◌, ◌<◌, T, length};
ghost use Rattle.integers.specs.Differences.{up};
ghost use Rattle.meaning.specs.Limits.{gauge_limits, elements_most};
ghost use Rattle.meaning.specs.Space.{processes};
ghost use Rattle.geometry.specs.Wiring.{process_at};
ghost use Rattle.layout.specs.Spans.{process_of, Spans, span_words};
ghost use Rattle.figures.specs.Shares.{AllLanes};
ghost use Rattle.pipe_parts.specs.Starts.{entering, entering_length};
ghost use Rattle.element_places.specs.Spread.{spread};
ghost use Rattle.element_places.specs.Order.{said_on, Put, said, PlacesOf, Placeable};
ghost use Rattle.element_places.specs.Runs.{number_after, Counts, Fits, RunOf};
ghost use Rattle.element_places.specs.Walked.{one_of, own_said};
ghost use Rattle.element_places.specs.Lent.{Placing, Running, Saying};
ghost use Rattle.element_places.specs.Lines.{Lined, Owning, Walking};

use integers::V2;
use lanes::LANES;
use survey::{Flow, Survey};

// Elements one after the other: the first one's number, how far on the next one's is, the first one's place, and how many they are.
#[derive(Clone, Copy)]
struct Run {
    number: i32,
    stride: i32,
    place: u32,
    count: u32,
}

// ---- one run

// The number of its element k.
fn number_after(r: Run, k: u32) -> u32
    requires { Counts r k }
    ensures { result ≡ up (number_after r k) }
{
    (r.number + k as i32 * r.stride) as u32
}

// Its elements wait at consecutive places.
fn put_run(r: Run, places: &mut [u16])
    requires { Fits r (length places.old) }
    ensures { places.new
        ≡ spread (λ k. up (number_after r k)) (λ k. r.place + k) r.count places.old }
{
    for k in 0..r.count {
        places[number_after(r, k) as usize] = (r.place + k) as u16;
    }
}

// ---- a pipe of a moving stream

// Its elements, by the first one that its computing process q uses; the stream's have the numbers from `first` on, and its part begins at
// `start`.
fn run_of(f: Flow, spans: &[u32], first: u32, start: u32, q: usize) -> Run
    requires { Running f first spans.now q }
    ensures { RunOf f.nest f.stream first start (process_of f.nest q) result }
{
    let e = pipes::first_element(f, spans, q);
    let before = layout::reach_of(f.elements, f.against, e);
    let stride = counting::stride_of(f.elements, f.pass);
    Run {
        number: (first + numbering::row_number(f.elements, e)) as i32 - before as i32 * stride,
        stride,
        place: start,
        count: before + 1 + layout::reach_of(f.elements, f.pass, e),
    }
}

// What the pipe says that enters at process p; how many elements it has.
fn put_moving(
    f: Flow,
    spans: &[u32],
    lanes: &[u16],
    first: u32,
    start: u32,
    p: usize,
    places: &mut [u16],
) -> u32
    requires { (Placing f first start spans.now lanes.now p places.old) × (T f.moving)
        × (entering f.nest f.stream (process_of f.nest p) ≡ true) }
    ensures { Put f.nest f.stream first start (process_of f.nest p) places.old result places.new }
{
    let q = pipes::one_at(f, spans, lanes, p) as usize - 1;
    let r = run_of(f, spans, first, start, q);
    put_run(r, places);
    r.count
}

// ---- a pipe of a stationary stream

// The number of process k of the line that enters at y.
fn process_on(f: Flow, y: V2, k: u32) -> u32
    requires { Lined f y k }
    ensures { (result < length (processes f.nest)) × (process_of f.nest result ≡ process_at f.nest f.stream y k) }
{
    numbering::row_number(f.space, vectors::moved(y, f.way, k))
}

// Process q says that its one element waits at a place, if it computes; how many elements it has.
fn put_own(f: Flow, spans: &[u32], first: u32, place: u32, q: usize, places: &mut [u16]) -> u32
    requires { Owning f first spans.now q place places.old }
    ensures { (result ≡ one_of f.nest (process_of f.nest q))
        × (places.new ≡ own_said f.nest f.stream first (process_of f.nest q) place places.old) }
{
    if spans[q] == 0 {
        return 0;
    }
    let e = first + numbering::row_number(f.elements, pipes::first_element(f, spans, q));
    places[e as usize] = place as u16;
    1
}

// What the pipe says that enters at process p, its processes one after the other; how many elements it has.
fn put_still(f: Flow, spans: &[u32], first: u32, start: u32, p: usize, places: &mut [u16]) -> u32
    requires { Walking f first start spans.now p places.old }
    ensures { Put f.nest f.stream first start (process_of f.nest p) places.old result places.new }
{
    let y = layout::point_at(f.space, p as u32);
    let reach = layout::reach_of(f.space, f.way, y);
    let mut place = start;
    for k in 0..reach + 1 {
        let q = process_on(f, y, k);
        place += put_own(f, spans, first, place, q as usize, places);
    }
    place - start
}

// ---- one stream

// What the pipe says that enters at process p, if one does; how many elements it has.
fn put_pipe(
    f: Flow,
    spans: &[u32],
    lanes: &[u16],
    first: u32,
    start: u32,
    p: usize,
    places: &mut [u16],
) -> u32
    requires { Placing f first start spans.now lanes.now p places.old }
    ensures { (result ≡ entering_length f.nest f.stream p) × (result ≤ gauge_limits.instances)
        × (places.new ≡ said_on f.nest f.stream first (process_of f.nest p) start
        (entering_length f.nest f.stream p) places.old) }
{
    if pipe_parts::is_entry(f, spans, lanes, p) {
        if f.moving {
            put_moving(f, spans, lanes, first, start, p, places)
        } else {
            put_still(f, spans, first, start, p, places)
        }
    } else {
        0
    }
}

// What all pipes say.
fn fill_stream(
    f: Flow,
    processes: u32,
    first: u32,
    spans: &[u32],
    lanes: &[u16],
    places: &mut [u16],
)
    requires { Saying f processes first spans.now lanes.now places.old }
    ensures { places.new ≡ said f.nest f.stream first processes places.old }
{
    let mut start = first;
    for p in 0..processes {
        start += put_pipe(f, spans, lanes, first, start, p as usize, places);
    }
}

// ---- all streams

// The place of each element in the waiting list.
pub fn fill_places(v: Survey, spans: &[u32], lanes: &[u16], places: &mut [u16])
    requires { (Placeable v.description) × (Spans v.description.nest spans.now) × (span_words ≤ length spans.now)
        × (AllLanes v.description lanes.now) × (length places.old ≡ elements_most) }
    ensures { PlacesOf v.description places.new }
{
    for i in 0..v.description.sizes.streams {
        let f = survey::flow_at(v.flows, i as usize);
        let first = elements::elements_in(v, i);
        let a = LANES * i as usize;
        fill_stream(
            f,
            v.loops.processes,
            first,
            spans,
            &lanes[a..a + LANES],
            places,
        );
    }
}
