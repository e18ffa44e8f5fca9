// A stream's pipes: how many elements the pipe of a process has, and how many of them it soaks and drains.
//
// specs/, by file:
//
//   Elements  the numbers of a pipe's elements, of those soaked and of those drained
//   Passed    what a stream's words say: soak and drain at each process

#![tactic(auto)]

ghost use Rattle.std.specs.Prelude.{◌≡◌, ℕ, false, ◌+◌, ◌≤◌, ◌<◌, T, length, get_or};
ghost use Rattle.meaning.specs.Limits.{gauge_limits};
ghost use Rattle.integers.specs.Vectors.{image};
ghost use Rattle.integers.specs.Fill.{fill_by};
ghost use Rattle.meaning.specs.Space.{first, last};
ghost use Rattle.meaning.specs.Pipes.{pipe_elements, soak, drain};
ghost use Rattle.meaning.specs.Array.{row_soak};
ghost use Rattle.layout.specs.Spans.{process_of};
ghost use Rattle.lanes.specs.Held.{computes};
ghost use Rattle.lanes.specs.Flow.{Flowing};
ghost use Rattle.pipes.specs.Elements.{At, Near, row_drain};
ghost use Rattle.pipes.specs.Passed.{Passed};

use integers::V2;
use lanes::{HELD, LANES, MARKS};
use layout::LASTS;
use meaning::PROCESSES;
use survey::Flow;

// The words of a stream: the soaks of the processes, then their drains.
pub const BLOCK: usize = 2 * PROCESSES;

// ---- a computing process

// The element that its first instance uses; its last one.
pub fn first_element(f: Flow, spans: &[u32], p: usize) -> V2
    requires { At f spans.now p }
    ensures { result ≡ image f.stream.map (first f.nest (process_of f.nest p)) }
{
    vectors::image_of(f.stream.map, layout::first_at(spans, p))
}

fn last_element(f: Flow, spans: &[u32], p: usize) -> V2
    requires { At f spans.now p }
    ensures { result ≡ image f.stream.map (last f.nest (process_of f.nest p)) }
{
    vectors::image_of(
        f.stream.map,
        numbering::instance(f.nest, spans[LASTS + p] - 1),
    )
}

// Of a moving stream: its soak, its drain, and how many elements its pipe has. Soak and drain differ in the vector and in the element; one
// function of both would be told all that it does.
fn soak_at(f: Flow, spans: &[u32], p: usize) -> u32
    requires { (At f spans.now p) × (T f.moving) }
    ensures { result ≡ soak f.nest f.stream (process_of f.nest p) }
{
    layout::reach_of(f.elements, f.against, first_element(f, spans, p))
}

fn drain_at(f: Flow, spans: &[u32], p: usize) -> u32
    requires { (At f spans.now p) × (T f.moving) }
    ensures { result ≡ drain f.nest f.stream (process_of f.nest p) }
{
    layout::reach_of(f.elements, f.pass, last_element(f, spans, p))
}

fn length_at(f: Flow, spans: &[u32], p: usize) -> u32
    requires { (At f spans.now p) × (T f.moving) }
    ensures { (result ≡ length (pipe_elements f.nest f.stream (process_of f.nest p))) × (result ≤ gauge_limits.instances) }
{
    let e = first_element(f, spans, p);
    layout::reach_of(f.elements, f.against, e) + 1 + layout::reach_of(f.elements, f.pass, e)
}

// ---- the lanes of a process

// The entry of its line.
pub fn entry_at(f: Flow, spans: &[u32], lanes: &[u16], p: usize) -> usize
    requires { Near f spans.now lanes.now p }
    ensures { (result ≡ get_or lanes.now p 0) × (result < gauge_limits.processes) }
{
    usize::from(lanes[p])
}

// How many compute on it, and of a moving stream the number plus one of one of them.
pub fn held_at(f: Flow, spans: &[u32], lanes: &[u16], p: usize) -> u32
    requires { Near f spans.now lanes.now p }
    ensures { result ≡ get_or lanes.now (2048 + get_or lanes.now p 0) 0 }
{
    let e = entry_at(f, spans, lanes, p);
    u32::from(lanes[HELD + e])
}

// A twin of `held_at` but for the words that it reads and for what it asks: a function over both would have neither name nor clause.
pub fn one_at(f: Flow, spans: &[u32], lanes: &[u16], p: usize) -> u32
    requires { (Near f spans.now lanes.now p) × (T f.moving) }
    ensures { result ≡ get_or lanes.now (gauge_limits.processes + get_or lanes.now p 0) 0 }
{
    let e = entry_at(f, spans, lanes, p);
    u32::from(lanes[MARKS + e])
}

// Of a stationary stream: its soak, the number of computing processes before it on its pipe.
fn rank_at(f: Flow, spans: &[u32], lanes: &[u16], p: usize) -> u32
    requires { (Near f spans.now lanes.now p) × (T (computes f.nest p)) × (f.moving ≡ false) }
    ensures { result ≡ soak f.nest f.stream (process_of f.nest p) }
{
    let running = u32::from(lanes[MARKS + p]);
    if f.turned {
        held_at(f, spans, lanes, p) - 1 - running
    } else {
        running
    }
}

// ---- any process

// How many elements its pipe has, 0 without a pipe.
pub fn total_at(f: Flow, spans: &[u32], lanes: &[u16], p: usize) -> u32
    requires { Near f spans.now lanes.now p }
    ensures { (result ≡ length (pipe_elements f.nest f.stream (process_of f.nest p))) × (result ≤ gauge_limits.instances) }
{
    if f.moving {
        let q = one_at(f, spans, lanes, p);
        if q == 0 {
            0
        } else {
            length_at(f, spans, q as usize - 1)
        }
    } else {
        held_at(f, spans, lanes, p)
    }
}

// Its soak, if it computes.
pub fn own_soak(f: Flow, spans: &[u32], lanes: &[u16], p: usize) -> u32
    requires { (Near f spans.now lanes.now p) × (At f spans.now p) }
    ensures { result ≡ soak f.nest f.stream (process_of f.nest p) }
{
    if f.moving {
        soak_at(f, spans, p)
    } else {
        rank_at(f, spans, lanes, p)
    }
}

// Its soak as the table has it: of a null process the number of its pipe's elements.
fn soak_of(f: Flow, spans: &[u32], lanes: &[u16], p: usize) -> u32
    requires { Near f spans.now lanes.now p }
    ensures { result ≡ row_soak f.nest f.stream (process_of f.nest p) }
{
    if spans[p] == 0 {
        total_at(f, spans, lanes, p)
    } else {
        own_soak(f, spans, lanes, p)
    }
}

// Its drain, of a null process 0.
fn drain_of(f: Flow, spans: &[u32], lanes: &[u16], p: usize) -> u32
    requires { Near f spans.now lanes.now p }
    ensures { result ≡ row_drain f.nest f.stream (process_of f.nest p) }
{
    if spans[p] == 0 {
        return 0;
    }
    if f.moving {
        drain_at(f, spans, p)
    } else {
        let rank = rank_at(f, spans, lanes, p);
        held_at(f, spans, lanes, p) - 1 - rank
    }
}

// The words of all processes, by what says the word of one.
fn fill_rows<F: Fn(usize) -> u32>(processes: u32, row: F, out: &mut [u32])
    requires room { processes ≤ length out.old }
    requires ready { (p : ℕ) → p < processes → F.pre row p }
    ensures { (word : ℕ → ℕ) → ((p r : ℕ) → p < processes → F.post row p r → r ≡ word p)
        → out.new ≡ fill_by word processes out.old }
{
    for p in 0..processes {
        out[p as usize] = row(p as usize);
    }
}

// The soaks of a stream at all processes, and from word 1,024 on its drains; the words of the processes are lent as
// `layout::fill_processes` leaves them.
pub fn fill_stream(f: Flow, processes: u32, spans: &[u32], block: &mut [u32])
    requires { (Flowing f processes spans.now) × (2048 ≤ length block.old) }
    ensures { Passed f.nest f.stream block.new }
{
    let mut lanes = [0u16; LANES];
    lanes::fill_lanes(f, processes, spans, &mut lanes);
    fill_rows(
        processes,
        |p| soak_of(f, spans, &lanes, p),
        &mut block[0..PROCESSES],
    );
    fill_rows(
        processes,
        |p| drain_of(f, spans, &lanes, p),
        &mut block[PROCESSES..BLOCK],
    );
}
