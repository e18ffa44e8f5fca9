// The six figures of a description: processes, instances, elements, pipes, state words and total steps; and the lanes of its streams, from
// which they are made and which are handed on.
//
// specs/, by file:
//
//   Sums      sums over the entries of a stream, process by process, and their bounds
//   Shares    sums over the streams, stream by stream, and the figures

#![tactic(auto)]

ghost use Rattle.std.specs.Prelude.{◌≡◌, true, ℕ, suc, ◌≤◌, ◌<◌, length, get_or, replicate};
ghost use Rattle.meaning.specs.Pipes.{is_entry, entries};
ghost use Rattle.meaning.specs.Accept.{figures};
ghost use Rattle.layout.specs.Spans.{process_of, Spans, span_words};
ghost use Rattle.lanes.specs.Flow.{LanesIn, Flowing};
ghost use Rattle.lanes.specs.All.{own_lane_words, lane_words};
ghost use Rattle.pipes.specs.Elements.{Near};
ghost use Rattle.figures.specs.Sums.{steps_on, Under, sums_over, sums_at};
ghost use Rattle.figures.specs.Shares.{Summing, Sharing, Small, share_of, join, Room, totals_of, Described, AllLanes};

use lanes::LANES;
use meaning::Figures;
use survey::{Flow, Survey};

// Of a stream: how many pipes it has, and the steps that they take.
#[derive(Clone, Copy)]
struct Sums {
    pipes: u32,
    steps: u32,
}

// Of a stream: the places of its links, and these.
#[derive(Clone, Copy)]
struct Share {
    hop: u32,
    pipes: u32,
    steps: u32,
}

// Over streams: the words of a process, the pipes, their words, and the steps.
#[derive(Clone, Copy)]
struct Totals {
    words: u32,
    pipes: u32,
    ends: u32,
    steps: u32,
}

// ---- one stream

// The steps of the pipe that enters at process p: twice its elements times one more than its processes.
fn pipe_steps(f: Flow, spans: &[u32], lanes: &[u16], p: usize) -> u32
    requires { (Near f spans.now lanes.now p) × (is_entry f.nest f.stream (process_of f.nest p) ≡ true) }
    ensures { result ≡ steps_on f.nest f.stream (process_of f.nest p) }
{
    let y = layout::point_at(f.space, p as u32);
    let elements = pipes::total_at(f, spans, lanes, p);
    2 * (elements * (layout::reach_of(f.space, f.way, y) + 2))
}

// With the pipe of process p, if it is an entry.
fn added(f: Flow, spans: &[u32], lanes: &[u16], p: usize, sums: Sums) -> Sums
    requires { (Near f spans.now lanes.now p) × (sums ≡ sums_at f.nest f.stream p) × (Under f.nest f.stream) }
    ensures { result ≡ sums_at f.nest f.stream (suc p) }
{
    if pipe_parts::is_entry(f, spans, lanes, p) {
        Sums {
            pipes: sums.pipes + 1,
            steps: sums.steps + pipe_steps(f, spans, lanes, p),
        }
    } else {
        sums
    }
}

// Over all processes.
fn sums_of(f: Flow, processes: u32, spans: &[u32], lanes: &[u16]) -> Sums
    requires { Summing f processes spans.now lanes.now }
    ensures { result ≡ sums_over f.nest f.stream (entries f.nest f.stream) }
{
    let mut sums = Sums { pipes: 0, steps: 0 };
    for p in 0..processes {
        sums = added(f, spans, lanes, p as usize, sums);
    }
    sums
}

// A stream's part of the figures, and its lanes, whose words come as zeros.
fn share_of(f: Flow, processes: u32, spans: &[u32], lanes: &mut [u16]) -> Share
    requires { (Sharing f.nest f.stream) × (Flowing f processes spans.now) × (length lanes.old ≡ own_lane_words)
        × ((k : ℕ) → k < own_lane_words → get_or lanes.old k 0 ≡ 0) }
    ensures { (result ≡ share_of f.nest f.stream) × (Small result) × (LanesIn f.nest f.stream lanes.new) }
{
    lanes::fill_lanes(f, processes, spans, lanes);
    let sums = sums_of(f, processes, spans, lanes);
    Share {
        hop: f.hop,
        pipes: sums.pipes,
        steps: sums.steps,
    }
}

// ---- all streams

// With a further stream.
fn joined(t: Totals, s: Share) -> Totals
    requires { (Room t) × (Small s) }
    ensures { result ≡ join t s }
{
    Totals {
        words: t.words + (4 + s.hop),
        pipes: t.pipes + s.pipes,
        ends: t.ends + s.pipes * (2 + s.hop),
        steps: t.steps + s.steps,
    }
}

fn totals_of(v: Survey, spans: &[u32], lanes: &mut [u16]) -> Totals
    requires { (Described v.description) × (Spans v.description.nest spans.now) × (span_words ≤ length spans.now)
        × (lanes.old ≡ replicate lane_words 0) }
    ensures { (result ≡ totals_of v.description v.description.sizes.streams) × (Room result)
        × (AllLanes v.description lanes.new) }
{
    let processes = v.loops.processes;
    let mut totals = Totals {
        words: 0,
        pipes: 0,
        ends: 0,
        steps: 0,
    };
    for i in 0..v.description.sizes.streams {
        let a = LANES * i as usize;
        let f = survey::flow_at(v.flows, i as usize);
        totals = joined(
            totals,
            share_of(f, processes, spans, &mut lanes[a..a + LANES]),
        );
    }
    totals
}

// The six figures, and the lanes of all streams, whose words come as zeros.
pub fn figures_of(v: Survey, spans: &[u32], lanes: &mut [u16]) -> Figures
    requires { (Described v.description) × (Spans v.description.nest spans.now) × (span_words ≤ length spans.now)
        × (lanes.old ≡ replicate lane_words 0) }
    ensures { (result ≡ figures v.description) × (AllLanes v.description lanes.new) }
{
    let processes = v.loops.processes;
    let instances = v.loops.instances;
    let t = totals_of(v, spans, lanes);
    Figures {
        processes,
        instances,
        elements: elements::element_count(v),
        pipes: t.pipes,
        words: processes * (1 + t.words) + t.ends,
        steps: instances + t.steps,
    }
}
