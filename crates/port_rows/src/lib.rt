// The rows of a stream's ports and of its pipes' ends: at which indices of a state their words stand.
//
// specs/, by file:
//
//   Strands   what the rows of a stream share; the rows by numbers
//   Rows      the rows are those of the array: `port-is`, `row_is`, `end_is`

#![tactic(auto)]

ghost use Rattle.std.specs.Prelude.{◌≡◌, not, ◌&&◌, ◌+◌, ◌*◌, ◌≤◌, ◌<◌, eqb, pos, length};
ghost use Rattle.integers.specs.Vectors.{shift2};
ghost use Rattle.meaning.specs.Limits.{end_words_most, state_words_most, gauge_limits};
ghost use Rattle.meaning.specs.Space.{row_index, space, processes};
ghost use Rattle.meaning.specs.Streams.{move};
ghost use Rattle.meaning.specs.Pipes.{reach, before, pipe_elements};
ghost use Rattle.meaning.specs.Array.{row_soak};
ghost use Rattle.addresses.specs.Ends.{back_of};
ghost use Rattle.layout.specs.Spans.{process_of};
ghost use Rattle.lanes.specs.Flow.{Flows};
ghost use Rattle.pipes.specs.Elements.{Near};
ghost use Rattle.port_rows.specs.Strands.{Narrow, before_from, after_from, room_from, pipe_of, PortGiven, port_from, off_from, row_from};
ghost use Rattle.port_rows.specs.Strands.{end_from};

use pipe_parts::TOTALS;
use ports::{End, Port};
use survey::Flow;

// What the rows of a stream share: the places of its links, the words of a process, where the stream's words begin among them, and the
// index of the first word of its first pipe's ends.
#[derive(Clone, Copy)]
pub struct Strand {
    pub hop: u32,
    pub stride: u32,
    pub offset: u32,
    pub tail: u32,
}

// The link out of a port: indices of what was taken out of it and of its first place.
#[derive(Clone, Copy)]
struct Link {
    after: u32,
    room: u32,
}

// The index of the words of process p and the stream.
fn port_at(g: Strand, p: u32) -> u32
    requires { (Narrow g) × (p < gauge_limits.processes) }
    ensures { (result ≡ p * g.stride + g.offset) × (result ≤ state_words_most) }
{
    p * g.stride + g.offset
}

// The index of the words of the ends of the stream's pipe j.
fn end_at(g: Strand, j: u32) -> u32
    requires { (Narrow g) × (j ≤ gauge_limits.processes) }
    ensures { (result ≡ g.tail + j * (2 + g.hop)) × (result ≤ state_words_most + end_words_most) }
{
    g.tail + j * (2 + g.hop)
}

// The number of the process that lies k moves on from process p: the next one where k is 1.
fn number_on(f: Flow, p: u32, k: u32) -> u32
    requires { (Flows f) × (p < length (processes f.nest))
        × (k ≤ reach (space f.nest) (move f.nest f.stream) (process_of f.nest p)) }
    ensures { (result ≡ row_index (space f.nest) (shift2 (process_of f.nest p) (pos k) (move f.nest f.stream)))
        × (result < gauge_limits.processes) }
{
    (p as i32 + k as i32 * f.step) as u32
}

// The number of the process before process p, which is no entry.
fn number_back(f: Flow, p: u32) -> u32
    requires { (Flows f) × (p < length (processes f.nest)) × (0 < before f.nest f.stream (process_of f.nest p)) }
    ensures { (result ≡ row_index (space f.nest) (back_of f.nest f.stream (process_of f.nest p)))
        × (result < gauge_limits.processes) }
{
    (p as i32 - f.step) as u32
}

// The number of the pipe of process p in the stream, and how many elements it has, 0 without a pipe: both at the entry of its line.
fn pipe_number(f: Flow, spans: &[u32], lanes: &[u16], heads: &[u16], p: usize) -> u32
    requires { PortGiven f spans.now lanes.now heads.now p }
    ensures { (result ≡ pipe_of f.nest f.stream p) × (result ≤ gauge_limits.processes) }
{
    let e = pipes::entry_at(f, spans, lanes, p);
    u32::from(heads[e])
}

fn pipe_total(f: Flow, spans: &[u32], lanes: &[u16], heads: &[u16], p: usize) -> u32
    requires { PortGiven f spans.now lanes.now heads.now p }
    ensures { result ≡ length (pipe_elements f.nest f.stream (process_of f.nest p)) }
{
    let e = pipes::entry_at(f, spans, lanes, p);
    u32::from(heads[TOTALS + e])
}

// The soak of process p, whose pipe has so many elements: of a null process all of them.
fn soak_of(f: Flow, spans: &[u32], lanes: &[u16], total: u32, p: usize) -> u32
    requires { (Near f spans.now lanes.now p) × (total ≡ length (pipe_elements f.nest f.stream (process_of f.nest p))) }
    ensures { result ≡ row_soak f.nest f.stream (process_of f.nest p) }
{
    if spans[p] == 0 {
        total
    } else {
        pipes::own_soak(f, spans, lanes, p)
    }
}

// What was put into the link into process p, where the words of its pipe's ends stand at `sent`.
fn before_of(f: Flow, g: Strand, spans: &[u32], lanes: &[u16], sent: u32, p: usize) -> u32
    requires { (Near f spans.now lanes.now p) × (Narrow g) × (sent ≤ state_words_most + end_words_most) }
    ensures { result ≡ before_from f.nest f.stream g sent p }
{
    if pipes::entry_at(f, spans, lanes, p) == p {
        sent
    } else {
        port_at(g, number_back(f, p as u32)) + 1
    }
}

// The link out of process p.
fn link_of(f: Flow, g: Strand, sent: u32, p: u32) -> Link
    requires { (Flows f) × (p < length (processes f.nest)) × (Narrow g) × (sent ≤ state_words_most + end_words_most) }
    ensures { (result.after ≡ after_from f.nest f.stream g sent p) × (result.room ≡ room_from f.nest f.stream g sent p) }
{
    let y = layout::point_at(f.space, p);
    if layout::reach_of(f.space, f.way, y) == 0 {
        Link {
            after: sent + 1,
            room: sent + 2,
        }
    } else {
        let at = port_at(g, number_on(f, p, 1));
        Link {
            after: at,
            room: at + 4,
        }
    }
}

// Whether a process of so many instances keeps an element.
fn keeps(moving: bool, count: u32) -> bool
    ensures { result ≡ not moving && not (eqb count 0) }
{
    !moving && count != 0
}

// The row of process p, which is on a pipe of so many elements.
fn port_of(
    f: Flow,
    g: Strand,
    spans: &[u32],
    lanes: &[u16],
    heads: &[u16],
    total: u32,
    p: usize,
) -> Port
    requires { (PortGiven f spans.now lanes.now heads.now p)
        × (total ≡ length (pipe_elements f.nest f.stream (process_of f.nest p))) × (Narrow g) }
    ensures { result ≡ port_from f.nest f.stream g p }
{
    let sent = end_at(g, pipe_number(f, spans, lanes, heads, p));
    let link = link_of(f, g, sent, p as u32);
    let count = spans[p];
    Port {
        at: port_at(g, p as u32) as usize,
        before: before_of(f, g, spans, lanes, sent, p) as usize,
        after: link.after as usize,
        room: link.room as usize,
        fired: p * g.stride as usize,
        hop: g.hop as usize,
        soak: soak_of(f, spans, lanes, total, p) as usize,
        count: count as usize,
        total: total as usize,
        keeps: keeps(f.moving, count),
    }
}

// The row of process p off every pipe: a link without places. The process has so many instances.
fn off_of(g: Strand, count: u32, p: u32) -> Port
    requires { (Narrow g) × (p < gauge_limits.processes) }
    ensures { result ≡ off_from g count p }
{
    let at = port_at(g, p) as usize;
    Port {
        at,
        before: at,
        after: at + 1,
        room: at + 4,
        fired: (p * g.stride) as usize,
        hop: 0,
        soak: 0,
        count: count as usize,
        total: 0,
        keeps: false,
    }
}

// The row of process p.
pub fn row_of(f: Flow, g: Strand, spans: &[u32], lanes: &[u16], heads: &[u16], p: usize) -> Port
    requires { (PortGiven f spans.now lanes.now heads.now p) × (Narrow g) }
    ensures { result ≡ row_from f.nest f.stream g p }
{
    let total = pipe_total(f, spans, lanes, heads, p);
    if total == 0 {
        off_of(g, spans[p], p as u32)
    } else {
        port_of(f, g, spans, lanes, heads, total, p)
    }
}

// The row of the stream's pipe j, which enters at process p and has so many elements; its part of the lists begins at `start`.
pub fn end_of(f: Flow, g: Strand, total: u32, start: u32, j: u32, p: u32) -> End
    requires { (Flows f) × (p < length (processes f.nest)) × (Narrow g) × (j ≤ gauge_limits.processes)
        × (total ≡ length (pipe_elements f.nest f.stream (process_of f.nest p))) }
    ensures { result ≡ end_from f.nest f.stream g start j p }
{
    let y = layout::point_at(f.space, p);
    let sent = end_at(g, j);
    let first = port_at(g, p);
    let last = port_at(g, number_on(f, p, layout::reach_of(f.space, f.way, y)));
    End {
        sent: sent as usize,
        after: first as usize,
        room: first as usize + 4,
        before: last as usize + 1,
        received: sent as usize + 1,
        last: sent as usize + 2,
        hop: g.hop as usize,
        total: total as usize,
        offset: start as usize,
    }
}
