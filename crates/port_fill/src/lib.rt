// The port table of a description filled: the rows of all its ports and of all its pipes' ends. Stream by stream: what its rows share, by
// the sums over the streams before it; then the row of each pipe, by its entry, and the row of each process, by the entry of its line.
//
// specs/, by file:
//
//   Marks     rows written where a test says so: what stands, and what stays
//   Widths    the rows of a stream fit words
//   Strung    the rows of a stream, and what the functions are lent
//   Filled    stream by stream, the rows are those of the array: `Filled-next`

#![tactic(auto)]

ghost use Rattle.std.specs.Prelude.{◌≡◌, ◌≤◌, length};
ghost use Rattle.meaning.specs.Limits.{gauge_limits, process_words_most};
ghost use Rattle.meaning.specs.Pipes.{entries};
ghost use Rattle.meaning.specs.Array.{array_of};
ghost use Rattle.geometry.specs.Descriptions.{Laid};
ghost use Rattle.addresses.specs.Indices.{stride_of};
ghost use Rattle.layout.specs.Spans.{Spans, span_words};
ghost use Rattle.pipe_parts.specs.Starts.{entering_one};
ghost use Rattle.pipe_parts.specs.Heads.{Heads};
ghost use Rattle.lanes.specs.Flow.{LanesIn};
ghost use Rattle.figures.specs.Shares.{Described, AllLanes};
ghost use Rattle.port_rows.specs.Strands.{Narrow};
ghost use Rattle.port_table.specs.PortsOf.{PortsOf};
ghost use Rattle.port_fill.specs.Strung.{Slack, strand_from, join, PortFillable, EndFillable, PortsFillable, EndsFillable};
ghost use Rattle.port_fill.specs.Strung.{StreamFillable, port_row, end_row, port_rows, end_rows, stream_rows};
ghost use Rattle.port_fill.specs.Filled.{Started};

use lanes::LANES;
use pipe_parts::HEADS;
use port_rows::Strand;
use port_table::{PORT, PORTS, PROCESS};
use survey::{Flow, Survey};

const PIPE_ROWS: u32 = port_table::PIPE_ROWS as u32;

const END: u32 = port_table::END as u32;

// Over the streams before one: their words in a process, their pipes, and the words of those pipes' ends.
#[derive(Clone, Copy)]
struct Sums {
    words: u32,
    pipes: u32,
    ends: u32,
}

// ---- what the rows of a stream share

// With a further stream, of which the links have `hop` places.
fn joined(t: Sums, hop: u32, pipes: u32) -> Sums
    requires { (Slack t) × (hop ≤ gauge_limits.hop) × (pipes ≤ gauge_limits.processes) }
    ensures { result ≡ join t hop pipes }
{
    Sums {
        words: t.words + (4 + hop),
        pipes: t.pipes + pipes,
        ends: t.ends + pipes * (2 + hop),
    }
}

fn strand_of(hop: u32, processes: u32, stride: u32, t: Sums) -> Strand
    requires { (hop ≤ gauge_limits.hop) × (processes ≤ gauge_limits.processes) × (stride ≤ process_words_most) × (Slack t) }
    ensures { (result ≡ strand_from hop processes stride t) × (Narrow result) }
{
    Strand {
        hop,
        stride,
        offset: 1 + t.words,
        tail: processes * stride + t.ends,
    }
}

// The words of a process.
fn stride_of(v: Survey) -> u32
    requires { Described v.description }
    ensures { (result ≡ stride_of v.description) × (result ≤ process_words_most) }
{
    let mut sum = 1;
    for i in 0..v.description.sizes.streams {
        sum += 4 + survey::flow_at(v.flows, i as usize).hop;
    }
    sum
}

// ---- the rows of a stream

// The row of the stream's pipe j, if a pipe of so many elements enters at process p, and then one; else none. The pipes of the streams
// before it are `base`.
fn put_end(
    f: Flow,
    g: Strand,
    total: u32,
    start: u32,
    base: u32,
    j: u32,
    p: u32,
    ports: &mut [u32; PORTS],
) -> u32
    requires { EndFillable f g total start base j p }
    ensures { (result ≡ entering_one f.nest f.stream p)
        × (ports.new ≡ end_row f.nest f.stream g start base j p ports.old) }
{
    if total == 0 {
        0
    } else {
        let e = port_rows::end_of(f, g, total, start, j, p);
        port_table::put_end(ports, (PIPE_ROWS + END * (base + j)) as usize, e);
        1
    }
}

// The rows of all pipes, with their heads, and how many there are.
fn put_ends(
    f: Flow,
    g: Strand,
    processes: u32,
    spans: &[u32],
    lanes: &[u16],
    first: u32,
    base: u32,
    heads: &mut [u16; HEADS],
    ports: &mut [u32; PORTS],
) -> u32
    requires { EndsFillable f g processes spans.now lanes.now first base }
    ensures { (result ≡ length (entries f.nest f.stream)) × (Heads f.nest f.stream processes heads.new)
        × (ports.new ≡ end_rows f.nest f.stream g first base processes ports.old) }
{
    let mut start = first;
    let mut j = 0;
    for p in 0..processes {
        let total = pipe_parts::entering_length(f, spans, lanes, p as usize);
        pipe_parts::put_head(heads, p as usize, j, total);
        j += put_end(f, g, total, start, base, j, p, ports);
        start += total;
    }
    j
}

// The row of process p of stream i.
fn put_port(
    f: Flow,
    g: Strand,
    spans: &[u32],
    lanes: &[u16],
    heads: &[u16],
    i: usize,
    p: usize,
    ports: &mut [u32; PORTS],
)
    requires { PortFillable f g spans.now lanes.now heads.now i p }
    ensures { ports.new ≡ port_row f.nest f.stream g i p ports.old }
{
    let k = port_rows::row_of(f, g, spans, lanes, heads, p);
    port_table::put_port(ports, PROCESS * p + PORT * i, k);
}

// The rows of all processes.
fn put_ports(
    f: Flow,
    g: Strand,
    processes: u32,
    spans: &[u32],
    lanes: &[u16],
    heads: &[u16],
    i: usize,
    ports: &mut [u32; PORTS],
)
    requires { PortsFillable f g processes spans.now lanes.now heads.now i }
    ensures { ports.new ≡ port_rows f.nest f.stream g i processes ports.old }
{
    for p in 0..processes {
        put_port(f, g, spans, lanes, heads, i, p as usize, ports);
    }
}

// All rows of stream i, whose elements have the numbers from `first` on and whose pipes those from `base` on; how many pipes there are.
fn fill_stream(
    f: Flow,
    g: Strand,
    processes: u32,
    i: usize,
    first: u32,
    base: u32,
    spans: &[u32],
    lanes: &[u16],
    ports: &mut [u32; PORTS],
) -> u32
    requires { (StreamFillable f processes g i first base spans.now) × (LanesIn f.nest f.stream lanes.now) }
    ensures { (result ≡ length (entries f.nest f.stream))
        × (ports.new ≡ stream_rows f.nest f.stream g i first base ports.old) }
{
    let mut heads = [0u16; HEADS];
    let pipes = put_ends(
        f, g, processes, spans, lanes, first, base, &mut heads, ports,
    );
    put_ports(f, g, processes, spans, lanes, &heads, i, ports);
    pipes
}

// ---- all streams

fn fill_streams(v: Survey, stride: u32, spans: &[u32], lanes: &[u16], ports: &mut [u32; PORTS])
    requires { (Started v.description stride spans.now) × (AllLanes v.description lanes.now) }
    ensures { PortsOf (array_of v.description) ports.new }
{
    let processes = v.loops.processes;
    let mut sums = Sums {
        words: 0,
        pipes: 0,
        ends: 0,
    };
    for i in 0..v.description.sizes.streams {
        let f = survey::flow_at(v.flows, i as usize);
        let g = strand_of(f.hop, processes, stride, sums);
        let first = elements::elements_in(v, i);
        let a = LANES * i as usize;
        let e = a + LANES;
        let pipes = fill_stream(
            f,
            g,
            processes,
            i as usize,
            first,
            sums.pipes,
            spans,
            &lanes[a..e],
            ports,
        );
        sums = joined(sums, f.hop, pipes);
    }
}

// The port table of an accepted description.
pub fn fill_ports(v: Survey, spans: &[u32], lanes: &[u16], ports: &mut [u32; PORTS])
    requires { (Described v.description) × (Laid v.description) × (Spans v.description.nest spans.now)
        × (span_words ≤ length spans.now) × (AllLanes v.description lanes.now) }
    ensures { PortsOf (array_of v.description) ports.new }
{
    let stride = stride_of(v);
    fill_streams(v, stride, spans, lanes, ports);
}
