// The port table: the rows of all ports and of all pipes' ends as words of one lent list, written once and read by number. Port (p, i) has
// the five words from 30 p + 5 i on, pipe q the three from 30,720 + 3 q on: each word has two of a row's numbers.
//
// specs/, by file:
//
//   Pack      two numbers in a word
//   Rows      the words of rows, and rows read off them
//   PortsOf   the port table of an array; port tables whose rows' words lie in a state

#![tactic(auto)]

ghost use Rattle.std.specs.Prelude.{◌≡◌, ◌+◌, ◌≤◌, ◌<◌, length, get_or};
ghost use Rattle.meaning.specs.Limits.{gauge_limits, pipes_most};
ghost use Rattle.words.specs.Stored.{stored};
ghost use Rattle.port_table.specs.Pack.{low_end, high_end, pack, low, high};
ghost use Rattle.port_table.specs.Rows.{PortWide, EndWide, port_words, end_words, port_read, end_read};
ghost use Rattle.port_table.specs.PortsOf.{port_at, end_at, ports_at, port_table_words};

use meaning::{PIPES, PROCESSES, STREAMS};
use ports::{End, Port};

// The words of a port, of a process and of a pipe's ends; where those of the pipes begin, and the words of all.
pub const PORT: usize = 5;

pub const PROCESS: usize = STREAMS * PORT;

pub const END: usize = 3;

pub const PIPE_ROWS: usize = PROCESSES * PROCESS;

pub const PORTS: usize = PIPE_ROWS + PIPES * END;

// What the high number of a word counts for.
const HIGH: usize = 131072;

// How many processes, streams and pipes there are.
#[derive(Clone, Copy)]
pub struct Size {
    pub processes: usize,
    pub streams: usize,
    pub pipes: usize,
}

// A word of a low and a high number.
fn pack(low: usize, high: usize) -> u32
    requires { (low < low_end) × (high < high_end) }
    ensures { result ≡ pack low high }
{
    (low + HIGH * high) as u32
}

// The low number of word i, and the high one.
fn low(ports: &[u32], i: usize) -> usize
    requires { i < length ports.now }
    ensures { (result ≡ low (get_or ports.now i 0)) × (result < low_end) }
{
    ports::word(ports, i) % HIGH
}

fn high(ports: &[u32], i: usize) -> usize
    requires { i < length ports.now }
    ensures { result ≡ high (get_or ports.now i 0) }
{
    ports::word(ports, i) / HIGH
}

// The words of a port's row.
fn port_words(k: Port) -> [u32; PORT]
    requires { PortWide k }
    ensures { result ≡ port_words k }
{
    [
        pack(k.at, k.soak),
        pack(k.before, k.count),
        pack(k.after, k.total),
        pack(k.room, k.hop),
        pack(k.fired, usize::from(k.keeps)),
    ]
}

// The words of the row of a pipe's ends: what is not among them follows from what is.
fn end_words(e: End) -> [u32; END]
    requires { EndWide e }
    ensures { result ≡ end_words e }
{
    [
        pack(e.sent, e.offset),
        pack(e.after, e.total),
        pack(e.before, e.hop),
    ]
}

// The row of a port goes to place `at`.
pub fn put_port(ports: &mut [u32], at: usize, k: Port)
    requires { (at + 5 ≤ length ports.old) × (PortWide k) }
    ensures { ports.new ≡ stored (port_words k) at 5 ports.old }
{
    words::store(ports, at, &port_words(k));
}

// The row of a pipe's ends. Beside `put_port`: each is one call of `store`, and a function over both would take the row's words.
pub fn put_end(ports: &mut [u32], at: usize, e: End)
    requires { (at + 3 ≤ length ports.old) × (EndWide e) }
    ensures { ports.new ≡ stored (end_words e) at 3 ports.old }
{
    words::store(ports, at, &end_words(e));
}

// The port's row at place `at`.
fn port_read(ports: &[u32], at: usize) -> Port
    requires { (at + 5 ≤ length ports.now) × (length ports.now ≤ 4294967296) }
    ensures { result ≡ port_read ports.now at }
{
    Port {
        at: low(ports, at),
        before: low(ports, at + 1),
        after: low(ports, at + 2),
        room: low(ports, at + 3),
        fired: low(ports, at + 4),
        hop: high(ports, at + 3),
        soak: high(ports, at),
        count: high(ports, at + 1),
        total: high(ports, at + 2),
        keeps: high(ports, at + 4) != 0,
    }
}

// The row of a pipe's ends at place `at`.
fn end_read(ports: &[u32], at: usize) -> End
    requires { (at + 3 ≤ length ports.now) × (length ports.now ≤ 4294967296) }
    ensures { result ≡ end_read ports.now at }
{
    let sent = low(ports, at);
    let after = low(ports, at + 1);
    End {
        sent,
        after,
        room: after + 4,
        before: low(ports, at + 2),
        received: sent + 1,
        last: sent + 2,
        hop: high(ports, at + 2),
        total: high(ports, at + 1),
        offset: high(ports, at),
    }
}

// The row of process p and stream i.
pub fn port(ports: &[u32], p: usize, i: usize) -> Port
    requires { (length ports.now ≡ port_table_words) × (p < gauge_limits.processes) × (i < 6) }
    ensures { result ≡ port_at ports.now p i }
{
    port_read(ports, PROCESS * p + PORT * i)
}

// The row of pipe q.
pub fn end(ports: &[u32], q: usize) -> End
    requires { (length ports.now ≡ port_table_words) × (q < pipes_most) }
    ensures { result ≡ end_at ports.now q }
{
    end_read(ports, PIPE_ROWS + END * q)
}

// The rows of process p.
pub fn ports_of(ports: &[u32], p: usize) -> [Port; 6]
    requires { (length ports.now ≡ port_table_words) × (p < gauge_limits.processes) }
    ensures { result ≡ ports_at ports.now p }
{
    std::array::from_fn(|i| port(ports, p, i))
}
