// A stream's pipes one by one, in row order of their entries: which processes are entries, how many elements their pipes have, and what the
// rows of a pipe's processes read at its entry.
//
// specs/, by file:
//
//   Entries   an entry of a pipe by the lanes
//   Starts    the entries before a process, and the elements of their pipes
//   Heads     what the heads say of a pipe, by its entry: `pipe-elements`

#![tactic(auto)]

ghost use Rattle.std.specs.Prelude.{◌≡◌, ◌&&◌, ◌≤◌, ◌<◌, length};
ghost use Rattle.meaning.specs.Limits.{gauge_limits};
ghost use Rattle.meaning.specs.Pipes.{is_entry, is_pipe};
ghost use Rattle.layout.specs.Spans.{process_of};
ghost use Rattle.pipes.specs.Elements.{Near};
ghost use Rattle.pipe_parts.specs.Starts.{entering_length};
ghost use Rattle.pipe_parts.specs.Heads.{head_words, headed};

use meaning::PROCESSES;
use survey::Flow;

// The words of the heads: for each process how many pipes enter before it, and from this word on how many elements the pipe has that enters
// there. They fit 16 bits.
pub const TOTALS: usize = PROCESSES;

pub const HEADS: usize = 2 * PROCESSES;

// Whether process p is the entry of a pipe.
pub fn is_entry(f: Flow, spans: &[u32], lanes: &[u16], p: usize) -> bool
    requires { Near f spans.now lanes.now p }
    ensures { result ≡ is_entry f.nest f.stream (process_of f.nest p) && is_pipe f.nest f.stream (process_of f.nest p) }
{
    pipes::entry_at(f, spans, lanes, p) == p && pipes::held_at(f, spans, lanes, p) != 0
}

// The elements that the pipe of process p has, if p is its entry.
pub fn entering_length(f: Flow, spans: &[u32], lanes: &[u16], p: usize) -> u32
    requires { Near f spans.now lanes.now p }
    ensures { (result ≡ entering_length f.nest f.stream p) × (result ≤ gauge_limits.instances) }
{
    if is_entry(f, spans, lanes, p) {
        pipes::total_at(f, spans, lanes, p)
    } else {
        0
    }
}

// At process p: so many pipes enter before it, and the pipe that enters there has so many elements.
pub fn put_head(heads: &mut [u16], p: usize, count: u32, total: u32)
    requires { (p < gauge_limits.processes) × (length heads.old ≡ head_words) × (count ≤ gauge_limits.processes)
        × (total ≤ gauge_limits.instances) }
    ensures { heads.new ≡ headed heads.old p count total }
{
    heads[p] = count as u16;
    heads[TOTALS + p] = total as u16;
}
