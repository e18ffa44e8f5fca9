// The call Window: a pipe's part of the waiting values or of the received ones.
//
// specs/, by file:
//
//   Search    a pipe looked for by its number, over the pipes' numbers of elements
//   Pieces    where a pipe's part lies; the call's own refusals, and what it answers

#![tactic(auto)]

ghost use Rattle.std.specs.Prelude.{◌≡◌, cond, ◌+◌, ◌-◌, ◌≤◌, eqb, ltb, length, take, drop, IfOk};
ghost use Rattle.refusals.specs.Numbers.{refusal_number};
ghost use Rattle.meaning.specs.Limits.{limits_of, gauge_limits, UpTo};
ghost use Rattle.meaning.specs.Tests.{refusal};
ghost use Rattle.meaning.specs.Description.{streams_of, description_of};
ghost use Rattle.meaning.specs.Array.{array_of, pipe_number};
ghost use Rattle.meaning.specs.Calls.{refused_by, window};
ghost use Rattle.layout.specs.Spans.{process_of, Spans};
ghost use Rattle.lanes.specs.Flow.{Flowing};
ghost use Rattle.pipes.specs.Elements.{Near};
ghost use Rattle.pipe_parts.specs.Starts.{Counting};
ghost use Rattle.figures.specs.Shares.{Described};
ghost use Rattle.window.specs.Search.{counted, searched, looking, visited, stream_lengths, all_lengths};
ghost use Rattle.window.specs.Pieces.{Windowed, own_tests, piece_of, Within};

use lanes::LANES;
use layout::SPANS;
use meaning::Limits;
use refusals::Refusal;
use survey::{Flow, Survey};

// A pipe looked for: how many are still to be passed over, the elements of those that were, and its own once it is found.
#[derive(Clone, Copy)]
struct Search {
    left: u32,
    start: u32,
    length: Option<u32>,
}

// Where the part begins and how long it is.
#[derive(Clone, Copy)]
pub struct Piece {
    pub from: u32,
    pub length: u32,
}

// ---- a pipe by its number

// A further pipe, of so many elements.
fn counted(w: Search, length: u32) -> Search
    requires { (w.start ≤ 30000000) × (length ≤ gauge_limits.instances) }
    ensures { (result ≡ counted w length) × (result.start ≤ w.start + length) }
{
    match w.length {
        Some(_) => w,
        None => {
            if w.left == 0 {
                Search {
                    left: w.left,
                    start: w.start,
                    length: Some(length),
                }
            } else {
                Search {
                    left: w.left - 1,
                    start: w.start + length,
                    length: None,
                }
            }
        }
    }
}

// The pipe that enters at process p, if one does.
fn visited(f: Flow, spans: &[u32], lanes: &[u16], p: usize, w: Search) -> Search
    requires { (Near f spans.now lanes.now p) × (w.start ≤ 30000000) }
    ensures { (result ≡ visited f.nest f.stream (process_of f.nest p) w) × (result.start ≤ w.start + gauge_limits.instances) }
{
    if pipe_parts::is_entry(f, spans, lanes, p) {
        counted(w, pipes::total_at(f, spans, lanes, p))
    } else {
        w
    }
}

// The pipes of a stream.
fn searched(f: Flow, processes: u32, spans: &[u32], lanes: &[u16], first: Search) -> Search
    requires { (Counting f processes spans.now lanes.now) × (first.start ≤ 25165824) }
    ensures { (result ≡ searched first (stream_lengths f.nest f.stream)) × (result.start ≤ first.start + 4194304) }
{
    let mut w = first;
    for p in 0..processes {
        w = visited(f, spans, lanes, p as usize, w);
    }
    w
}

// The same with lanes that it fills itself.
fn stream_searched(f: Flow, processes: u32, spans: &[u32], w: Search) -> Search
    requires { (Flowing f processes spans.now) × (w.start ≤ 25165824) }
    ensures { (result ≡ searched w (stream_lengths f.nest f.stream)) × (result.start ≤ w.start + 4194304) }
{
    let mut lanes = [0u16; LANES];
    lanes::fill_lanes(f, processes, spans, &mut lanes);
    searched(f, processes, spans, &lanes, w)
}

// The pipes of all streams.
fn all_searched(v: Survey, spans: &[u32; SPANS], pipe: u32) -> Search
    requires { (Described v.description) × (Spans v.description.nest spans.now) }
    ensures { (result ≡ searched (looking pipe 0) (all_lengths v.description.nest (streams_of v.description)))
        × (result.start ≤ 25165824) }
{
    let m = v.description.sizes.streams;
    let processes = v.loops.processes;
    let mut w = Search {
        left: pipe,
        start: 0,
        length: None,
    };
    for i in 0..m {
        w = stream_searched(survey::flow_at(v.flows, i as usize), processes, spans, w);
    }
    w
}

// ---- the call

// The part of a pipe, if there is such a pipe.
fn located(v: Survey, spans: &[u32; SPANS], pipe: u32) -> Result<Piece, Refusal>
    requires { (Windowed v.description) × (Spans v.description.nest spans.now) }
    ensures number { refusal_number result ≡ cond (ltb pipe (pipe_number (array_of v.description))) 0 19 }
    ensures part { IfOk result (λ p. p ≡ piece_of v.description pipe) }
{
    let w = all_searched(v, spans, pipe);
    match w.length {
        Some(length) => Ok(Piece {
            from: w.start,
            length,
        }),
        None => Err(Refusal::Pipe),
    }
}

// The part once the description is accepted, of lists of so many words.
fn accepted_piece(
    v: Survey,
    spans: &[u32; SPANS],
    pipe: u32,
    side: u32,
    waiting: usize,
    received: usize,
) -> Result<Piece, Refusal>
    requires { (Windowed v.description) × (Spans v.description.nest spans.now) }
    ensures number { refusal_number result ≡ refusal (own_tests v.description pipe side waiting received) }
    ensures part { IfOk result (λ p. (p ≡ piece_of v.description pipe) × (Within p waiting received)) }
{
    let e = elements::element_count(v);
    declines::of_window(e, side, waiting, received)?;
    located(v, spans, pipe)
}

// Where the part lies, by the bytes of the description, of lists of so many words.
fn piece_within(
    s: &[u8],
    limits: Limits,
    pipe: u32,
    side: u32,
    waiting: usize,
    received: usize,
) -> Result<Piece, Refusal>
    requires { UpTo limits gauge_limits }
    ensures number { refusal_number result
        ≡ refused_by limits s.now (own_tests (description_of s.now) pipe side waiting received) }
    ensures part { IfOk result (λ p. (p ≡ piece_of (description_of s.now) pipe) × (Within p waiting received)) }
{
    let mut spans = [0u32; SPANS];
    let v = refuse::survey_within(s, limits, &mut spans)?;
    accepted_piece(v, &spans, pipe, side, waiting, received)
}

// The same on a board.
pub fn piece_of(
    board: u32,
    s: &[u8],
    pipe: u32,
    side: u32,
    waiting: usize,
    received: usize,
) -> Result<Piece, Refusal>
    ensures number { refusal_number result
        ≡ refused_by (limits_of board) s.now (own_tests (description_of s.now) pipe side waiting received) }
    ensures part { IfOk result (λ p. (p ≡ piece_of (description_of s.now) pipe) × (Within p waiting received)) }
{
    piece_within(s, boards::limits_of(board), pipe, side, waiting, received)
}

// A part of the one list or of the other.
fn part_of<'a>(
    waiting: &'a [u32],
    received: &'a [u32],
    side: u32,
    from: usize,
    to: usize,
) -> &'a [u32]
    requires { (from ≤ to) × (to ≤ length waiting.now) × (to ≤ length received.now) }
    ensures { result.now ≡ take (to - from) (drop from (cond (eqb side 0) waiting.now received.now)) }
{
    if side == 0 {
        &waiting[from..to]
    } else {
        &received[from..to]
    }
}

// WINDOW
pub fn window<'a>(
    board: u32,
    s: &[u8],
    pipe: u32,
    side: u32,
    waiting: &'a [u32],
    received: &'a [u32],
) -> Result<&'a [u32], Refusal>
    ensures number { refusal_number result
        ≡ (window (limits_of board) s.now pipe side waiting.now received.now).refusal }
    ensures part { IfOk result (λ part. part.now
        ≡ (window (limits_of board) s.now pipe side waiting.now received.now).part) }
{
    let piece = piece_of(board, s, pipe, side, waiting.len(), received.len())?;
    let from = piece.from as usize;
    let to = from + piece.length as usize;
    Ok(part_of(waiting, received, side, from, to))
}
