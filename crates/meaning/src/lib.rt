// The types of the calls. What they mean is in specs/, one definition for each word of document 01, in its order, as the requests of
// document 02 leave it:
//
//   Limits            the boards: their limits of refusals 6, 10 and 14, the former ones, and how many words they allow a state
//   Lists, Tests      small helpers: lists filtered and searched, refusals tried in order
//   Loops             instances, their written order, step, place; the vector before shortening, line and divisor of a matrix; increment
//   Space             boxes, row order, the process space; count, first and last
//   Streams           line, move, hop; a stream's box and elements
//   Pipes             pipes, their processes and elements; soak and drain
//   Operations        what the operations of body lines do, and the last of them
//   Guards            whether a body line runs at an instance
//   Description       bytes to words, lengths, ranges, decoding
//   Body              lines, one instance on a store, the plain run
//   Ranges, Lines     laws of ranges and of lines that mathematics and code share
//   Parts             parts of descriptions that are read from the same words are the same
//   Accept            the refusals 33 and 1 to 17 without 9, named one by one and chained; the figures and the divisors
//   Points, Sorted    points, lines, boxes and lists in order as propositions
//   Array, State      what the rules look at; the words of the state and where they stand
//   Rules             send, take, fire, give, receive: ready and apply; sound; the lowest ready step
//   Answers, Calls    the numbers and values of answers; the nine calls: the answer and every lent list afterwards
//   Generator         request 2.3: rounds of the generator, and the calls Fill and Make
//   StepVectors       request 2.10: the description with every small step vector, and the call Step vectors
//   Conditions        the conditions of acceptance said a second time, as propositions; demand 2: accepted and refused exactly by them
//   Demand1           what all calls have in common: numbers and values of answers, nothing changed, nothing written beyond
//   Alike             one description under two limits, call by call: answered alike, or declined
//   Demand2           what Table leaves, every pass of the loops by one processor, what Plain run leaves
//   Demand3           lists of calls, each told a board, and what holds after every one of them
//   FivePlaces        request 2.8: what the lower limit of refusal 14 changes, and what it leaves
//   LongerStrides     request 2.2: what Accept answers without refusal 9, and that first and last are outermost
//   Leaves            what operations put, when a line runs and what loops leave, as propositions; by the plain run and by the network
//   FixedPoint        request 2.1: what Accept answers to operation 6
//   GuardedLines      request 2.5: what Accept answers to descriptions of the older length and to guards, and when lines run
//   CommonDivisors    request 2.7: what the divisors in Accept's answer are, and how far apart they say that values and working processes
//                     lie
//   Walk              request 2.4: the walk by process, what a whole walk comes to, and Accept with the check along it
//   BenchBoard        request 2.9: what a board word changes, and what it leaves
//   GeneratedLoad     request 2.3: what Fill and Make leave, by places and words, and that states and seeds are told apart
//   HowManyWork       request 2.10: what Step vectors leaves, count by count, and that the vectors are all there, each once
//   Designs           the documents' designs as bytes
//   Singles           cases that hold the rules, computed as one table (Comparison): tables, single steps and declined calls; `cases` has
//                     document 01's cases marked P, and `whole_runs` whole runs
//   Loads             cases of request 2.3, computed as one table
//   Choices           cases of request 2.10, computed as one table
//
// Two loops are three, the third running from 0 to 0: its direction is 1, its step coefficient 0; place and every index map get a second
// row (0, 0, 1), and a loading vector a second component 0. Then one set of definitions serves both.

#![tactic(auto)]

use integers::{Matrix, V2, V3};

// What each board holds (`Limits.limits_of`), and the longest hop.
pub const GAUGE_INSTANCES: u32 = 4096;

pub const GAUGE_PROCESSES: u32 = 1024;

pub const BENCH_INSTANCES: u32 = 1024;

pub const BENCH_PROCESSES: u32 = 256;

pub const HOP: u32 = 5;

// The words of a body line (`Description.line_words`) and the last operation (`Operations.last_operation`).
pub const LINE_WORDS: u32 = 7;

pub const LAST_OPERATION: u32 = 6;

// The lengths of lists that a description fits on either board. Every element is touched, so a stream has no more elements than there are
// instances; every pipe has an entry of its own, so it has no more pipes than there are processes.
pub const INSTANCES: usize = GAUGE_INSTANCES as usize;

pub const PROCESSES: usize = GAUGE_PROCESSES as usize;

pub const STREAMS: usize = 6;

pub const ELEMENTS: usize = STREAMS * INSTANCES;

pub const PIPES: usize = STREAMS * PROCESSES;

// The answers that Step vectors counts (`StepVectors.answer_count`).
pub const ANSWERS: usize = 18;

// The words of a state (docs/STATE.md).
pub const STATE_WORDS: usize = PROCESSES * (1 + STREAMS * (4 + HOP as usize))
    + PIPES * (2 + HOP as usize);

// A description's three sizes: loops r, streams m, body lines b.
#[derive(Clone, Copy)]
pub struct Sizes {
    pub loops: u32,
    pub streams: u32,
    pub lines: u32,
}

// A range of words, from the least to the greatest.
#[derive(Clone, Copy)]
pub struct Range {
    pub least: i32,
    pub greatest: i32,
}

// The loops with their layout: left and right bounds, directions, step coefficients, place.
#[derive(Clone, Copy)]
pub struct Nest {
    pub left: V3,
    pub right: V3,
    pub direction: V3,
    pub step: V3,
    pub place: Matrix,
}

// A stream: its index map and its loading vector.
#[derive(Clone, Copy)]
pub struct Stream {
    pub map: Matrix,
    pub loading: V2,
}

// A body line: operation, target, first and second operand; its guard: a loop number, a comparison and a bound.
#[derive(Clone, Copy)]
pub struct Line {
    pub operation: u32,
    pub target: u32,
    pub first: u32,
    pub second: u32,
    pub index: u32,
    pub comparison: u32,
    pub bound: i32,
}

// A decoded description. Streams and lines past the sizes are zero.
#[derive(Clone, Copy)]
pub struct Description {
    pub sizes: Sizes,
    pub nest: Nest,
    pub streams: [Stream; 6],
    pub lines: [Line; 8],
}

// A board word, and that board's limits of refusals 6, 10 and 14.
#[derive(Clone, Copy)]
pub struct Limits {
    pub board: u32,
    pub instances: u32,
    pub processes: u32,
    pub hop: u32,
}

// What Accept answers: processes, instances, elements of all streams, pipes, words of a state, steps of a whole run.
#[derive(Clone, Copy)]
pub struct Figures {
    pub processes: u32,
    pub instances: u32,
    pub elements: u32,
    pub pipes: u32,
    pub words: u32,
    pub steps: u32,
}

// And the divisors that the shortening rule took out, of place and of each stream's index map; 0 past the streams in use.
#[derive(Clone, Copy)]
pub struct Divisors {
    pub place: u32,
    pub stream0: u32,
    pub stream1: u32,
    pub stream2: u32,
    pub stream3: u32,
    pub stream4: u32,
    pub stream5: u32,
}

// A row of the table.
#[derive(Clone, Copy)]
pub struct Row {
    pub point: V2,
    pub count: u32,
    pub first: V3,
    pub last: V3,
    pub soak: [u32; 6],
    pub drain: [u32; 6],
}

// What Run answers: the steps done, and whether any is ready.
#[derive(Clone, Copy)]
pub struct Ran {
    pub steps: u32,
    pub ready: bool,
}

// What Ready answers: how many processes can take, fire or give, and the lowest (the number of processes when none).
#[derive(Clone, Copy)]
pub struct Readiness {
    pub count: u32,
    pub lowest: u32,
}

// A step of the network: send and receive of a pipe, take and give of a process and a stream, fire of a process.
#[derive(Clone, Copy)]
pub enum Step {
    Send(usize),
    Take(usize, usize),
    Fire(usize),
    Give(usize, usize),
    Receive(usize),
}
