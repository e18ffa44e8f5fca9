// The survey of a description: what follows from its loops and its streams alone, worked out once a call and handed on. Of the loops the
// increment and the process space, of each stream its line, move, hop and box. And the theory of the refusals: 1 to 5 are tested in
// `refuse_words`, those of a nest in `refuse_nest`, of a stream in `refuse_stream`, and all in their order in `refuse`.
//
// specs/, by file:
//
//   InRange     what the refusals 1 to 5 leave of a nest and of a stream, in the words of the crates that compute with them
//   Small       tests on small words as the code makes them; the step of a line is not negative; rank by the divisor
//   Surveys     what a survey holds: `GroundOf`, `FlowOf`, `IsSurvey`
//   OfBytes     that a survey is that of some bytes: `SurveyOf`
//   Grounds     the tests of the loops by their ground
//   Stages      the refusals 33 and 6 to 17 in stages, each a test or two and the stage after them; lists of tests one after the other
//   Accepted    `accepted-within`: what a refusal of 0 leaves of ranges, instances, processes, moves and hops
//   StateWords  `process-words`, `end-words`: how many words processes and pipes have at most

#![tactic(auto)]

ghost use Rattle.std.specs.Prelude.{◌≡◌, ◌&&◌, cond, ◌<◌, pos, nat_abs, length, get_or};
ghost use Rattle.integers.specs.Words.{eq_z};
ghost use Rattle.integers.specs.Vectors.{zero2};
ghost use Rattle.meaning.specs.Loops.{step_of};
ghost use Rattle.meaning.specs.Space.{eq2};
ghost use Rattle.meaning.specs.Pipes.{backward};
ghost use Rattle.meaning.specs.Description.{streams_of};
ghost use Rattle.meaning.specs.Accept.{small};
ghost use Rattle.vectors.specs.Within.{Within, Within2};
ghost use Rattle.decode.specs.Ranged.{Ranged};
ghost use Rattle.numbering.specs.Ranges.{Bounded};
ghost use Rattle.survey.specs.InRange.{InRange};
ghost use Rattle.survey.specs.Surveys.{IsSurvey, GroundOf, FlowOf, FlowsOf, no_flow};

use integers::{Matrix, V2, V3};
use meaning::{Description, Nest, STREAMS, Stream};
use numbering::Extent;

// Of the loops: how many instances and processes there are, the increment and its divisor, and the process space.
#[derive(Clone, Copy)]
pub struct Ground {
    pub instances: u32,
    pub processes: u32,
    pub increment: V3,
    pub divisor: u32,
    pub space: Extent,
}

// A stream in its nest: its line with its divisor, and its hop; the process space and its own box; its move and index map times increment,
// each also turned round; by how much its move changes a process's number; whether it moves, and whether its move leads back in row order.
#[derive(Clone, Copy)]
pub struct Flow {
    pub nest: Nest,
    pub stream: Stream,
    pub line: V3,
    pub divisor: u32,
    pub hop: u32,
    pub space: Extent,
    pub elements: Extent,
    pub way: V2,
    pub back: V2,
    pub pass: V2,
    pub against: V2,
    pub step: i32,
    pub moving: bool,
    pub turned: bool,
}

// What is known of a description.
#[derive(Clone, Copy)]
pub struct Survey {
    pub description: Description,
    pub loops: Ground,
    pub flows: [Flow; STREAMS],
    pub ghost surveyed: { IsSurvey description loops flows },
}

// ---- vectors

// Whether a component lies from −1 to 1.
fn small(c: i32) -> bool
    ensures { result ≡ small c }
{
    integers::magnitude(c) <= 1
}

// Whether both components of a point do.
pub fn small2(p: V2) -> bool
    requires { Within2 4800 p }
    ensures { result ≡ small p.a && small p.b }
{
    small(p.a) && small(p.b)
}

// Whether a point is zero.
pub fn zero2(p: V2) -> bool
    requires { Within2 4800 p }
    ensures { result ≡ eq2 p zero2 }
{
    p.a == 0 && p.b == 0
}

// Whether a line has step 0.
pub fn still(n: Nest, line: V3) -> bool
    requires { (Within 8 n.step) × (Within 200 line) }
    ensures { result ≡ eq_z (step_of n line) (pos 0) }
{
    vectors::dot_of(n.step, line) == 0
}

// Whether a vector leads back in row order.
fn backward(v: V2) -> bool
    requires { Within2 4800 v }
    ensures { result ≡ backward v }
{
    if v.a == 0 { v.b < 0 } else { v.a < 0 }
}

// ---- the loops

fn ground_of(n: Nest) -> Ground
    requires { Bounded n }
    ensures { GroundOf n result }
{
    let short = vectors::line_of(n, n.place);
    let space = numbering::extent_of(n, n.place);
    Ground {
        instances: numbering::instance_count(n),
        processes: numbering::size_of(space),
        increment: short.vector,
        divisor: short.divisor,
        space,
    }
}

// ---- one stream

// The move of a stream whose line place sends to `across`: its loading vector if it is stationary.
fn way_of(s: Stream, across: V2, stationary: bool) -> V2
    requires { (Within2 1 s.loading) × (Within2 4800 across) }
    ensures { (result ≡ cond stationary s.loading across) × (Within2 4800 result) }
{
    if stationary { s.loading } else { across }
}

// The hop of a stream of that line.
fn hop_of(n: Nest, line: V3, stationary: bool) -> u32
    requires { (Within 8 n.step) × (Within 200 line) }
    ensures { result ≡ cond stationary 1 (nat_abs (step_of n line)) }
{
    if stationary {
        1
    } else {
        integers::magnitude(vectors::dot_of(n.step, line))
    }
}

fn flow_of(n: Nest, g: Ground, s: Stream) -> Flow
    requires { (InRange n s) × (GroundOf n g) }
    ensures { FlowOf n s result }
{
    let short = vectors::line_of(n, s.map);
    let line = short.vector;
    let across = vectors::image_of(n.place, line);
    let stationary = zero2(across);
    let way = way_of(s, across, stationary);
    let pass = vectors::image_of(s.map, g.increment);
    Flow {
        nest: n,
        stream: s,
        line,
        divisor: short.divisor,
        hop: hop_of(n, line, stationary),
        space: g.space,
        elements: numbering::extent_of(n, s.map),
        way,
        back: vectors::opposite(way),
        pass,
        against: vectors::opposite(pass),
        step: counting::stride_of(g.space, way),
        moving: !stationary,
        turned: backward(way),
    }
}

// ---- all streams

// What stands past the streams in use.
fn no_flow() -> Flow {
    let zero2 = V2 { a: 0, b: 0 };
    let zero3 = V3 { x: 0, y: 0, z: 0 };
    let still = Matrix {
        top: zero3,
        low: zero3,
    };
    let point = Extent {
        lo: zero2,
        hi: zero2,
    };
    Flow {
        nest: decode::no_nest(),
        stream: decode::no_stream(),
        line: zero3,
        divisor: 0,
        hop: 0,
        space: point,
        elements: point,
        way: zero2,
        back: zero2,
        pass: zero2,
        against: zero2,
        step: 0,
        moving: false,
        turned: false,
    }
}

fn flows_of(d: Description, g: Ground) -> [Flow; STREAMS]
    requires { (Ranged d) × (GroundOf d.nest g) }
    ensures { FlowsOf d result }
{
    let mut out = [no_flow(); STREAMS];
    for i in 0..d.sizes.streams as usize {
        out[i] = flow_of(d.nest, g, decode::stream(d, i));
    }
    out
}

// Flow i of a survey's flows.
pub fn flow_at(flows: [Flow; STREAMS], i: usize) -> Flow
    requires { i < 6 }
    ensures { result ≡ get_or flows i no_flow }
{
    flows[i]
}

// ---- a description

// The survey of a description whose words are in range.
pub fn survey_of(d: Description) -> Survey
    requires { (Ranged d) × (length (streams_of d) ≡ d.sizes.streams) }
    ensures { result.description ≡ d }
{
    let ground = ground_of(d.nest);
    Survey {
        description: d,
        loops: ground,
        flows: flows_of(d, ground),
    }
}
