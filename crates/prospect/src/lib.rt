// The answers of a description to every step vector, request 2.10: what does not depend on the step is found once, at a step of its own
// along which the increment moves, so that there is a walk; a vector then costs dot products and comparisons.
//
// specs/, by file:
//
//   Own         the description at a step of its own, in range and laid out
//   Prospects   what a prospect holds, and that its answer to a vector is Accept's

#![tactic(auto)]

ghost use Rattle.std.specs.Prelude.{◌≡◌, false, ℕ, ◌≤◌, ◌<◌, pos, length, get_or};
ghost use Rattle.integers.specs.Vectors.{zero3, dot};
ghost use Rattle.refusals.specs.Numbers.{refusal_number};
ghost use Rattle.meaning.specs.Limits.{gauge_limits, UpTo};
ghost use Rattle.meaning.specs.Space.{processes};
ghost use Rattle.meaning.specs.Description.{streams_of};
ghost use Rattle.vectors.specs.Within.{Within};
ghost use Rattle.decode.specs.Ranged.{Ranged};
ghost use Rattle.numbering.specs.Ranges.{Bounded};
ghost use Rattle.walk.specs.Walked.{Along};
ghost use Rattle.outlook.specs.Outlooks.{no_outlook};
ghost use Rattle.prospect.specs.Own.{Own, Moved, Laid};
ghost use Rattle.prospect.specs.Prospects.{OutlooksOf, ProspectOf, first_by, used, Answering, answer_by};

use integers::V3;
use layout::SPANS;
use meaning::{Description, Limits, Nest, STREAMS};
use outlook::Outlook;
use refusals::Refusal;
use survey::Survey;
use walk::WALK;

// The increment as some step turned it, whether there are too many processes, and the outlooks of the streams with the limit of hops.
#[derive(Clone, Copy)]
pub struct Prospect {
    pub increment: V3,
    pub crowded: bool,
    pub streams: u32,
    pub hop: u32,
    pub outlooks: [Outlook; STREAMS],
}

// ---- a step of its own

// A step that a vector which is not zero moves along.
fn step_along(u: V3) -> V3
    requires { Within 200 u }
    ensures { (Within 1 result) × (dot result u ≡ pos 0 → u ≡ zero3) }
{
    if u.x != 0 {
        V3 { x: 1, y: 0, z: 0 }
    } else if u.y != 0 {
        V3 { x: 0, y: 1, z: 0 }
    } else {
        V3 { x: 0, y: 0, z: 1 }
    }
}

// The loops at such a step along their increment.
fn own_nest(n: Nest) -> Nest
    requires { Bounded n }
    ensures { Moved n result }
{
    let short = vectors::line_of(n, n.place);
    Nest {
        left: n.left,
        right: n.right,
        direction: n.direction,
        step: step_along(short.vector),
        place: n.place,
    }
}

// The survey of a description at such a step.
pub fn own_survey(d: Description) -> Survey
    requires { (Ranged d) × (length (streams_of d) ≡ d.sizes.streams) }
    ensures { Own d result }
{
    let streams = d.streams;
    let lines = d.lines;
    survey::survey_of(Description {
        sizes: d.sizes,
        nest: own_nest(d.nest),
        streams,
        lines,
    })
}

// ---- the outlooks

// Of all streams, by the walk.
fn outlooks_along(v: Survey, walk: &[i8]) -> [Outlook; STREAMS]
    requires { (Ranged v.description) × (Along v.description.nest walk.now) }
    ensures { OutlooksOf v.description result }
{
    let d = v.description;
    let mut out = [outlook::no_outlook(); STREAMS];
    for i in 0..d.sizes.streams {
        let f = survey::flow_at(v.flows, i as usize);
        out[i as usize] = outlook::outlook_of(f, v.loops, decode::written(d, i), walk);
    }
    out
}

// The same, by the words of the processes and of the walk, which are filled for it.
fn outlooks_of(v: Survey) -> [Outlook; STREAMS]
    requires { (Laid v) × (length (processes v.description.nest) ≤ gauge_limits.processes) }
    ensures { OutlooksOf v.description result }
{
    let n = v.description.nest;
    let mut spans = [0u32; SPANS];
    layout::fill_processes(n, v.loops, &mut spans);
    let mut walk = [0i8; WALK];
    walk::fill_walk(n, v.loops, &spans, &mut walk);
    outlooks_along(v, &walk)
}

// The same where there are not too many processes; else no stream is looked at.
fn outlooks_within(v: Survey, crowded: bool) -> [Outlook; STREAMS]
    requires { (Laid v) × (crowded ≡ false → length (processes v.description.nest) ≤ gauge_limits.processes) }
    ensures { crowded ≡ false → OutlooksOf v.description result }
{
    if crowded {
        [outlook::no_outlook(); STREAMS]
    } else {
        outlooks_of(v)
    }
}

// The prospect of a description that is surveyed at a step of its own.
pub fn prospect_of(v: Survey, limits: Limits) -> Prospect
    requires { (Laid v) × (UpTo limits gauge_limits) }
    ensures { ProspectOf limits v.description result }
{
    let crowded = refuse_nest::processes_refused(v.loops, limits);
    Prospect {
        increment: v.loops.increment,
        crowded,
        streams: v.description.sizes.streams,
        hop: limits.hop,
        outlooks: outlooks_within(v, crowded),
    }
}

// ---- answers

// Outlook i of a prospect.
fn outlook_at(p: Prospect, i: usize) -> Outlook
    requires { i < 6 }
    ensures { result ≡ get_or p.outlooks i no_outlook }
{
    p.outlooks[i]
}

// The first refusal of a stream to a step vector, if there is one.
fn streams_answer(p: Prospect, v: V3) -> Result<(), Refusal>
    requires { (Within 8 v) × (p.streams ≤ 6) × ((i : ℕ) → i < p.streams → Within 200 (get_or p.outlooks i no_outlook).line) }
    ensures { refusal_number result ≡ first_by p.hop v (used p) }
{
    for i in 0..p.streams as usize {
        outlook::answer_to(outlook_at(p, i), p.hop, v)?;
    }
    Ok(())
}

// Accept's answer to a step vector.
pub fn answer_to(p: Prospect, v: V3) -> Result<(), Refusal>
    requires { Answering p v }
    ensures { refusal_number result ≡ answer_by p v }
{
    if vectors::dot_of(v, p.increment) == 0 {
        return Err(Refusal::StillIncrement);
    }
    if p.crowded {
        return Err(Refusal::Processes);
    }
    streams_answer(p, v)
}
