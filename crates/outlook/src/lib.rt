// What a stream answers to any step vector, request 2.10: a vector turns its line one way or the other, and by the step that it gives the
// line the answer is one of four. In specs/, Outlooks says what these are, and that the answer is Accept's.

#![tactic(auto)]

ghost use Rattle.std.specs.Prelude.{◌≡◌, ◌&&◌, cond, ltb, nat_abs};
ghost use Rattle.refusals.specs.Numbers.{refusal_number};
ghost use Rattle.integers.specs.Differences.{Abs};
ghost use Rattle.integers.specs.Vectors.{neg3};
ghost use Rattle.meaning.specs.Accept.{against};
ghost use Rattle.meaning.specs.Streams.{line};
ghost use Rattle.vectors.specs.Within.{Within};
ghost use Rattle.survey.specs.Surveys.{GroundOf, Charted};
ghost use Rattle.walk.specs.Walked.{Along};
ghost use Rattle.outlook.specs.Outlooks.{OutlookOf, answer_at, answer_by};

use integers::V3;
use refusals::Refusal;
use survey::{Flow, Ground};

// A stream's line as some step turned it, whether the stream moves, and its answers: where the line's step is 0, where it is over the limit
// of hops, and else where it is positive and where it is negative.
#[derive(Clone, Copy)]
pub struct Outlook {
    pub line: V3,
    pub moving: bool,
    pub still: Result<(), Refusal>,
    pub leap: Result<(), Refusal>,
    pub onward: Result<(), Refusal>,
    pub back: Result<(), Refusal>,
}

// What stands past the streams in use.
pub fn no_outlook() -> Outlook {
    Outlook {
        line: V3 { x: 0, y: 0, z: 0 },
        moving: false,
        still: Ok(()),
        leap: Ok(()),
        onward: Ok(()),
        back: Ok(()),
    }
}

// Refusal 15 with the line turned round.
fn turned_refused(f: Flow, written: bool) -> bool
    requires { Charted f }
    ensures { result ≡ (written && against f.nest.direction (neg3 (line f.nest f.stream))) }
{
    let turned = vectors::negated(f.line);
    written && vectors::against(f.nest.direction, turned)
}

// 15, or what comes after it.
fn order_answer(against: bool, late: Result<(), Refusal>) -> Result<(), Refusal>
    ensures { refusal_number result ≡ cond against 15 (refusal_number late) }
{
    if against { Err(Refusal::Order) } else { late }
}

// 11 or 13, or what comes after them.
fn move_answer(rank: bool, wide: bool, later: Result<(), Refusal>) -> Result<(), Refusal>
    ensures { refusal_number result ≡ cond rank 11 (cond wide 13 (refusal_number later)) }
{
    if rank {
        return Err(Refusal::MapRank);
    }
    if wide {
        return Err(Refusal::Move);
    }
    later
}

// 11, or 12.
fn still_answer(rank: bool) -> Result<(), Refusal>
    ensures { refusal_number result ≡ cond rank 11 12 }
{
    if rank {
        Err(Refusal::MapRank)
    } else {
        Err(Refusal::StillLine)
    }
}

// The answers of a stream.
pub fn outlook_of(f: Flow, g: Ground, written: bool, walk: &[i8]) -> Outlook
    requires { (Charted f) × (GroundOf f.nest g) × (Along f.nest walk.now) }
    ensures { OutlookOf f.nest written f.stream result }
{
    let rank = stream_tests::rank_refused(f);
    let wide = stream_tests::move_refused(f);
    let against = stream_tests::order_refused(f, written);
    let turned = turned_refused(f, written);
    let late = refuse_stream::late_refusal(f, g, walk);
    Outlook {
        line: f.line,
        moving: f.moving,
        still: still_answer(rank),
        leap: move_answer(rank, wide, Err(Refusal::Hop)),
        onward: move_answer(rank, wide, order_answer(against, late)),
        back: move_answer(rank, wide, order_answer(turned, late)),
    }
}

// Whether it moves and that step is over the limit of hops.
fn leaps(moving: bool, hop: u32, step: i32) -> bool
    requires { Abs step 4800 }
    ensures { result ≡ (moving && ltb hop (nat_abs step)) }
{
    moving && hop < integers::magnitude(step)
}

// Its answer where a vector gives its line that step.
fn answer_at(o: Outlook, hop: u32, step: i32) -> Result<(), Refusal>
    requires { Abs step 4800 }
    ensures { refusal_number result ≡ answer_at o hop step }
{
    if step == 0 {
        o.still
    } else if leaps(o.moving, hop, step) {
        o.leap
    } else if step < 0 {
        o.back
    } else {
        o.onward
    }
}

// Its answer to a step vector, with the limit of hops.
pub fn answer_to(o: Outlook, hop: u32, v: V3) -> Result<(), Refusal>
    requires { (Within 200 o.line) × (Within 8 v) }
    ensures { refusal_number result ≡ answer_by o hop v }
{
    answer_at(o, hop, vectors::dot_of(v, o.line))
}
