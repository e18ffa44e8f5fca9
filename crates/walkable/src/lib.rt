// Refusals 33 and 1 to 10, those in which no stream has a part: what none of them refuses has a walk. The survey of a description is made
// here, once a call, and the words of its processes and of its walk are filled. In specs/, Walkable says what is then known of its loops.

#![tactic(auto)]

ghost use Rattle.std.specs.Prelude.{◌≡◌, IfOk, OnErr};
ghost use Rattle.refusals.specs.Numbers.{refusal_number};
ghost use Rattle.meaning.specs.Tests.{refusal};
ghost use Rattle.meaning.specs.Limits.{limits_of, gauge_limits, UpTo};
ghost use Rattle.meaning.specs.Walk.{walk_refusal};
ghost use Rattle.survey.specs.Stages.{early_tests};
ghost use Rattle.survey.specs.OfBytes.{SurveyOf};
ghost use Rattle.layout.specs.Spans.{Spans};
ghost use Rattle.walk.specs.Walked.{Along};

use layout::SPANS;
use meaning::Limits;
use refusals::Refusal;
use survey::Survey;
use walk::WALK;

// The first of the refusals 33 and 1 to 5 that applies; 33 is another board word than 0 and 1.
fn early_refusal(s: &[u8], limits: Limits) -> Result<(), Refusal>
    ensures { refusal_number result ≡ refusal (early_tests limits s.now) }
{
    if 1 < limits.board {
        return Err(Refusal::Board);
    }
    refuse_words::refusal(s)
}

// The survey of a description, or the first of the refusals 33 and 1 to 10 that applies.
fn nest_survey(s: &[u8], limits: Limits) -> Result<Survey, Refusal>
    ensures number { refusal_number result ≡ walk_refusal limits s.now }
    ensures surveyed { IfOk result (λ v. SurveyOf s.now v) }
{
    early_refusal(s, limits)?;
    let v = survey::survey_of(decode::description(s));
    refuse_nest::nest_refusal(v.description.nest, v.loops, limits)?;
    Ok(v)
}

// The same; the words of the processes are filled where there is no such refusal, else they stay.
pub fn survey_within(s: &[u8], limits: Limits, spans: &mut [u32; SPANS]) -> Result<Survey, Refusal>
    requires { UpTo limits gauge_limits }
    ensures number { refusal_number result ≡ walk_refusal limits s.now }
    ensures surveyed { IfOk result (λ v. (SurveyOf s.now v) × (Spans v.description.nest spans.new)) }
    ensures kept { OnErr result (spans.new ≡ spans.old) }
{
    let v = nest_survey(s, limits)?;
    layout::fill_processes(v.description.nest, v.loops, spans);
    Ok(v)
}

// The same on a board, and so of the words of the walk.
pub fn walk_of(
    board: u32,
    s: &[u8],
    spans: &mut [u32; SPANS],
    walk: &mut [i8; WALK],
) -> Result<Survey, Refusal>
    ensures number { refusal_number result ≡ walk_refusal (limits_of board) s.now }
    ensures surveyed { IfOk result (λ v. (SurveyOf s.now v) × (Spans v.description.nest spans.new) × (Along v.description.nest walk.new)) }
    ensures kept { OnErr result ((spans.new ≡ spans.old) × (walk.new ≡ walk.old)) }
{
    let v = survey_within(s, boards::limits_of(board), spans)?;
    walk::fill_walk(v.description.nest, v.loops, spans, walk);
    Ok(v)
}
