// Whether a description is accepted, and why it is refused: 33 of request 2.9 and document 01's refusals 1 to 17, the first that applies.
// The survey, made after 5, and the words of the processes, filled after 10, are handed on.

#![tactic(auto)]

ghost use Rattle.std.specs.Prelude.{◌≡◌, length, IfOk};
ghost use Rattle.refusals.specs.Numbers.{refusal_number};
ghost use Rattle.meaning.specs.Tests.{refusal};
ghost use Rattle.meaning.specs.Limits.{limits_of, gauge_limits, UpTo};
ghost use Rattle.meaning.specs.Description.{streams_of};
ghost use Rattle.meaning.specs.Accept.{tests_from, refusal_of};
ghost use Rattle.decode.specs.Ranged.{Ranged};
ghost use Rattle.survey.specs.OfBytes.{SurveyOf};
ghost use Rattle.layout.specs.Spans.{Spans, span_words};
ghost use Rattle.walk.specs.Walked.{Along, Walkable};

use layout::SPANS;
use meaning::Limits;
use refusals::Refusal;
use survey::Survey;
use walk::WALK;

// The first of the refusals 11 to 17 that applies to a stream, lowest first.
fn streams_refusal(v: Survey, limits: Limits, walk: &[i8]) -> Result<(), Refusal>
    requires { (Ranged v.description) × (Along v.description.nest walk.now) }
    ensures { refusal_number result ≡ refusal (tests_from limits v.description 0 (streams_of v.description)) }
{
    let d = v.description;
    let m = d.sizes.streams;
    for i in 0..m {
        let f = survey::flow_at(v.flows, i as usize);
        refuse_stream::stream_refusal(f, v.loops, decode::written(d, i), limits, walk)?;
    }
    Ok(())
}

// The same by the words of the processes.
fn walked_refusal(v: Survey, limits: Limits, spans: &[u32; SPANS]) -> Result<(), Refusal>
    requires { (Ranged v.description) × (Walkable v.description.nest) × (Spans v.description.nest spans.now) }
    ensures { refusal_number result ≡ refusal (tests_from limits v.description 0 (streams_of v.description)) }
{
    let mut walk = [0i8; WALK];
    walk::fill_walk(v.description.nest, v.loops, spans, &mut walk);
    streams_refusal(v, limits, &walk)
}

// The survey of a description, or its refusal; where it is accepted, count, first and last instance of its processes are filled.
pub fn survey_within(s: &[u8], limits: Limits, spans: &mut [u32; SPANS]) -> Result<Survey, Refusal>
    requires { UpTo limits gauge_limits }
    ensures number { refusal_number result ≡ refusal_of limits s.now }
    ensures surveyed { IfOk result (λ v. (SurveyOf s.now v) × (Spans v.description.nest spans.new)) }
{
    let v = walkable::survey_within(s, limits, spans)?;
    walked_refusal(v, limits, spans)?;
    Ok(v)
}

// The same on a board.
pub fn survey_of(board: u32, s: &[u8], spans: &mut [u32; SPANS]) -> Result<Survey, Refusal>
    ensures number { refusal_number result ≡ refusal_of (limits_of board) s.now }
    ensures surveyed { IfOk result (λ v. (SurveyOf s.now v) × (Spans v.description.nest spans.new)) }
{
    survey_within(s, boards::limits_of(board), spans)
}
