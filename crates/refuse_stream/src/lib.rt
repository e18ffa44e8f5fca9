// Document 01's refusals 11 to 17, of one stream; the words of the walk are lent.

#![tactic(auto)]

ghost use Rattle.std.specs.Prelude.{◌≡◌};
ghost use Rattle.meaning.specs.Tests.{refusal};
ghost use Rattle.meaning.specs.Accept.{refused17, stream_tests};
ghost use Rattle.walk.specs.Walked.{Along};
ghost use Rattle.survey.specs.Stages.{late_tests, move_tests};
ghost use Rattle.survey.specs.Surveys.{GroundOf, Charted};
ghost use Rattle.refusals.specs.Numbers.{refusal_number};

use meaning::{INSTANCES, Limits};
use refusals::Refusal;
use survey::{Flow, Ground};

// Refusal 17: some element of the box is touched by no instance. With more elements than instances some are; else the walk tells.
fn elements_refused(f: Flow, g: Ground, walk: &[i8]) -> bool
    requires { (Charted f) × (GroundOf f.nest g) × (Along f.nest walk.now) }
    ensures { result ≡ refused17 f.nest f.stream }
{
    let elements = numbering::size_of(f.elements) as usize;
    let instances = g.instances as usize;
    if instances < elements {
        return true;
    }
    let mut marks = [false; INSTANCES];
    let form = counting::form_of(f.stream.map, f.elements);
    untouched::untouched(form, walk, instances, elements, &mut marks)
}

// The first of the refusals 16 and 17 that applies.
pub fn late_refusal(f: Flow, g: Ground, walk: &[i8]) -> Result<(), Refusal>
    requires { (Charted f) × (GroundOf f.nest g) × (Along f.nest walk.now) }
    ensures { refusal_number result ≡ refusal (late_tests f.nest f.stream) }
{
    if stream_tests::loading_refused(f) {
        return Err(Refusal::Loading);
    }
    if elements_refused(f, g, walk) {
        return Err(Refusal::Untouched);
    }
    Ok(())
}

// The same of 13 to 17.
fn move_refusal(
    f: Flow,
    g: Ground,
    written: bool,
    limits: Limits,
    walk: &[i8],
) -> Result<(), Refusal>
    requires { (Charted f) × (GroundOf f.nest g) × (Along f.nest walk.now) }
    ensures { refusal_number result ≡ refusal (move_tests limits f.nest written f.stream) }
{
    if stream_tests::move_refused(f) {
        return Err(Refusal::Move);
    }
    if stream_tests::hop_refused(f, limits) {
        return Err(Refusal::Hop);
    }
    if stream_tests::order_refused(f, written) {
        return Err(Refusal::Order);
    }
    late_refusal(f, g, walk)
}

// The same of 11 to 17.
pub fn stream_refusal(
    f: Flow,
    g: Ground,
    written: bool,
    limits: Limits,
    walk: &[i8],
) -> Result<(), Refusal>
    requires { (Charted f) × (GroundOf f.nest g) × (Along f.nest walk.now) }
    ensures { refusal_number result ≡ refusal (stream_tests limits f.nest written f.stream) }
{
    if stream_tests::rank_refused(f) {
        return Err(Refusal::MapRank);
    }
    if stream_tests::line_refused(f) {
        return Err(Refusal::StillLine);
    }
    move_refusal(f, g, written, limits, walk)
}
