// The tests of document 01's refusals 11 to 16 of one stream, over its vectors alone.

#![tactic(auto)]

ghost use Rattle.std.specs.Prelude.{◌≡◌};
ghost use Rattle.meaning.specs.Accept.{refused11, refused12, refused13, refused14, refused15, refused16};
ghost use Rattle.survey.specs.Surveys.{Charted};

use meaning::Limits;
use survey::Flow;

// Refusal 11: index map of low rank, whose divisor is 0.
pub fn rank_refused(f: Flow) -> bool
    requires { Charted f }
    ensures { result ≡ refused11 f.stream }
{
    f.divisor == 0
}

// Refusal 12: a line of step 0.
pub fn line_refused(f: Flow) -> bool
    requires { Charted f }
    ensures { result ≡ refused12 f.nest f.stream }
{
    survey::still(f.nest, f.line)
}

// Refusal 13: a component of the move outside −1 to 1; a loading vector has none.
pub fn move_refused(f: Flow) -> bool
    requires { Charted f }
    ensures { result ≡ refused13 f.nest f.stream }
{
    !survey::small2(f.way)
}

// Refusal 14: moving with a hop over the limit.
pub fn hop_refused(f: Flow, limits: Limits) -> bool
    requires { Charted f }
    ensures { result ≡ refused14 limits f.nest f.stream }
{
    f.moving && limits.hop < f.hop
}

// Refusal 15: written, with a line against the directions.
pub fn order_refused(f: Flow, written: bool) -> bool
    requires { Charted f }
    ensures { result ≡ refused15 written f.nest f.stream }
{
    written && vectors::against(f.nest.direction, f.line)
}

// Refusal 16: moving with a loading vector, or stationary with none.
pub fn loading_refused(f: Flow) -> bool
    requires { Charted f }
    ensures { result ≡ refused16 f.nest f.stream }
{
    let loading = f.stream.loading;
    if f.moving {
        !survey::zero2(loading)
    } else {
        survey::zero2(loading)
    }
}
