// Accept: the figures of a description and its divisors, or the refusal. In specs/, Call says what the call answers.

#![tactic(auto)]

ghost use Rattle.std.specs.Prelude.{◌≡◌};
ghost use Rattle.refusals.specs.Numbers.{numbered};
ghost use Rattle.meaning.specs.Limits.{limits_of};
ghost use Rattle.meaning.specs.Accept.{accept, figures, divisors};
ghost use Rattle.figures.specs.Shares.{Described};
ghost use Rattle.layout.specs.Spans.{Spans};

use lanes::ALL;
use layout::SPANS;
use meaning::{Divisors, Figures};
use refusals::Refusal;
use survey::Survey;

// Of an accepted description. It is not inlined, so that its lanes and the lists of the survey are not on the stack together.
#[inline(never)]
fn numbers_of(v: Survey, spans: &[u32; SPANS]) -> (Figures, Divisors)
    requires { (Described v.description) × (Spans v.description.nest spans.now) }
    ensures { result ≡ (figures v.description, divisors v.description) }
{
    let mut lanes = [0u16; ALL];
    let figures = figures::figures_of(v, spans, &mut lanes);
    (figures, divisors::divisors_of(v))
}

// ACCEPT
pub fn accept(board: u32, s: &[u8]) -> Result<(Figures, Divisors), Refusal>
    ensures { numbered result ≡ accept (limits_of board) s.now }
{
    let mut spans = [0u32; SPANS];
    let v = refuse::survey_of(board, s, &mut spans)?;
    Ok(numbers_of(v, &spans))
}
