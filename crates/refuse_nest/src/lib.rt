// Document 01's refusals 6, 7, 8 and 10, of the loops and their layout; 9 is never given (request 2.2).

#![tactic(auto)]

ghost use Rattle.std.specs.Prelude.{◌≡◌, eqb, ltb};
ghost use Rattle.meaning.specs.Tests.{refusal};
ghost use Rattle.numbering.specs.Ranges.{Bounded};
ghost use Rattle.survey.specs.Stages.{layout_tests};
ghost use Rattle.survey.specs.Surveys.{GroundOf};
ghost use Rattle.refusals.specs.Numbers.{refusal_number};

use meaning::{Limits, Nest};
use refusals::Refusal;
use survey::Ground;

// Refusal 6: over the limit of instances.
pub fn instances_refused(g: Ground, limits: Limits) -> bool
    ensures { result ≡ ltb limits.instances g.instances }
{
    limits.instances < g.instances
}

// Refusal 7: place of low rank, whose divisor is 0.
pub fn low_rank(g: Ground) -> bool
    ensures { result ≡ eqb g.divisor 0 }
{
    g.divisor == 0
}

// Refusal 10: over the limit of processes.
pub fn processes_refused(g: Ground, limits: Limits) -> bool
    ensures { result ≡ ltb limits.processes g.processes }
{
    limits.processes < g.processes
}

// The first of the refusals 6, 7, 8 and 10 that applies.
pub fn nest_refusal(n: Nest, g: Ground, limits: Limits) -> Result<(), Refusal>
    requires { (Bounded n) × (GroundOf n g) }
    ensures { refusal_number result ≡ refusal (layout_tests limits n) }
{
    if instances_refused(g, limits) {
        return Err(Refusal::Instances);
    }
    if low_rank(g) {
        return Err(Refusal::PlaceRank);
    }
    if survey::still(n, g.increment) {
        return Err(Refusal::StillIncrement);
    }
    if processes_refused(g, limits) {
        return Err(Refusal::Processes);
    }
    Ok(())
}
