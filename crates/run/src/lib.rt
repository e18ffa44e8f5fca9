// The call Run: so many steps, fewer only when none is ready, always the lowest ready one. In specs/, Call says what it answers and leaves.

#![tactic(auto)]

ghost use Rattle.std.specs.Prelude.{◌≡◌, length};
ghost use Rattle.refusals.specs.Numbers.{numbered};
ghost use Rattle.meaning.specs.Limits.{limits_of};
ghost use Rattle.meaning.specs.Description.{description_of};
ghost use Rattle.meaning.specs.Rules.{memory_of};
ghost use Rattle.meaning.specs.Calls.{run};
ghost use Rattle.survey.specs.OfBytes.{SurveyOf};
ghost use Rattle.layout.specs.Spans.{Spans};
ghost use Rattle.opening.specs.Opening.{Opened};
ghost use Rattle.run.specs.Call.{RanBy};

use layout::SPANS;
use meaning::{Ran, STATE_WORDS};
use port_table::{PORTS, Size};
use ready_set::{MEMBERS, ReadySet};
use refusals::Refusal;
use survey::Survey;

// The call once the memory is opened, with the survey of its bytes.
fn run_opened(
    s: &[u8],
    v: Survey,
    ports: &[u32],
    spans: &[u32; SPANS],
    z: Size,
    steps: u32,
    waiting: &[u32],
    received: &mut [u32],
    state: &mut [u32],
) -> Ran
    requires { (Opened s.now (memory_of waiting.now received.old state.old) ports.now z) × (SurveyOf s.now v)
        × (Spans (description_of s.now).nest spans.now) }
    ensures { RanBy s.now steps (memory_of waiting.now received.old state.old) (Ok result)
        (memory_of waiting.now received.new state.new) }
{
    let g = step_rules::program_of(v.description, v.loops);
    let mut wakeups = [0u16; STATE_WORDS + 1];
    wakeups::fill_wakeups(ports, z, &mut wakeups);
    let mut set = ReadySet::new();
    wakeups::fill_flags(ports, state, z, &mut set);
    let done = run_steps::run_steps(
        s, g, ports, spans, &wakeups, z, steps, waiting, received, state, &mut set,
    );
    Ran {
        steps: done,
        ready: set.lowest() < MEMBERS,
    }
}

// RUN
pub fn run(
    board: u32,
    s: &[u8],
    steps: u32,
    waiting: &[u32],
    received: &mut [u32],
    state: &mut [u32],
) -> Result<Ran, Refusal>
    ensures { (numbered result ≡ (run (limits_of board) s.now steps
        (memory_of waiting.now received.old state.old)).answer)
        × (memory_of waiting.now received.new state.new
        ≡ (run (limits_of board) s.now steps
        (memory_of waiting.now received.old state.old)).memory) }
{
    let mut spans = [0u32; SPANS];
    let mut ports = [0u32; PORTS];
    let o = opening::open(board, s, waiting, received, state, &mut spans, &mut ports)?;
    Ok(run_opened(
        s, o.survey, &ports, &spans, o.size, steps, waiting, received, state,
    ))
}
