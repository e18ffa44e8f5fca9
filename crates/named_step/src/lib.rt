// A step by its name, as document 01's call Step has it, a kind, a process or pipe number and a stream: whether there is such a step,
// whether it is ready, and the step done. The memory is opened, so that nothing else is refused.
//
// specs/, by file:
//
//   Named     the step of a name, if there is one
//   Stepped   what is answered and left: `Stepped`

#![tactic(auto)]

ghost use Rattle.std.specs.Prelude.{◌≡◌, length};
ghost use Rattle.meaning.specs.Description.{description_of};
ghost use Rattle.meaning.specs.Rules.{memory_of};
ghost use Rattle.refusals.specs.Numbers.{numbered};
ghost use Rattle.survey.specs.OfBytes.{SurveyOf};
ghost use Rattle.layout.specs.Spans.{Spans};
ghost use Rattle.opening.specs.Opening.{Opened};
ghost use Rattle.named_step.specs.Named.{has_port_by, named_by, Rows};
ghost use Rattle.named_step.specs.Stepped.{Stepped};

use layout::SPANS;
use meaning::Step;
use port_table::Size;
use refusals::Refusal;
use survey::Survey;

// Whether process p is on a pipe of stream i.
fn has_port(ports: &[u32], z: Size, p: usize, i: usize) -> bool
    requires { Rows ports.now z }
    ensures { result ≡ has_port_by ports.now z p i }
{
    p < z.processes && i < z.streams && 0 < port_table::port(ports, p, i).total
}

// The step of that name, if there is one: a kind (0 send, 1 take, 2 fire, 3 give, 4 receive), a pipe or a process, and a stream.
fn named(ports: &[u32], z: Size, kind: u32, number: usize, stream: usize) -> Option<Step>
    requires { Rows ports.now z }
    ensures { result ≡ named_by ports.now z kind number stream }
{
    match kind {
        0 if number < z.pipes => Some(Step::Send(number)),
        1 if has_port(ports, z, number, stream) => Some(Step::Take(number, stream)),
        2 if number < z.processes => Some(Step::Fire(number)),
        3 if has_port(ports, z, number, stream) => Some(Step::Give(number, stream)),
        4 if number < z.pipes => Some(Step::Receive(number)),
        _ => None,
    }
}

// The call once the memory is opened, with the survey of its bytes.
pub fn step_opened(
    s: &[u8],
    v: Survey,
    ports: &[u32],
    spans: &[u32; SPANS],
    z: Size,
    kind: u32,
    number: usize,
    stream: usize,
    waiting: &[u32],
    received: &mut [u32],
    state: &mut [u32],
) -> Result<(), Refusal>
    requires { (Opened s.now (memory_of waiting.now received.old state.old) ports.now z) × (SurveyOf s.now v)
        × (Spans (description_of s.now).nest spans.now) }
    ensures { Stepped s.now kind number stream
        (memory_of waiting.now received.old state.old) (numbered result)
        (memory_of waiting.now received.new state.new) }
{
    let Some(step) = named(ports, z, kind, number, stream) else {
        return Err(Refusal::NoStep);
    };
    if !step_rules::can(ports, state, z, step) {
        return Err(Refusal::NotReady);
    }
    let g = step_rules::program_of(v.description, v.loops);
    step_rules::act(g, ports, spans, z, step, waiting, received, state);
    Ok(())
}
