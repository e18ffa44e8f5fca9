// A step by the port table of its array: whether it is ready, and what it does.
//
// specs/, by file:
//
//   Steps     readiness and effect by the rows of a port table, as the code has them
//   Fits      what the code is lent: port tables, programs and steps that fit
//   Meaning   by the port table of an array they are document 01's: `can-is`, `act-is`

#![tactic(auto)]

ghost use Rattle.std.specs.Prelude.{◌≡◌, true, ◌<◌, length, take};
ghost use Rattle.meaning.specs.Lists.{every};
ghost use Rattle.meaning.specs.Rules.{memory_of};
ghost use Rattle.vectors.specs.Within.{Within};
ghost use Rattle.survey.specs.Surveys.{GroundOf};
ghost use Rattle.fire.specs.Firing.{can_use, can_fire};
ghost use Rattle.port_table.specs.PortsOf.{ports_at, RowsFit, PartsFit};
ghost use Rattle.step_rules.specs.Steps.{program_of, can_by, fired_by, act_by};
ghost use Rattle.step_rules.specs.Fits.{Inside, Programmed};

use fire::can_use;
use integers::V3;
use meaning::{Description, Line, Nest, Step};
use port_table::Size;
use send_receive::{can_receive, can_send, receive, send};
use survey::Ground;
use take_give::{can_give, can_take, give, take};

// What processes run: the loops, the increment, and the first `count` of the lines.
#[derive(Clone, Copy)]
pub struct Program {
    pub nest: Nest,
    pub increment: V3,
    pub lines: [Line; 8],
    pub count: u32,
}

// What the processes of a description run.
pub fn program_of(d: Description, g: Ground) -> Program
    requires { GroundOf d.nest g }
    ensures { (result ≡ program_of d) × (Within 200 result.increment) }
{
    let lines = d.lines;
    Program {
        nest: d.nest,
        increment: g.increment,
        lines,
        count: d.sizes.lines,
    }
}

// Whether process p's next instance can use the element of every stream.
fn can_use_all(ports: &[u32], state: &[u32], z: Size, p: usize) -> bool
    requires { (RowsFit (length state.now) ports.now z) × (p < z.processes) }
    ensures { result ≡ every (can_use state.now) (take z.streams (ports_at ports.now p)) }
{
    for i in 0..z.streams {
        if !can_use(state, port_table::port(ports, p, i)) {
            return false;
        }
    }
    true
}

// Whether process p can fire: an instance is left, and it can use the element of every stream.
pub fn can_fire(ports: &[u32], state: &[u32], z: Size, p: usize) -> bool
    requires { (RowsFit (length state.now) ports.now z) × (p < z.processes) }
    ensures { result ≡ can_fire state.now (ports_at ports.now p) z.streams }
{
    let k = port_table::port(ports, p, 0);
    ports::word(state, k.fired) < k.count && can_use_all(ports, state, z, p)
}

// Whether the step is ready.
#[tactic(auto, unfolding(crate::specs::Steps::can_by))]
pub fn can(ports: &[u32], state: &[u32], z: Size, step: Step) -> bool
    requires { (RowsFit (length state.now) ports.now z) × (Inside z step) }
    ensures { result ≡ can_by ports.now state.now z.streams step }
{
    match step {
        Step::Send(q) => can_send(state, port_table::end(ports, q)),
        Step::Take(p, i) => can_take(state, port_table::port(ports, p, i)),
        Step::Fire(p) => can_fire(ports, state, z, p),
        Step::Give(p, i) => can_give(state, port_table::port(ports, p, i)),
        Step::Receive(q) => can_receive(state, port_table::end(ports, q)),
    }
}

// Process p runs its next instance.
fn fire(g: Program, ports: &[u32], spans: &[u32], z: Size, p: usize, state: &mut [u32])
    requires { (RowsFit (length state.old) ports.now z) × (Programmed g spans.now ports.now z) × (p < z.processes)
        × (can_fire state.old (ports_at ports.now p) z.streams ≡ true) }
    ensures { state.new ≡ fired_by g z.streams ports.now state.old p }
{
    let own = port_table::ports_of(ports, p);
    let k = own[0];
    let f = ports::word(state, k.fired);
    let x = instances::instance_of(g.nest, g.increment, spans, p, f);
    fire::fire(state, own, z.streams, x, g.lines, g.count);
}

// A ready step is done.
#[tactic(auto, unfolding(crate::specs::Steps::can_by, crate::specs::Steps::act_by))]
pub fn act(
    g: Program,
    ports: &[u32],
    spans: &[u32],
    z: Size,
    step: Step,
    waiting: &[u32],
    received: &mut [u32],
    state: &mut [u32],
)
    requires { (RowsFit (length state.old) ports.now z) × (Programmed g spans.now ports.now z) × (Inside z step)
        × (PartsFit (length waiting.now) ports.now z) × (PartsFit (length received.old) ports.now z)
        × (can_by ports.now state.old z.streams step ≡ true) }
    ensures { memory_of waiting.now received.new state.new
        ≡ act_by g z.streams ports.now (memory_of waiting.now received.old state.old) step }
{
    match step {
        Step::Send(q) => send(state, waiting, port_table::end(ports, q)),
        Step::Take(p, i) => take(state, port_table::port(ports, p, i)),
        Step::Fire(p) => fire(g, ports, spans, z, p, state),
        Step::Give(p, i) => give(state, port_table::port(ports, p, i)),
        Step::Receive(q) => receive(state, received, port_table::end(ports, q)),
    }
}
