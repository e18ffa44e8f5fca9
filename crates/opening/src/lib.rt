// What Step, Run, Ready and Result begin with: the refusals of the description, then 20, 26, 21 and 22 of the lent memory; and, if nothing
// is refused, the survey, the words of the processes, the lanes of the streams, the port table of the array and its size.
//
// specs/, by file:
//
//   Opening   the refusals, and what holds once there is none
//   Opened    what the rows of the port table then fit

#![tactic(auto)]

ghost use Rattle.std.specs.Prelude.{◌≡◌, not, [], ◌∷◌, ◌≤◌, length, replicate, IfOk};
ghost use Rattle.refusals.specs.Numbers.{refusal_number};
ghost use Rattle.meaning.specs.Tests.{◌if◌, refusal};
ghost use Rattle.meaning.specs.Limits.{limits_of, gauge_limits, UpTo};
ghost use Rattle.meaning.specs.Array.{array_of};
ghost use Rattle.meaning.specs.Rules.{sound, memory_of};
ghost use Rattle.meaning.specs.Description.{description_of};
ghost use Rattle.meaning.specs.Calls.{memory_tests, refused_by};
ghost use Rattle.layout.specs.Spans.{Spans};
ghost use Rattle.lanes.specs.All.{lane_words};
ghost use Rattle.figures.specs.Shares.{AllLanes};
ghost use Rattle.port_table.specs.PortsOf.{PortsOf};
ghost use Rattle.opening.specs.Opening.{size_from, Grounds, Standing, Opens, Answered};

use lanes::ALL;
use layout::SPANS;
use meaning::{Figures, Limits};
use port_table::{PORTS, Size};
use refusals::Refusal;
use survey::Survey;

// The size of the array, and the survey.
#[derive(Clone, Copy)]
pub struct Opening {
    pub size: Size,
    pub survey: Survey,
}

fn size_of(v: Survey, f: Figures) -> Size
    ensures { result ≡ size_from v.description f }
{
    Size {
        processes: f.processes as usize,
        streams: v.description.sizes.streams as usize,
        pipes: f.pipes as usize,
    }
}

// 22 where the state is not sound by the port table of the array.
fn sound_refusal(
    v: Survey,
    z: Size,
    state: &[u32],
    spans: &[u32; SPANS],
    lanes: &[u16],
    ports: &mut [u32; PORTS],
) -> Result<(), Refusal>
    requires { (Standing v.description z state.now) × (Spans v.description.nest spans.now) × (AllLanes v.description lanes.now) }
    ensures { (refusal_number result ≡ refusal ((22 if not (sound (array_of v.description) state.now)) ∷ []))
        × (PortsOf (array_of v.description) ports.new) }
{
    port_fill::fill_ports(v, spans, lanes, ports);
    declines::of_state(sound::sound(ports, state, z))
}

// The refusals of the memory, on an accepted description.
fn open_accepted(
    v: Survey,
    waiting: &[u32],
    received: &[u32],
    state: &[u32],
    spans: &[u32; SPANS],
    lanes: &mut [u16],
    ports: &mut [u32; PORTS],
) -> Result<Opening, Refusal>
    requires { (Grounds v.description) × (Spans v.description.nest spans.now) × (lanes.old ≡ replicate lane_words 0) }
    ensures number { refusal_number result ≡ refusal (memory_tests v.description (memory_of waiting.now received.now state.now)) }
    ensures opened { IfOk result (λ o. Opens v (memory_of waiting.now received.now state.now) ports.new lanes.new o) }
{
    let f = figures::figures_of(v, spans, lanes);
    let z = size_of(v, f);
    declines::of_memory(f, waiting.len(), received.len(), state.len())?;
    sound_refusal(v, z, state, spans, lanes, ports)?;
    Ok(Opening { size: z, survey: v })
}

// All refusals that the four calls share, in their order.
fn open_within(
    s: &[u8],
    limits: Limits,
    waiting: &[u32],
    received: &[u32],
    state: &[u32],
    spans: &mut [u32; SPANS],
    lanes: &mut [u16],
    ports: &mut [u32; PORTS],
) -> Result<Opening, Refusal>
    requires { (UpTo limits gauge_limits) × (lanes.old ≡ replicate lane_words 0) }
    ensures number { refusal_number result ≡ refused_by limits s.now (memory_tests (description_of s.now)
        (memory_of waiting.now received.now state.now)) }
    ensures opened { IfOk result (λ o. Answered s.now (memory_of waiting.now received.now state.now) ports.new spans.new o) }
    ensures lanes { IfOk result (λ o. AllLanes (description_of s.now) lanes.new) }
{
    let v = refuse::survey_within(s, limits, spans)?;
    open_accepted(v, waiting, received, state, spans, lanes, ports)
}

// The same on a board, for a call that goes on with the lanes; their words come as zeros.
pub fn open_with_lanes(
    board: u32,
    s: &[u8],
    waiting: &[u32],
    received: &[u32],
    state: &[u32],
    spans: &mut [u32; SPANS],
    lanes: &mut [u16],
    ports: &mut [u32; PORTS],
) -> Result<Opening, Refusal>
    requires { lanes.old ≡ replicate lane_words 0 }
    ensures number { refusal_number result ≡ refused_by (limits_of board) s.now (memory_tests (description_of s.now)
        (memory_of waiting.now received.now state.now)) }
    ensures opened { IfOk result (λ o. Answered s.now (memory_of waiting.now received.now state.now) ports.new spans.new o) }
    ensures lanes { IfOk result (λ o. AllLanes (description_of s.now) lanes.new) }
{
    let limits = boards::limits_of(board);
    open_within(s, limits, waiting, received, state, spans, lanes, ports)
}

// For a call that needs the port table alone.
pub fn open(
    board: u32,
    s: &[u8],
    waiting: &[u32],
    received: &[u32],
    state: &[u32],
    spans: &mut [u32; SPANS],
    ports: &mut [u32; PORTS],
) -> Result<Opening, Refusal>
    ensures number { refusal_number result ≡ refused_by (limits_of board) s.now (memory_tests (description_of s.now)
        (memory_of waiting.now received.now state.now)) }
    ensures opened { IfOk result (λ o. Answered s.now (memory_of waiting.now received.now state.now) ports.new spans.new o) }
{
    let mut lanes = [0u16; ALL];
    open_with_lanes(board, s, waiting, received, state, spans, &mut lanes, ports)
}
