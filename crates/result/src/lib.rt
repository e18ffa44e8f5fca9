// The call Result: once every pipe is wholly received, the received values in element order.
//
// specs/, by file:
//
//   Out       all values are out: by the port table of an array, as document 01 says it
//   Order     values read at their elements' places are in element order: `ordered`
//   Call      the call's own refusals, and what it answers and leaves

#![tactic(auto)]

ghost use Rattle.std.specs.Prelude.{◌≡◌, ◌≤◌, length};
ghost use Rattle.integers.specs.Fill.{fill_by};
ghost use Rattle.refusals.specs.Numbers.{numbered};
ghost use Rattle.meaning.specs.Lists.{every, numbers};
ghost use Rattle.meaning.specs.Limits.{limits_of};
ghost use Rattle.meaning.specs.Description.{description_of};
ghost use Rattle.meaning.specs.Rules.{memory_of};
ghost use Rattle.meaning.specs.Calls.{length_of, result as result_call};
ghost use Rattle.survey.specs.OfBytes.{SurveyOf};
ghost use Rattle.layout.specs.Spans.{Spans};
ghost use Rattle.figures.specs.Shares.{AllLanes};
ghost use Rattle.element_places.specs.Order.{Placeable};
ghost use Rattle.result.specs.Out.{out_by, Asked};
ghost use Rattle.result.specs.Order.{placed, Readable, element_order};
ghost use Rattle.result.specs.Call.{Called, Drawable};

use lanes::ALL;
use layout::SPANS;
use meaning::ELEMENTS;
use port_table::{PORTS, Size};
use refusals::Refusal;
use survey::Survey;

// Whether every pipe is wholly received.
fn all_out(ports: &[u32], state: &[u32], pipes: usize) -> bool
    requires { Asked ports.now (length state.now) pipes }
    ensures { result ≡ every (out_by ports.now state.now) (numbers pipes) }
{
    for q in 0..pipes {
        let e = port_table::end(ports, q);
        if ports::word(state, e.received) != e.total {
            return false;
        }
    }
    true
}

// The values at the places of their elements, element by element.
fn put_in_order(received: &[u32], places: &[u16], elements: usize, output: &mut [u32])
    requires { Readable received.now places.now elements output.old }
    ensures { output.new ≡ fill_by (placed received.now places.now) elements output.old }
{
    for e in 0..elements {
        let at = places[e] as usize;
        output[e] = received[at];
    }
}

fn fill_output(v: Survey, spans: &[u32; SPANS], lanes: &[u16], received: &[u32], output: &mut [u32])
    requires { (Placeable v.description) × (length received.now ≡ length_of v.description)
        × (length output.old ≡ length_of v.description) × (Spans v.description.nest spans.now) × (AllLanes v.description lanes.now) }
    ensures { output.new ≡ element_order v.description received.now }
{
    let mut places = [0u16; ELEMENTS];
    element_places::fill_places(v, spans, lanes, &mut places);
    put_in_order(received, &places, received.len(), output);
}

// The call once the memory is opened, with the survey of its bytes.
fn result_opened(
    s: &[u8],
    v: Survey,
    ports: &[u32],
    spans: &[u32; SPANS],
    lanes: &[u16],
    z: Size,
    received: &[u32],
    state: &[u32],
    output: &mut [u32],
) -> Result<(), Refusal>
    requires { (Drawable s.now ports.now z received.now state.now) × (SurveyOf s.now v)
        × (Spans (description_of s.now).nest spans.now) × (AllLanes (description_of s.now) lanes.now) }
    ensures { Called s.now received.now state.now output.old (numbered result) output.new }
{
    let out = all_out(ports, state, z.pipes);
    declines::of_result(out, output.len() == received.len())?;
    fill_output(v, spans, lanes, received, output);
    Ok(())
}

// RESULT
pub fn result(
    board: u32,
    s: &[u8],
    output: &mut [u32],
    waiting: &[u32],
    received: &[u32],
    state: &[u32],
) -> Result<(), Refusal>
    ensures { (numbered result
        ≡ (result_call (limits_of board) s.now output.old
        (memory_of waiting.now received.now state.now)).answer)
        × (output.new
        ≡ (result_call (limits_of board) s.now output.old
        (memory_of waiting.now received.now state.now)).output) }
{
    let mut spans = [0u32; SPANS];
    let mut ports = [0u32; PORTS];
    let mut lanes = [0u16; ALL];
    let o = opening::open_with_lanes(
        board, s, waiting, received, state, &mut spans, &mut lanes, &mut ports,
    )?;
    result_opened(
        s, o.survey, &ports, &spans, &lanes, o.size, received, state, output,
    )
}
