// The call Start: values, given in element order, put into the waiting list in pipe order; state and received cleared.
//
// specs/, by file:
//
//   Values    values put at their elements' places are in pipe order: `gathered`; words cleared
//   Call      the call's own refusals, and what it answers and leaves

#![tactic(auto)]

ghost use Rattle.std.specs.Prelude.{◌≡◌, ◌≤◌, length};
ghost use Rattle.refusals.specs.Numbers.{numbered};
ghost use Rattle.meaning.specs.Limits.{limits_of};
ghost use Rattle.meaning.specs.Rules.{memory_of};
ghost use Rattle.meaning.specs.Calls.{start};
ghost use Rattle.layout.specs.Spans.{Spans};
ghost use Rattle.figures.specs.Shares.{AllLanes};
ghost use Rattle.element_places.specs.Order.{Placeable};
ghost use Rattle.start.specs.Values.{Puttable, put};
ghost use Rattle.start.specs.Call.{started_by, Called, Fitting};

use lanes::ALL;
use layout::SPANS;
use meaning::{ELEMENTS, Figures};
use refusals::Refusal;
use survey::Survey;

// The values at the places of their elements.
fn put_values(values: &[u32], places: &[u16], waiting: &mut [u32])
    requires { Puttable values.now places.now waiting.old }
    ensures { waiting.new ≡ put values.now places.now (length values.now) waiting.old }
{
    for e in 0..values.len() {
        let at = places[e] as usize;
        waiting[at] = values[e];
    }
}

// The values in pipe order, and words of zero.
fn fill_memory(
    v: Survey,
    f: Figures,
    spans: &[u32; SPANS],
    lanes: &[u16],
    values: &[u32],
    waiting: &mut [u32],
    received: &mut [u32],
    state: &mut [u32],
)
    requires { (Fitting v.description f values.now (memory_of waiting.old received.old state.old))
        × (Spans v.description.nest spans.now) × (AllLanes v.description lanes.now) }
    ensures { memory_of waiting.new received.new state.new
        ≡ started_by v.description values.now
        (memory_of waiting.old received.old state.old) }
{
    let mut places = [0u16; ELEMENTS];
    element_places::fill_places(v, spans, lanes, &mut places);
    put_values(values, &places, waiting);
    sweeps::clear(f.elements, received);
    sweeps::clear(f.words, state);
}

// The call on an accepted description.
fn start_accepted(
    v: Survey,
    spans: &[u32; SPANS],
    values: &[u32],
    waiting: &mut [u32],
    received: &mut [u32],
    state: &mut [u32],
) -> Result<(), Refusal>
    requires { (Placeable v.description) × (Spans v.description.nest spans.now) }
    ensures { Called v.description values.now
        (memory_of waiting.old received.old state.old) (numbered result)
        (memory_of waiting.new received.new state.new) }
{
    let mut lanes = [0u16; ALL];
    let f = figures::figures_of(v, spans, &mut lanes);
    declines::of_start(f, values.len(), waiting.len(), received.len(), state.len())?;
    fill_memory(v, f, spans, &lanes, values, waiting, received, state);
    Ok(())
}

// START
pub fn start(
    board: u32,
    s: &[u8],
    values: &[u32],
    waiting: &mut [u32],
    received: &mut [u32],
    state: &mut [u32],
) -> Result<(), Refusal>
    ensures { (numbered result ≡ (start (limits_of board) s.now values.now
        (memory_of waiting.old received.old state.old)).answer)
        × (memory_of waiting.new received.new state.new
        ≡ (start (limits_of board) s.now values.now
        (memory_of waiting.old received.old state.old)).memory) }
{
    let mut spans = [0u32; SPANS];
    let v = refuse::survey_of(board, s, &mut spans)?;
    start_accepted(v, &spans, values, waiting, received, state)
}
