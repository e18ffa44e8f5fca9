// The call Step: one step, by its kind, a process or pipe number, and a stream. In specs/, Call says what it answers and leaves.

#![tactic(auto)]

ghost use Rattle.std.specs.Prelude.{◌≡◌};
ghost use Rattle.refusals.specs.Numbers.{numbered};
ghost use Rattle.meaning.specs.Limits.{limits_of};
ghost use Rattle.meaning.specs.Rules.{memory_of};
ghost use Rattle.meaning.specs.Calls.{step};

use layout::SPANS;
use port_table::PORTS;
use refusals::Refusal;

// STEP
pub fn step(
    board: u32,
    s: &[u8],
    kind: u32,
    number: u32,
    stream: u32,
    waiting: &[u32],
    received: &mut [u32],
    state: &mut [u32],
) -> Result<(), Refusal>
    ensures { (numbered result ≡ (step (limits_of board) s.now kind number stream
        (memory_of waiting.now received.old state.old)).answer)
        × (memory_of waiting.now received.new state.new
        ≡ (step (limits_of board) s.now kind number stream
        (memory_of waiting.now received.old state.old)).memory) }
{
    let mut spans = [0u32; SPANS];
    let mut ports = [0u32; PORTS];
    let o = opening::open(board, s, waiting, received, state, &mut spans, &mut ports)?;
    named_step::step_opened(
        s,
        o.survey,
        &ports,
        &spans,
        o.size,
        kind,
        number as usize,
        stream as usize,
        waiting,
        received,
        state,
    )
}
