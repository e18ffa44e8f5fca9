// The call Ready: the processes that can take, fire or give, as bits of sixteen words; how many they are, and the lowest. In specs/, Call
// says what the call answers and leaves.

#![tactic(auto)]

ghost use Rattle.std.specs.Prelude.{◌≡◌, length};
ghost use Rattle.refusals.specs.Numbers.{numbered};
ghost use Rattle.meaning.specs.Limits.{limits_of};
ghost use Rattle.meaning.specs.Rules.{memory_of};
ghost use Rattle.meaning.specs.Calls.{ready_call};
ghost use Rattle.port_table.specs.PortsOf.{RowsFit};
ghost use Rattle.ready.specs.Call.{answer_by, left_by};

use layout::SPANS;
use meaning::Readiness;
use port_table::{PORTS, Size};
use refusals::Refusal;

// The call once the memory is opened: 27, or the words, how many and the lowest.
fn ready_opened(
    ports: &[u32],
    state: &[u32],
    z: Size,
    words: &mut [u64],
) -> Result<Readiness, Refusal>
    requires { RowsFit (length state.now) ports.now z }
    ensures { (numbered result ≡ answer_by ports.now state.now z words.old)
        × (words.new ≡ left_by ports.now state.now z words.old) }
{
    declines::of_ready(words.len())?;
    ready_words::mark_ready(ports, state, z, words);
    Ok(Readiness {
        count: bits::count(words),
        lowest: bits::lowest(words, z.processes as u32),
    })
}

// READY
pub fn ready(
    board: u32,
    s: &[u8],
    words: &mut [u64],
    waiting: &[u32],
    received: &[u32],
    state: &[u32],
) -> Result<Readiness, Refusal>
    ensures { (numbered result ≡ (ready_call (limits_of board) s.now words.old
        (memory_of waiting.now received.now state.now)).answer)
        × (words.new ≡ (ready_call (limits_of board) s.now words.old
        (memory_of waiting.now received.now state.now)).words) }
{
    let mut spans = [0u32; SPANS];
    let mut ports = [0u32; PORTS];
    let o = opening::open(board, s, waiting, received, state, &mut spans, &mut ports)?;
    ready_opened(&ports, state, o.size, words)
}
