// Run's steps: always the lowest ready one, until there are enough or none is ready. The ready steps stand as flags by their ranks; after a
// step the flags of the steps near it are tested anew, and nothing is searched from the beginning.
//
// specs/, by file:
//
//   Positions   the first number that passes a test with a bound besides
//   Going       a memory stays in order from step to step
//   Runs        the steps that the loop does are those of Run
//   Turn        one turn of the loop

#![tactic(auto)]

ghost use Rattle.meaning.specs.Rules.{memory_of};
ghost use Rattle.run_steps.specs.Runs.{Started, Ended};

use port_table::Size;
use ready_set::{MEMBERS, ReadySet};
use step_rules::Program;

// Steps, lowest first, until there are enough or none is ready; how many were done.
pub fn run_steps(
    s: &[u8],
    g: Program,
    ports: &[u32],
    spans: &[u32],
    wakeups: &[u16],
    z: Size,
    steps: u32,
    waiting: &[u32],
    received: &mut [u32],
    state: &mut [u32],
    set: &mut ReadySet,
) -> u32
    requires { Started s.now g ports.now spans.now wakeups.now z
        (memory_of waiting.now received.old state.old) set.old.words }
    ensures { Ended s.now ports.now z steps
        (memory_of waiting.now received.old state.old) result
        (memory_of waiting.now received.new state.new) set.new.words }
{
    for done in 0..steps {
        let r = set.lowest();
        if r >= MEMBERS {
            return done;
        }
        let step = step_order::step_of(z, r);
        step_rules::act(g, ports, spans, z, step, waiting, received, state);
        wakeups::refresh(ports, wakeups, state, z, r, step, set);
    }
    steps
}
