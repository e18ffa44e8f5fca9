// Document 01's rule of a process: fire, with whether its next instance can use the element of a stream and the run of the body on the
// words that it uses. In specs/, Firing has the code as functions of lists, and FiringMeaning says that this is what document 01 says.

#![tactic(auto)]

ghost use Rattle.std.specs.Prelude.{◌≡◌, true, ◌+◌, ◌<◌, ◌≤◌, length, take, replicate};
ghost use Rattle.body.specs.Fit.{Fit};
ghost use Rattle.integers.specs.Fill.{fill_by};
ghost use Rattle.ports.specs.Ports.{PortFits};
ghost use Rattle.fire.specs.Firing.{uses, can_use, used_at, used_in, can_fire, fired, UsedFit, ProcessFits};

use body::execute;
use integers::V3;
use meaning::Line;
use ports::{Port, word};

// Whether firing f can use the element: the keep is filled, or the element of that firing is in hand, not yet used.
#[tactic(auto, unfolding(crate::specs::Firing::uses))]
fn uses(k: Port, x: usize, y: usize, f: usize) -> bool
    requires { (k.soak < 4294967296) × (y < 4294967296) × (f < 4294967296) }
    ensures { result ≡ uses k x y f }
{
    if k.keeps {
        0 < x && y < k.total
    } else {
        x == y + 1 && y == k.soak + f
    }
}

// Whether the next instance can use the element.
pub fn can_use(state: &[u32], k: Port) -> bool
    requires { PortFits (length state.now) k }
    ensures { result ≡ can_use state.now k }
{
    let x = word(state, k.at);
    let y = word(state, k.at + 1);
    let f = word(state, k.fired);
    uses(k, x, y, f)
}

// The index of the word that an instance uses: the keep of a stationary stream, else the hand.
fn used(k: Port) -> u32
    requires { k.at + 4 ≤ 4294967296 }
    ensures { result ≡ used_at k }
{
    let at = k.at as u32;
    if k.keeps { at + 3 } else { at + 2 }
}

// These words of a process, by stream; its ports are those of its streams.
fn used_words(ports: [Port; 6], streams: usize) -> [u32; 6]
    requires { UsedFit ports streams }
    ensures { result ≡ fill_by (used_in ports) streams (replicate 6 0) }
{
    let mut out = [0u32; 6];
    for s in 0..streams {
        out[s] = used(ports[s]);
    }
    out
}

// The next instance, x, runs the first count lines on the words that the process uses.
pub fn fire(
    state: &mut [u32],
    ports: [Port; 6],
    streams: usize,
    x: V3,
    lines: [Line; 8],
    count: u32,
)
    requires { ProcessFits (length state.old) ports streams × Fit streams count lines × (can_fire state.old ports streams ≡ true) }
    ensures { state.new ≡ fired x (take count lines) state.old ports streams }
{
    let fired = ports[0].fired;
    let f = word(state, fired);
    let words = used_words(ports, streams);
    execute(x, lines, count, state, &words[0..streams]);
    state[fired] = (f + 1) as u32;
}
