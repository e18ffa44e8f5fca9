// Document 01's rules of a port, a process and a stream on a pipe: take and give. In specs/, Moves has the code as functions of lists, and
// MovesMeaning says that this is what document 01 says, where links are filled no further than their places.

#![tactic(auto)]

ghost use Rattle.std.specs.Prelude.{◌≡◌, true, length};
ghost use Rattle.ports.specs.Ports.{PortFits};
ghost use Rattle.take_give.specs.Moves.{can_take, taken, can_give, given};

use port_tests::{gives, gives_from, takes, takes_to};
use ports::{Port, fill, move_down, word};

// Whether the port can take.
pub fn can_take(state: &[u32], k: Port) -> bool
    requires { PortFits (length state.now) k }
    ensures { result ≡ can_take state.now k }
{
    let n = fill(state, k.before, k.at, k.hop);
    let x = word(state, k.at);
    let y = word(state, k.at + 1);
    takes(k.keeps, n, x, y)
}

// The oldest element of the link into the port goes to the hand or to the keep.
pub fn take(state: &mut [u32], k: Port)
    requires { PortFits (length state.old) k × (can_take state.old k ≡ true) }
    ensures { state.new ≡ taken state.old k }
{
    let at = k.at;
    let n = fill(state, k.before, at, k.hop);
    let x = word(state, at);
    let v = state[at + 4];
    move_down(state, at + 4, n - 1);
    let to = at + takes_to(k.keeps, x);
    state[to] = v;
    state[at] = (x + 1) as u32;
}

// Whether the port can give.
pub fn can_give(state: &[u32], k: Port) -> bool
    requires { PortFits (length state.now) k }
    ensures { result ≡ can_give state.now k }
{
    let n = fill(state, k.at + 1, k.after, k.hop);
    let x = word(state, k.at);
    let y = word(state, k.at + 1);
    let f = word(state, k.fired);
    gives(k, n, x, y, f)
}

// The element goes from the hand or from the keep to the first free place of the link out of the port.
pub fn give(state: &mut [u32], k: Port)
    requires { PortFits (length state.old) k × (can_give state.old k ≡ true) }
    ensures { state.new ≡ given state.old k }
{
    let at = k.at;
    let n = fill(state, at + 1, k.after, k.hop);
    let x = word(state, at);
    let y = word(state, at + 1);
    let from = at + gives_from(k.keeps, x, y);
    state[k.room + n] = state[from];
    state[from] = 0;
    state[at + 1] = (y + 1) as u32;
}
