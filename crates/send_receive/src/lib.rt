// Document 01's rules of the two ends of a pipe: send and receive. In specs/, Moves has the code as functions of lists, and MovesMeaning
// says that this is what document 01 says, where links are filled no further than their places.

#![tactic(auto)]

ghost use Rattle.std.specs.Prelude.{◌≡◌, true, ◌+◌, ◌≤◌, length};
ghost use Rattle.ports.specs.Ends.{EndFits};
ghost use Rattle.send_receive.specs.Moves.{below, can_send, sent, can_receive, received, received_list};

use ports::{End, fill, move_down, word};

// Whether x < total and n < hop.
fn below(x: usize, total: usize, n: usize, hop: usize) -> bool
    ensures { result ≡ below x total n hop }
{
    x < total && n < hop
}

// Whether the pipe can send: a value waits, and its first link has a free place.
pub fn can_send(state: &[u32], e: End) -> bool
    requires { EndFits (length state.now) e }
    ensures { result ≡ can_send state.now e }
{
    let n = fill(state, e.sent, e.after, e.hop);
    let x = word(state, e.sent);
    below(x, e.total, n, e.hop)
}

// The next waiting value is copied to the first free place of the first link.
pub fn send(state: &mut [u32], waiting: &[u32], e: End)
    requires { EndFits (length state.old) e × (e.offset + e.total ≤ length waiting.now) × (can_send state.old e ≡ true) }
    ensures { state.new ≡ sent waiting.now state.old e }
{
    let n = fill(state, e.sent, e.after, e.hop);
    let x = word(state, e.sent);
    state[e.room + n] = waiting[e.offset + x];
    state[e.sent] = (x + 1) as u32;
}

// Whether the pipe can receive: an element stands in its last link, and its part of the received list has a place left.
pub fn can_receive(state: &[u32], e: End) -> bool
    requires { EndFits (length state.now) e }
    ensures { result ≡ can_receive state.now e }
{
    let n = fill(state, e.before, e.received, e.hop);
    let x = word(state, e.received);
    below(x, e.total, 0, n)
}

// The oldest element of the last link goes to the pipe's next received place.
pub fn receive(state: &mut [u32], out: &mut [u32], e: End)
    requires { EndFits (length state.old) e × (e.offset + e.total ≤ length out.old) × (can_receive state.old e ≡ true) }
    ensures { (state.new ≡ received state.old e)
        × (out.new ≡ received_list out.old state.old e) }
{
    let n = fill(state, e.before, e.received, e.hop);
    let x = word(state, e.received);
    out[e.offset + x] = state[e.last];
    move_down(state, e.last, n - 1);
    state[e.received] = (x + 1) as u32;
}
