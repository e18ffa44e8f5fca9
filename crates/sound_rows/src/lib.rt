// Sound states, row by row: counts up to their totals, links filled up to their places, and in hand and keep what was taken and not given;
// and the theorem over the five rules, whose code is in `take_give`, `send_receive` and `fire`. In specs/, by file:
//
//   Sound            a sound state, row by row, as the code tests it
//   SoundMeaning     a state is sound where every row is; the links of a sound state
//   Rows             the rules and the tests by the rows of all processes and streams, on a pipe or off every one
//   Steps            `ready` and `apply` of the five steps of a sound state are the tests and the lists of the code

#![tactic(auto)]

ghost use Rattle.std.specs.Prelude.{◌≡◌, ◌<◌, leb, length, get_or};
ghost use Rattle.ports.specs.Ends.{EndFits};
ghost use Rattle.ports.specs.Ports.{PortFits};
ghost use Rattle.sound_rows.specs.Sound.{link_holds, hand_holds, port_holds, port_sound, end_holds, end_sound};

use ports::{End, Port, word};

// Whether a link of hop places holds what was put in and not taken out.
#[tactic(auto, unfolding(crate::specs::Sound::link_holds))]
fn link_holds(put: usize, got: usize, hop: usize) -> bool
    ensures { result ≡ link_holds put got hop }
{
    got <= put && put - got <= hop
}

// Whether hand and keep hold what was taken and not given: x and y of n elements.
#[tactic(auto, unfolding(crate::specs::Sound::hand_holds))]
fn hand_holds(keeps: bool, n: usize, x: usize, y: usize) -> bool
    requires { y < 4294967296 }
    ensures { result ≡ hand_holds keeps n x y }
{
    if keeps {
        if x == 0 {
            return y == 0;
        }
        if y == n {
            return x == n;
        }
        x == y + 1 || x == y + 2
    } else {
        x == y || x == y + 1
    }
}

// The same of a port and of the link into it.
#[tactic(auto, unfolding(crate::specs::Sound::port_holds))]
fn port_holds(k: Port, put: usize, x: usize, y: usize) -> bool
    requires { y < 4294967296 }
    ensures { result ≡ port_holds k put x y }
{
    x <= k.total && y <= k.total && hand_holds(k.keeps, k.total, x, y) && link_holds(put, x, k.hop)
}

// Whether the words of a port are sound.
pub fn sound_port(state: &[u32], k: Port) -> bool
    requires { PortFits (length state.now) k }
    ensures { result ≡ port_sound state.now k }
{
    let put = word(state, k.before);
    let x = word(state, k.at);
    let y = word(state, k.at + 1);
    port_holds(k, put, x, y)
}

// Of a pipe's ends and of its last link: x sent, y received.
#[tactic(auto, unfolding(crate::specs::Sound::end_holds))]
fn end_holds(e: End, put: usize, x: usize, y: usize) -> bool
    ensures { result ≡ end_holds e put x y }
{
    x <= e.total && y <= e.total && link_holds(put, y, e.hop)
}

// Whether the words of a pipe's ends are sound.
pub fn sound_end(state: &[u32], e: End) -> bool
    requires { EndFits (length state.now) e }
    ensures { result ≡ end_sound state.now e }
{
    let put = word(state, e.before);
    let x = word(state, e.sent);
    let y = word(state, e.received);
    end_holds(e, put, x, y)
}

// Whether a process has fired no more than its instances.
pub fn sound_firings(state: &[u32], k: Port) -> bool
    requires { PortFits (length state.now) k }
    ensures { result ≡ leb (get_or state.now k.fired 0) k.count }
{
    word(state, k.fired) <= k.count
}
