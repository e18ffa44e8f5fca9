// Where the words of document 01's network stand in the lent words of a state, and the words of a link. A row, a struct by value, says at
// which indices the words of a port (a process and a stream on a pipe) or of a pipe's ends stand. A link's fill is cut off at its places:
// every index is then in range on any list, and no rule asks that the state be sound.
//
// specs/, by file:
//
//   Links            a link's fill; the link without its oldest value
//   Ports, Ends      the rows of an array; rows whose words lie in a state
//   Layout           the rows fit a state that is long enough, and the words that a rule writes lie apart
//   Places           the pipe of a process and a stream, and the process's place on it
//   Rows             the row of any process and stream, on a pipe or off every one
//   LinksMeaning     links that are filled no further than their places: places, fill and moving down are document 01's

#![tactic(auto)]

ghost use Rattle.std.specs.Prelude.{◌≡◌, ◌+◌, ◌<◌, length, get_or};
ghost use Rattle.ports.specs.Links.{filled, fill_at, moved_down};

// ---- rows

// A port. Indices: `at` of taken, with given, hand, keep and the places of the link into the port behind it; `before` of what was put into
// that link; `after` of what was taken out of the link out of the port, and `room` of that link's first place; `fired` of the process's
// firings. Then the places of a link, soak and count of the process, the elements of the pipe, and whether the process keeps one.
#[derive(Clone, Copy)]
pub struct Port {
    pub at: usize,
    pub before: usize,
    pub after: usize,
    pub room: usize,
    pub fired: usize,
    pub hop: usize,
    pub soak: usize,
    pub count: usize,
    pub total: usize,
    pub keeps: bool,
}

// The ends of a pipe. Indices, of the first link: `sent`, `after` of what was taken out of it, `room` of its first place; of the last one:
// `before` of what was put into it, `received`, `last` of its first place. Then the places of a link, the elements of the pipe, and where
// its part of a list begins.
#[derive(Clone, Copy)]
pub struct End {
    pub sent: usize,
    pub after: usize,
    pub room: usize,
    pub before: usize,
    pub received: usize,
    pub last: usize,
    pub hop: usize,
    pub total: usize,
    pub offset: usize,
}

// ---- links

// Word i.
pub fn word(state: &[u32], i: usize) -> usize
    requires { i < length state.now }
    ensures { (result ≡ get_or state.now i 0) × (result < 4294967296) }
{
    state[i] as usize
}

// The filled places of a link, at most its hop.
fn filled(put: usize, got: usize, hop: usize) -> usize
    ensures { result ≡ filled put got hop }
{
    put.saturating_sub(got).min(hop)
}

// The same where the two counts are words of a state.
pub fn fill(state: &[u32], put: usize, got: usize, hop: usize) -> usize
    requires { (put < length state.now) × (got < length state.now) }
    ensures { result ≡ fill_at state.now put got hop }
{
    filled(word(state, put), word(state, got), hop)
}

// Each of n places from `first` on takes the value of the next, and the place behind them is cleared.
pub fn move_down(state: &mut [u32], first: usize, n: usize)
    requires { first + n < length state.old }
    ensures { state.new ≡ moved_down state.old first n }
{
    for i in 0..n {
        state[first + i] = state[first + i + 1];
    }
    state[first + n] = 0;
}
