// The words of the call Ready: a bit for each process that can take, fire or give.
//
// specs/, by file:
//
//   Moves     whether a process can move, by the rows of a port table, as the code has it
//   Meaning   by the port table of an array it is document 01's: `moves-is`

#![tactic(auto)]

ghost use Rattle.std.specs.Prelude.{◌≡◌, ◌≤◌, ◌<◌, length};
ghost use Rattle.port_table.specs.PortsOf.{RowsFit};
ghost use Rattle.bits.specs.Words.{cleared};
ghost use Rattle.bits.specs.Ready.{marked_to};
ghost use Rattle.ready_words.specs.Moves.{passes_by, moves_by};

use port_table::Size;

// Whether process p can take or give on stream i.
fn can_pass(ports: &[u32], state: &[u32], z: Size, p: usize, i: usize) -> bool
    requires { (RowsFit (length state.now) ports.now z) × (p < z.processes) × (i < z.streams) }
    ensures { result ≡ passes_by ports.now state.now p i }
{
    let k = port_table::port(ports, p, i);
    let takes = take_give::can_take(state, k);
    let gives = take_give::can_give(state, k);
    takes || gives
}

// Whether process p can take, fire or give.
fn can_move(ports: &[u32], state: &[u32], z: Size, p: usize) -> bool
    requires { (RowsFit (length state.now) ports.now z) × (p < z.processes) }
    ensures { result ≡ moves_by ports.now state.now z.streams p }
{
    for i in 0..z.streams {
        if can_pass(ports, state, z, p, i) {
            return true;
        }
    }
    step_rules::can_fire(ports, state, z, p)
}

// The bits of the processes that can move are set, and all others of the sixteen words cleared.
pub fn mark_ready(ports: &[u32], state: &[u32], z: Size, words: &mut [u64])
    requires { (RowsFit (length state.now) ports.now z) × (16 ≤ length words.old) }
    ensures { words.new
        ≡ marked_to (moves_by ports.now state.now z.streams) z.processes (cleared words.old) }
{
    bits::clear(words);
    for p in 0..z.processes {
        if can_move(ports, state, z, p) {
            bits::mark(words, p as u32);
        }
    }
}
