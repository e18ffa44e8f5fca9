// One instance's body: its lines run on eight registers, first those of the streams, then two of scratch. The plain run and firing both
// call `execute`, one on the values of the elements, the other on the words of a state. In specs/:
//
//   Fit        what lines and places have to fit
//   Lines      the lines in turn; the first registers hold the body
//   Store      gather and scatter in turn
//   Execute    one instance on a store, as the plain run and as firing have it

#![tactic(auto)]

ghost use Rattle.std.specs.Prelude.{◌≡◌, length, take};
ghost use Rattle.meaning.specs.Body.{run_line, run_lines, gather, scatter};
ghost use Rattle.body.specs.Fit.{Within, Fit, Places, Runnable};
ghost use Rattle.body.specs.Store.{registers};
ghost use Rattle.body.specs.Execute.{execute_at};

use integers::V3;
use meaning::Line;

// One line of instance x; one that does not run leaves its target.
pub fn run_line(x: V3, l: Line, registers: &mut [u32; 8])
    requires { Within 6 l }
    ensures { registers.new ≡ run_line x l registers.old }
{
    let target = l.target as usize;
    let first = l.first as usize;
    let second = l.second as usize;
    if guards::admits(l, x) {
        registers[target] = operations::operate(l.operation, registers[first], registers[second]);
    }
}

// The first count lines in order.
pub fn run_lines(x: V3, lines: [Line; 8], count: u32, registers: &mut [u32; 8])
    requires { Fit 6 count lines }
    ensures { registers.new ≡ run_lines x (take count lines) registers.old }
{
    for i in 0..count as usize {
        run_line(x, lines[i], registers);
    }
}

// The registers as an instance starts: the values at its places of a store, then zeros.
pub fn gather(store: &[u32], places: &[u32]) -> [u32; 8]
    requires { Places (length store.now) places.now }
    ensures { result ≡ registers (gather store.now places.now) }
{
    let mut out = [0u32; 8];
    for (i, place) in places.iter().enumerate() {
        out[i] = store[*place as usize];
    }
    out
}

// The first registers, put at the places.
pub fn scatter(store: &mut [u32], places: &[u32], registers: [u32; 8])
    requires { Places (length store.old) places.now }
    ensures { store.new ≡ scatter store.old places.now registers }
{
    for (i, place) in places.iter().enumerate() {
        store[*place as usize] = registers[i];
    }
}

// Instance x, whose values stand at some places of a store.
pub fn execute(x: V3, lines: [Line; 8], count: u32, store: &mut [u32], places: &[u32])
    requires { Runnable count lines (length store.old) places.now }
    ensures { store.new ≡ execute_at x (take count lines) store.old places.now }
{
    let mut registers = gather(store, places);
    run_lines(x, lines, count, &mut registers);
    scatter(store, places, registers);
}
