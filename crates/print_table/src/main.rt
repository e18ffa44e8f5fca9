// The table of a description: its bytes on standard input, document 01's text on standard output, or `refused` and the number. The first
// argument names the board, 0 gauge or 1 bench; without one it is the gauge. It reads up to 65,536 bytes, more than any description has.

#![tactic(auto)]

use meaning::{Figures, PROCESSES, Row, Sizes};
use std::io;
use text::{Each, Instance, Point};

// A row, with a number for each stream.
fn print_row(rt: &impl Print, r: Row, z: Sizes) -> io::Result<()> {
    let Sizes { loops, streams, .. } = z;
    let point = Point { y: r.point, loops };
    let count = r.count;
    let n = r.soak.len().min(streams as usize);
    let soak = Each(&r.soak[..n]);
    if count == 0 {
        return println!(rt; "y{point} n 0 p{soak}");
    }
    let first = Instance { x: r.first, loops };
    let last = Instance { x: r.last, loops };
    let drain = Each(&r.drain[..n]);
    println!(rt; "y{point} n {count} f{first} l{last} s{soak} d{drain}")
}

fn print_figures(rt: &impl Print, f: Figures) -> io::Result<()> {
    let Figures {
        processes,
        instances,
        steps,
        ..
    } = f;
    println!(rt; "processes {processes} instances {instances} steps {steps}")
}

fn print_accepted(rt: &impl Print, board: u32, s: &[u8], f: Figures) -> io::Result<()> {
    print_figures(rt, f)?;
    let z = decode::sizes(s);
    let rows = table_rows::table(s, PROCESSES, board).rows;
    for row in rows.iter().take(f.processes as usize) {
        print_row(rt, *row, z)?;
    }
    Ok(())
}

fn print_table(rt: &impl Print, board: u32, s: &[u8]) -> io::Result<()> {
    match accept::accept(board, s) {
        Ok((f, _)) => print_accepted(rt, board, s, f),
        Err(refusal) => text::print_refusal(rt, refusal),
    }
}

fn main(rt: HostRuntime) -> io::Result<()> {
    let board = argument::board(&rt, 1);
    let mut space = [0u8; 65536];
    let n = reading::read_full(&mut rt.stdin(), &mut space)?;
    print_table(&rt, board, &space[..n])
}
