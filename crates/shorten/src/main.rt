// Shortens vectors: three words a vector on standard input, a line `DIVISOR X Y Z` for each on standard output. It reads up to 65,536
// bytes; what is left of them after the last whole vector is not looked at.

#![tactic(auto)]

use integers::V3;
use std::io;

fn print_line(rt: &impl Print, v: V3) -> io::Result<()> {
    let s = lattice::shorten(v);
    let divisor = s.divisor;
    let V3 { x, y, z } = s.vector;
    println!(rt; "{divisor} {x} {y} {z}")
}

fn main(rt: HostRuntime) -> io::Result<()> {
    let mut space = [0u8; 65536];
    let n = reading::read_full(&mut rt.stdin(), &mut space)?;
    for words in space[..n].chunks_exact(12) {
        let v = V3 {
            x: integers::word_at(words, 0),
            y: integers::word_at(words, 1),
            z: integers::word_at(words, 2),
        };
        print_line(&rt, v)?;
    }
    Ok(())
}
