// How many step vectors with entries from −K to K get each answer of Accept, request 2.10, for the description on standard input: a line
// for each answer with its count, or `refused` and the number. The first argument is K as a decimal numeral; one that is no numeral of a
// word, or missing, is 4,294,967,295. The second names the board, 0 gauge or 1 bench; without one it is the gauge. It reads up to 65,536
// bytes, more than any description has.

#![tactic(auto)]

use meaning::ANSWERS;
use std::io;

// What a refusal means.
fn meaning_of(refusal: usize) -> &'static str {
    match refusal {
        1 => "under 12 bytes",
        2 => "a size out of range",
        3 => "not the length that the sizes give",
        4 => "a word out of range",
        5 => "a left bound above its right",
        6 => "over the limit of instances",
        7 => "place of rank below r-1",
        8 => "increment of step 0",
        9 => "never given",
        10 => "over the limit of processes",
        11 => "index map of rank below r-1",
        12 => "line of step 0",
        13 => "a component of the move outside -1 to 1",
        14 => "moving with a hop over the limit",
        15 => "written, with a line against the order of the loops",
        16 => "moving with a loading vector, or stationary with none",
        17 => "some element touched by no instance",
        _ => "",
    }
}

// Answer 0 is accepted, any other a refusal.
fn print_count(rt: &impl Print, answer: usize, count: u32) -> io::Result<()> {
    if answer == 0 {
        return println!(rt; "{count} accepted");
    }
    let meaning = meaning_of(answer);
    println!(rt; "{count} refused {answer} {meaning}")
}

fn print_counts(rt: &impl Print, counts: &[u32; ANSWERS]) -> io::Result<()> {
    for (answer, count) in counts.iter().enumerate() {
        print_count(rt, answer, *count)?;
    }
    Ok(())
}

fn print_steps(rt: &impl Print, board: u32, s: &[u8], k: u32) -> io::Result<()> {
    let mut counts = [0u32; ANSWERS];
    match step_vectors::step_vectors(board, s, k, &mut counts) {
        Ok(()) => print_counts(rt, &counts),
        Err(refusal) => text::print_refusal(rt, refusal),
    }
}

fn main(rt: HostRuntime) -> io::Result<()> {
    let k = argument::word_argument(&rt, 1);
    let board = argument::board(&rt, 2);
    let mut space = [0u8; 65536];
    let n = reading::read_full(&mut rt.stdin(), &mut space)?;
    print_steps(&rt, board, &space[..n], k)
}
