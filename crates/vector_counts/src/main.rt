// What Step vectors, request 2.10, answers and leaves in the lent counts, for descriptions on standard input, each behind three words: k,
// the board, and its number of bytes. It reads up to 65,536 descriptions; more than 508 bytes are taken as 508, and bytes that are missing
// as 0; three words that are not whole end the program. For each it prints `steps` with the number by which the call declines, or 0, and
// the counts, every one of which is 7 before the call.

#![tactic(auto)]

use meaning::ANSWERS;
use std::io;
use std::io::Read;
use text::Each;

// How many descriptions are read, the bytes of the three words before one, and the bytes of it that are read.
const DESCRIPTIONS: u32 = 65536;

const WORDS: usize = 12;

const BYTES: usize = 508;

// A count before a call.
const MARK: u32 = 7;

// ---- the call

fn count_vectors(rt: &impl Print, board: u32, s: &[u8], k: u32) -> io::Result<()> {
    let mut counts = [MARK; ANSWERS];
    let answer = step_vectors::step_vectors(board, s, k, &mut counts);
    let number = answer_words::number_of(&answer);
    let counts = Each(&counts[..]);
    println!(rt; "steps {number}{counts}")
}

// ---- the input

// Whether there was a description.
fn count_next(rt: &impl Print, input: &mut impl Read) -> io::Result<bool> {
    let mut words = [0u8; WORDS];
    if reading::read_full(input, &mut words)? < WORDS {
        return Ok(false);
    }
    let k = integers::bits_at(&words, 0);
    let board = integers::bits_at(&words, 1);
    let wanted = integers::bits_at(&words, 2);
    let mut bytes = [0u8; BYTES];
    let n = bytes.len().min(wanted as usize);
    reading::read_full(input, &mut bytes[..n])?;
    count_vectors(rt, board, &bytes[..n], k)?;
    Ok(true)
}

fn main(rt: HostRuntime) -> io::Result<()> {
    let mut input = rt.stdin();
    for _ in 0..DESCRIPTIONS {
        if !count_next(&rt, &mut input)? {
            break;
        }
    }
    Ok(())
}
