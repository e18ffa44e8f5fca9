// The description that Make makes, request 2.3: its arguments are a seed and the sizes r, m and b as decimal numerals; its bytes go to
// standard output. Where Make declines, nothing goes there and the line `refused` with the number goes to standard error. An argument that
// is no numeral of a word, or missing, is 4,294,967,295.

#![tactic(auto)]

use meaning::Sizes;
use refusals::Refusal;
use std::io;

// More bytes than any description has.
const BYTES: usize = 512;

fn print_bytes(rt: &impl Print, out: &[u8], bytes: u32) -> io::Result<()> {
    let n = out.len().min(bytes as usize);
    rt.write_all(&out[..n])
}

fn print_refusal(rt: &impl Eprint, refusal: Refusal) -> io::Result<()> {
    eprintln!(rt; "refused {refusal}")
}

fn print_make(rt: &(impl Print + Eprint), seed: u32, z: Sizes) -> io::Result<()> {
    let mut out = [0u8; BYTES];
    match make::make(seed, z, &mut out) {
        Ok(bytes) => print_bytes(rt, &out, bytes),
        Err(refusal) => print_refusal(rt, refusal),
    }
}

fn main(rt: HostRuntime) -> io::Result<()> {
    let seed = argument::word_argument(&rt, 1);
    let z = Sizes {
        loops: argument::word_argument(&rt, 2),
        streams: argument::word_argument(&rt, 3),
        lines: argument::word_argument(&rt, 4),
    };
    print_make(&rt, seed, z)
}
